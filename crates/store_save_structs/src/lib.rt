// Saving and opening over cards as structs: the same working rows as for the other calls, as many as cards.
//
// Saving carries the cards to them, as the check does, and so before it finds 3 or 5. Opening reads the saved book into them and has it judged
// there; the cards are written once it is sound, and not before.
#![tactic(auto)]

ghost use Rattle.std.specs.Prelude.{◌≡◌};
ghost use Rattle.ldc.specs.Run.{accepted, letter_of};
ghost use Rattle.book.specs.Pieces.{before};
ghost use Rattle.saved_book.specs.Opened.{opened_over};
ghost use Rattle.saved_book.specs.Calls.{saving, save_book, opening, open_with, working_after};
ghost use Rattle.store_structs.specs.Over.{before_over};
ghost use Rattle.store_save_structs.specs.Saved.{save_over, rows_saved, book_after_over};
ghost use Rattle.std.specs.Result.{result_unwrap_or};
ghost use Rattle.wire.specs.Refusal.{number_of, letter_in};

use book::head::HeadWords;
use book::row::Row;
use store_cards::Card;
use store_save::{open, save};
use table::limits::PlaceBytes;
use wire::refusal::Refusal;

// Saves from rows that may be written to, which it leaves as they are.
fn save_rows(
    area: &[u8],
    rows: &mut [Row],
    lists: &[u16],
    head: &HeadWords,
    memory: &PlaceBytes,
    buffer: &mut [u8],
) -> Result<usize, Refusal>
    ensures { ((saving (number_of result) (result_unwrap_or result 0) buffer.new
        ≡ save_book (before area.now rows.old lists.now head.now memory.now) buffer.old)
        × (letter_in result ≡ letter_of (before area.now rows.old lists.now head.now memory.now) (number_of result)))
        × (rows.new ≡ rows.old) }
{
    save::save(area, rows, lists, head, memory, buffer)
}

// Writes the book's bytes to the front of the buffer: refused with 1, 5 or 3, in this order, nothing written. With 1 no working row changes,
// otherwise they become the cards' words.
pub fn save(
    area: &[u8],
    cards: &[Card],
    rows: &mut [Row],
    lists: &[u16],
    head: &HeadWords,
    memory: &PlaceBytes,
    buffer: &mut [u8],
) -> Result<usize, Refusal>
    ensures { (saving (number_of result) (result_unwrap_or result 0) buffer.new
        ≡ save_over rows.old (before_over area.now cards.now lists.now head.now memory.now) buffer.old)
        × ((letter_in result ≡ letter_of (before_over area.now cards.now lists.now head.now memory.now) (number_of result))
        × (rows.new ≡ rows_saved (number_of result) rows.old cards.now)) }
{
    if !store_structs::fits(area.len(), cards.len(), rows.len(), lists.len()) {
        return Err(Refusal::WrongSizes);
    }
    store_cards::load(cards, rows);
    save_rows(area, rows, lists, head, memory, buffer)
}

// Opens a saved book over whatever is lent: refused with 1, 21, 22 or 5, in this order, nothing of area and book changed. With 0 and 5 the working
// rows hold the cards as opened, with 1, 21 and 22 they stay.
pub fn open(
    area: &[u8],
    cards: &mut [Card],
    rows: &mut [Row],
    lists: &mut [u16],
    head: &mut HeadWords,
    memory: &mut PlaceBytes,
    bytes: &[u8],
) -> Result<(), Refusal>
    ensures { (opening (number_of result) (book_after_over area cards lists head memory)
        ≡ open_with rows.old (before_over area.now cards.old lists.old head.old memory.old) bytes.now)
        × ((letter_in result ≡ letter_of (opened_over area.now bytes.now) (number_of result))
        × ((rows.new ≡ working_after (number_of result) rows.old area.now bytes.now)
        × ((number_of result ≡ accepted → ⊥) → cards.new ≡ cards.old))) }
{
    open::open_beside(area, cards.len(), lists, head, memory, bytes, rows)?;
    store_cards::unload(cards, rows);
    Ok(())
}

// Opening: a saved book over an area, read into working memory, judged there, and carried over once it is sound.
ghost use Rattle.std.specs.Prelude.{◌≡◌, ◌*◌, ◌≤◌, length};
ghost use Rattle.ldc.specs.Layout.{level_count, most_places};
ghost use Rattle.ldc.specs.Run.{letter_of};
ghost use Rattle.book.specs.Pieces.{before};
ghost use Rattle.saved_book.specs.Opened.{opened_over};
ghost use Rattle.saved_book.specs.Calls.{opening, open_book, open_with, working_after};
ghost use Rattle.wire.specs.Refusal.{number_of, letter_in};
ghost use Rattle.store_save.specs.Left.{opened_into, Beside, book_in, book_out, book_after};

use book::head::HeadWords;
use book::row::Row;
use book::{head, limits, sizes};
use saved_form::form;
use table::limits::{PLACE_SIZE, PlaceBytes};
use wire::refusal::Refusal;

// Reads the book into the pieces lent and judges it there: with 1, 21 and 22 nothing changes, with 0 and 5 they hold the book as opened.
fn open_into(
    area: &[u8],
    rows: &mut [Row],
    lists: &mut [u16],
    head: &mut HeadWords,
    memory: &mut PlaceBytes,
    bytes: &[u8],
) -> Result<(), Refusal>
    ensures { (number_of result ≡ (open_book (before area.now rows.old lists.old head.old memory.old) bytes.now).number)
        × ((letter_in result ≡ letter_of (opened_over area.now bytes.now) (number_of result))
        × (book_after area rows lists head memory
        ≡ opened_into (number_of result) (before area.now rows.old lists.old head.old memory.old) bytes.now)) }
{
    if !sizes::sizes(area.len(), rows.len(), lists.len()) {
        return Err(Refusal::WrongSizes);
    }
    let Some(parts) = form::form_of(bytes) else {
        return Err(Refusal::NotABook);
    };
    let places = rows.len();
    if places < parts.places {
        return Err(Refusal::FewerPlaces);
    }
    saved_read::rows::read_rows(bytes, rows);
    saved_read::summaries::sum_rows(area, rows);
    saved_read::lists::read_lists(bytes, parts.lists, places, lists);
    *head = saved_read::head::read_head(bytes, parts.lists);
    saved_read::memory::read_memory(bytes, parts.memory, memory);
    check_store::check(area, rows, lists, head, memory)
}

// Opens a saved book beside so many cards, which are not seen here: working rows take their part. The book is read into these and into the three
// working pieces behind them, which have room for it, and judged there; with 0 lists, head and memory table are carried over, refused, they stay.
fn open_within(
    area: &[u8],
    cards: usize,
    lists: &mut [u16],
    head: &mut HeadWords,
    memory: &mut PlaceBytes,
    bytes: &[u8],
    working: &mut [Row],
    items: &mut [u16],
    words: &mut HeadWords,
    table: &mut PlaceBytes,
) -> Result<(), Refusal>
    requires { level_count * most_places ≤ length items.old }
    ensures { Beside (number_of result) cards area.now bytes.now (book_in working lists head memory) (book_out working lists head memory)
        × (letter_in result ≡ letter_of (opened_over area.now bytes.now) (number_of result)) }
{
    if !((working.len() == cards) & sizes::sizes(area.len(), cards, lists.len())) {
        return Err(Refusal::WrongSizes);
    }
    let n = lists.len();
    open_into(area, working, &mut items[..n], words, table, bytes)?;
    lists.copy_from_slice(&items[..n]);
    *head = *words;
    *memory = *table;
    Ok(())
}

// The same with working pieces of its own: who calls it lends rows alone, and carries them to the cards with 0.
pub fn open_beside(
    area: &[u8],
    cards: usize,
    lists: &mut [u16],
    head: &mut HeadWords,
    memory: &mut PlaceBytes,
    bytes: &[u8],
    working: &mut [Row],
) -> Result<(), Refusal>
    ensures { Beside (number_of result) cards area.now bytes.now (book_in working lists head memory) (book_out working lists head memory)
        × (letter_in result ≡ letter_of (opened_over area.now bytes.now) (number_of result)) }
{
    let mut items = [0u16; limits::LEVELS * limits::MOST_PLACES];
    let mut words = [0u64; head::HEAD_WORDS];
    let mut table = [0u8; PLACE_SIZE];
    open_within(
        area,
        cards,
        lists,
        head,
        memory,
        bytes,
        working,
        &mut items[..],
        &mut words,
        &mut table,
    )
}

// Opens a saved book over whatever is lent: refused with 1, 21, 22 or 5, in this order, nothing of area and book changed; else the book is the one
// that the bytes say, the places that the area has more than were saved free. Working rows are lent beside it, as many as cards (else 1): with 0 and
// 5 they hold the cards as opened, with 1, 21 and 22 they stay. The area is never written.
pub fn open(
    area: &[u8],
    cards: &mut [Row],
    lists: &mut [u16],
    head: &mut HeadWords,
    memory: &mut PlaceBytes,
    bytes: &[u8],
    working: &mut [Row],
) -> Result<(), Refusal>
    ensures { (opening (number_of result) (book_after area cards lists head memory)
        ≡ open_with working.old (before area.now cards.old lists.old head.old memory.old) bytes.now)
        × ((letter_in result ≡ letter_of (opened_over area.now bytes.now) (number_of result))
        × (working.new ≡ working_after (number_of result) working.old area.now bytes.now)) }
{
    open_beside(area, cards.len(), lists, head, memory, bytes, working)?;
    cards.copy_from_slice(working);
    Ok(())
}

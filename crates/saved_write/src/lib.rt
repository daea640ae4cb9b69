// Writing the bytes of a saved book (document 02, note 4): how many they are, and the bytes, into a buffer that has room for them.
//
// Each function writes from a position on and gives the position behind what it wrote.
#![tactic(auto)]

ghost use Rattle.std.specs.Prelude.{◌≡◌, ℕ, ◌*◌, ◌≤◌, List, length};
ghost use Rattle.std.proofs.lemmas.List.Edits.{sets};
ghost use Rattle.ldc.specs.Layout.{level_count};
ghost use Rattle.saved_book.specs.Saved.{saved_bytes};
ghost use Rattle.saved_write.specs.Book.{book_of, Counted, Book};

use book::head::HeadWords;
use book::row::Row;
use coding::number;
use saved_form::layout;
use table::limits::PlaceBytes;

mod cards;
mod fields;
mod head;
mod lengths;
mod lists;
mod memory;

// How many bytes the saved book has, whatever is listed: of the lists only the lengths matter.
pub fn length_of(cards: &[Row], head: &HeadWords, memory: &PlaceBytes) -> usize
    requires { Counted cards.now head.now memory.now }
    ensures { (lists : List ℕ) → length lists ≡ level_count * length cards.now
        → result ≡ length (saved_bytes (book_of cards.now lists head.now memory.now)) }
{
    let cards_length = lengths::cards_length(cards);
    let lists_length = lengths::lists_length(head);
    let memory_length = lengths::memory_length(&memory[..]);
    layout::CARDS + cards_length + lists_length + memory_length
}

// Writes the saved book to the front of a buffer that has room for it; the rest stays.
pub fn write(cards: &[Row], lists: &[u16], head: &HeadWords, memory: &PlaceBytes, out: &mut [u8])
    requires { Book cards.now lists.now head.now memory.now
        × (length (saved_bytes (book_of cards.now lists.now head.now memory.now)) ≤ length out.old) }
    ensures { out.new
        ≡ sets out.old 0
        (saved_bytes (book_of cards.now lists.now head.now memory.now)) }
{
    let head_end = head::put_head(out, layout::KIND, cards.len(), head);
    let cards_end = cards::put_cards(out, head_end, cards);
    let lists_end = lists::put_lists(out, cards_end, lists, cards.len(), head);
    let end = memory::put_memory(out, lists_end, &memory[..]);
    number::put(out, layout::WHOLE, layout::LENGTH, end as u64);
}

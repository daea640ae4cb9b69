// Taking places and writing tables to them.
ghost use Rattle.std.specs.Prelude.{◌≡◌, ◌*◌, ◌≤◌, ◌<◌, length};
ghost use Rattle.std.proofs.lemmas.List.Edits.{sets};
ghost use Rattle.table.specs.Limits.{place_size};
ghost use Rattle.table.specs.Table.{zeros, MemoryPlace};
ghost use Rattle.summary.specs.Summary.{summary_words};
ghost use Rattle.ldc.specs.Layout.{table_summary};
ghost use Rattle.book.specs.Head.{head_words};
ghost use Rattle.book.specs.Place.{free_rows};
ghost use Rattle.book_edit.specs.Take.{Takes};

use book::head::Head;
use book::row;
use book::row::Row;
use book_places::take;
use summary::filter;
use table::limits;
use table_builder::place;

// A place that was taken, and the head after it.
#[derive(Clone, Copy)]
pub struct Taken {
    pub place: usize,
    pub head: Head,
}

// Takes the first free place from the cursor on, going round: its card becomes live without links, the cursor the place after it.
// Every place is taken here, through the head's position, which is lent for it.
pub fn take(cards: &mut [Row], mut head: Head) -> Taken
    requires { (head.position.cursor < length cards.old) × (1 ≤ free_rows cards.old) }
    ensures { Takes cards.old (head_words head) cards.new (head_words result.head) result.place (zeros summary_words) }
{
    let place = take::take_place(cards, &mut head.position);
    Taken { place, head }
}

// Takes a place and writes a whole table to it, and its summary to the card; the rest of the area stays.
pub fn write_table(area: &mut [u8], cards: &mut [Row], head: Head, table: &[u8]) -> Taken
    requires { (length area.old ≡ length cards.old * place_size)
        × (MemoryPlace table.now × ((head.position.cursor < length cards.old) × (1 ≤ free_rows cards.old))) }
    ensures { Takes cards.old (head_words head) cards.new (head_words result.head) result.place (table_summary table.now)
        × (area.new ≡ sets area.old (result.place * place_size) table.now) }
{
    let taken = take(cards, head);
    place::write_place(area, taken.place * limits::PLACE_SIZE, table);
    row::set_summary(cards, taken.place, filter::of_table(table));
    taken
}

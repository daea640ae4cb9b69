// Taking a place: the head's position, the cursor and the two marks in one struct, is lent to the one function that takes a place.
//
// `take` has the position by value, in and out, for who holds no reference to one.
ghost use Rattle.std.specs.Prelude.{◌≡◌, [], ◌≤◌, ◌<◌, length, set};
ghost use Rattle.table.specs.Table.{zeros};
ghost use Rattle.summary.specs.Summary.{summary_words};
ghost use Rattle.ldc.specs.Store.{live};
ghost use Rattle.ldc.specs.Place.{next_place};
ghost use Rattle.ldc.specs.Layout.{row_with};
ghost use Rattle.book.specs.Place.{free_at, free_rows};
ghost use Rattle.book_places.specs.Taking.{TakesAt};

use super::free;
use book::head::Position;
use book::row;
use book::row::Row;

// A place, and the cursor after it.
#[derive(Clone, Copy)]
pub struct Step {
    pub place: usize,
    pub cursor: usize,
}

// A place that was taken, and the position after it.
#[derive(Clone, Copy)]
pub struct Advanced {
    pub place: usize,
    pub position: Position,
}

// Makes the first free place from the cursor on, going round, live without links and without a summary yet.
pub fn take_from(cards: &mut [Row], cursor: usize) -> Step
    requires { (cursor < length cards.old) × (1 ≤ free_rows cards.old) }
    ensures { (free_at (length cards.old) cards.old cursor ≡ Some result.place)
        × ((cards.new ≡ set cards.old result.place (row_with (live []) (zeros summary_words)))
        × (result.cursor ≡ next_place (length cards.old) result.place)) }
{
    let p = free::first_free(cards, cursor).unwrap();
    row::make_live(cards, p);
    Step {
        place: p,
        cursor: free::next(cards.len(), p),
    }
}

// Takes a place: the cursor becomes the place after it, and the marks stay. Every place is taken here.
pub fn take_place(cards: &mut [Row], position: &mut Position) -> usize
    requires { (position.old.cursor < length cards.old) × (1 ≤ free_rows cards.old) }
    ensures { TakesAt cards.old position.old cards.new position.new result }
{
    let step = take_from(cards, position.cursor);
    position.cursor = step.cursor;
    step.place
}

// The same with the position by value, in and out.
pub fn take(cards: &mut [Row], position: Position) -> Advanced
    requires { (position.cursor < length cards.old) × (1 ≤ free_rows cards.old) }
    ensures { TakesAt cards.old position cards.new result.position result.place }
{
    let mut moved = position;
    let place = take_place(cards, &mut moved);
    Advanced {
        place,
        position: moved,
    }
}

// Which places are free: the first from a cursor on, going round, and whether there are so many.
ghost use Rattle.std.specs.Prelude.{◌≡◌, ◌<◌, leb, length};
ghost use Rattle.ldc.specs.Place.{next_place};
ghost use Rattle.book.specs.Place.{free_at, free_rows};

use book::row;
use book::row::Row;

// The place after this one, 0 after the last.
#[tactic(auto, unfolding(ldc::specs::Place::next_place))]
pub fn next(size: usize, p: usize) -> usize
    requires { p < size }
    ensures { result ≡ next_place size p }
{
    if p + 1 == size { 0 } else { p + 1 }
}

// The first free place from this one on, going round.
pub fn first_free(cards: &[Row], from: usize) -> Option<usize>
    requires { from < length cards.now }
    ensures { result ≡ free_at (length cards.now) cards.now from }
{
    let mut p = from;
    for _ in 0..cards.len() {
        if row::is_free(&cards[p]) {
            return Some(p);
        }
        p = next(cards.len(), p);
    }
    None
}

// Are at least k places free? Counting stops at the k-th.
pub fn free_at_least(cards: &[Row], k: usize) -> bool
    ensures { result ≡ leb k (free_rows cards.now) }
{
    let mut left = k;
    for row in cards {
        if left == 0 {
            return true;
        }
        if row::is_free(row) {
            left -= 1;
        }
    }
    left == 0
}

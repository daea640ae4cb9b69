// Number 1: are the lent pieces of good sizes?
ghost use Rattle.std.specs.Prelude.{◌≡◌, length};
ghost use Rattle.ldc.specs.Lent.{Lent, sizes_good};

use super::limits::{FEWEST_PLACES, LEVELS, MOST_PLACES};
use table::limits;

// Number 1: are so many bytes, rows and list items those of 16 to 4,096 places? Only the numbers matter.
pub fn sizes(area: usize, cards: usize, lists: usize) -> bool
    ensures { (m : Lent) → length m.area ≡ area → length m.cards ≡ cards → length m.lists ≡ lists → result ≡ sizes_good m }
{
    let n = area / limits::PLACE_SIZE;
    (area % limits::PLACE_SIZE == 0)
        & ((FEWEST_PLACES <= n) & ((n <= MOST_PLACES) & ((cards == n) & (lists == LEVELS * n))))
}

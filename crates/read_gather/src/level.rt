// The tables of a level below gathered upward, from the one whose span can hold the low key to the first in whose span the range ends. Where
// the arrays are full, it ends at their last key.
ghost use Rattle.std.specs.Prelude.{◌≡◌, ◌≤◌, ◌<◌, length};
ghost use Rattle.read.specs.Shown.{Legible, Rising, shown_in};
ghost use Rattle.read_gather.specs.Beside.{InUse};
ghost use Rattle.read_gather.specs.Sources.{ranges, TakenFrom};
ghost use Rattle.read_gather.specs.Order.{up_to, sources_of};

use super::sources;
use book::row::Row;
use coding::key::Key;
use read::level;

// Up to which key a range is of interest, where n keys are in use.
pub fn up_to(keys: &[u64], n: usize, high: Key) -> Key
    requires { (n ≤ length keys.now) × (0 < length keys.now) }
    ensures { result.value ≡ up_to keys.now n high.value }
{
    if n < keys.len() {
        return high;
    }
    let last = Key { value: keys[n - 1] };
    high.min(last)
}

// What is read of the tables of a level below, as far as it lies in a range.
pub fn in_level(
    area: &[u8],
    cards: &[Row],
    items: &[u16],
    low: Key,
    high: Key,
    keys: &mut [u64],
    spots: &mut [u64],
    n: usize,
) -> usize
    requires { Legible area.now cards.now
        × (Rising area.now cards.now items.now × ((0 < length keys.old) × InUse keys.old spots.old n)) }
    ensures { TakenFrom area (ranges low.value high.value (sources_of (shown_in area cards) items.now)) keys spots n result }
{
    let first = level::count_reached(area, cards, items, low).saturating_sub(1);
    let mut used = n;
    let mut top = up_to(keys, n, high);
    for p in &items[first..] {
        let p = usize::from(*p);
        used = sources::in_sources(area, cards, p, low, top, keys, spots, used);
        top = up_to(keys, used, high);
        if level::reaches(area, cards, p, top) {
            return used;
        }
    }
    used
}

// The values of a store from a key on, keys rising: as many as two arrays have room for.
#![tactic(auto)]

ghost use Rattle.std.specs.Prelude.{◌≡◌, ◌++◌, ◌≤◌, ◌<◌, length, take};
ghost use Rattle.ldc.specs.Store.{within};
ghost use Rattle.ldc.specs.Lent.{store_of};
ghost use Rattle.ldc.specs.Read.{contents};
ghost use Rattle.book.specs.Pieces.{given, held};
ghost use Rattle.read.specs.Shown.{Readable};
ghost use Rattle.read_gather.specs.Gathered.{AllSeated};
ghost use Rattle.read_iterator.specs.Spots.{Whole};
ghost use Rattle.read_iterator.specs.Values.{Sifted, HoldFirst};

use book::head::Head;
use book::row::Row;
use coding::key::Key;
use read_gather::{level, store};

pub mod spot;

// Moves the values among the entries from one on to the front, past the delete marks; how many entries are then in use.
fn keep_values(
    area: &[u8],
    memory: &[u8],
    keys: &mut [u64],
    spots: &mut [u64],
    from: usize,
    n: usize,
) -> usize
    requires { Whole area.now memory.now
        × ((from ≤ n)
        × ((n ≤ length keys.old)
        × ((length spots.old ≡ length keys.old) × AllSeated (area.now ++ memory.now) (take n spots.old)))) }
    ensures { Sifted (area.now ++ memory.now) keys.old spots.old from n
        keys.new spots.new result }
{
    let mut kept = from;
    for i in from..n {
        let at = spots[i];
        keys[kept] = keys[i];
        spots[kept] = at;
        if spot::is_value(area, memory, at as usize) {
            kept += 1;
        }
    }
    kept
}

// Gathers the values from a key on, up to another, in the arrays: the first ones, as many as there is room for; how many they are. Where
// delete marks take room, it goes on behind the last key.
pub fn next_values(
    area: &[u8],
    cards: &[Row],
    lists: &[u16],
    head: Head,
    memory: &[u8],
    from: Key,
    high: Key,
    keys: &mut [u64],
    spots: &mut [u64],
) -> usize
    requires { Readable (given area.now cards.now lists.now head memory.now)
        × ((0 < length keys.old) × (length spots.old ≡ length keys.old)) }
    ensures { HoldFirst area memory keys spots result
        (within from.value high.value (contents (store_of (held area.now cards.now lists.now head memory.now)))) }
{
    let mut kept = 0;
    let mut low = from.value;
    let last = high.value;
    while low <= last {
        let start = Key { value: low };
        let used = store::in_store(
            area, cards, lists, head, memory, start, high, keys, spots, kept,
        );
        let end = level::up_to(keys, used, high);
        kept = keep_values(area, memory, keys, spots, kept, used);
        if keys.len() <= kept {
            return kept;
        }
        let at = end.value;
        if last <= at {
            return kept;
        }
        low = at + 1;
    }
    kept
}

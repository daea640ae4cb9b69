// All that is read of a store gathered, oldest first: levels 3, 2 and 1, then level 0, then the memory table, whose spots are behind the area.
ghost use Rattle.std.specs.Prelude.{◌<◌, length};
ghost use Rattle.ldc.specs.Lent.{store_of};
ghost use Rattle.ldc.specs.Read.{read_order};
ghost use Rattle.book.specs.Head.{head_words};
ghost use Rattle.book.specs.Pieces.{given, held};
ghost use Rattle.read.specs.Shown.{Readable};
ghost use Rattle.read.specs.Look.{Levels};
ghost use Rattle.read_gather.specs.Beside.{InUse};
ghost use Rattle.read_gather.specs.Sources.{ranges, TakenFrom};
ghost use Rattle.read_gather.specs.Order.{lower_of, TakenBoth};

use super::{arrays, level, sources};
use book::head::Head;
use book::limits::LEVELS;
use book::list;
use book::row::Row;
use coding::key::Key;

// Levels 1 to 3, as far as they lie in a range.
fn in_lower(
    area: &[u8],
    cards: &[Row],
    lists: &[u16],
    head: Head,
    low: Key,
    high: Key,
    keys: &mut [u64],
    spots: &mut [u64],
    n: usize,
) -> usize
    requires { Levels area.now cards.now lists.now (head_words head)
        × ((0 < length keys.old) × InUse keys.old spots.old n) }
    ensures { TakenFrom area (ranges low.value high.value (lower_of area cards lists head)) keys spots n result }
{
    let mut used = n;
    for k in (1..LEVELS).rev() {
        let items = list::items(lists, cards.len(), head.length_of(k), k);
        used = level::in_level(area, cards, items, low, high, keys, spots, used);
    }
    used
}

// The whole store, as far as it lies in a range.
pub fn in_store(
    area: &[u8],
    cards: &[Row],
    lists: &[u16],
    head: Head,
    memory: &[u8],
    low: Key,
    high: Key,
    keys: &mut [u64],
    spots: &mut [u64],
    n: usize,
) -> usize
    requires { Readable (given area.now cards.now lists.now head memory.now)
        × ((0 < length keys.old) × InUse keys.old spots.old n) }
    ensures { TakenBoth area memory
        (ranges low.value high.value (read_order (store_of (held area.now cards.now lists.now head memory.now))))
        keys spots n result }
{
    let lower = in_lower(area, cards, lists, head, low, high, keys, spots, n);
    let items = list::items(lists, cards.len(), head.length0, 0);
    let top = level::up_to(keys, lower, high);
    let tables = sources::in_newest(area, items, low, top, keys, spots, lower);
    let last = level::up_to(keys, tables, high);
    arrays::take_in(keys, spots, tables, memory, area.len(), low, last)
}

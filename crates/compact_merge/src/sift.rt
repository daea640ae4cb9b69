// Which of the gathered entries come out of a merge. A spot is the position of an entry's first byte in the area.
ghost use Rattle.std.specs.Prelude.{◌≡◌, ◌≤◌, ◌<◌, length, take};
ghost use Rattle.table.specs.Entry.{Entry, entry_at};
ghost use Rattle.ldc.specs.Layout.{level_count};
ghost use Rattle.ldc.specs.Tidy.{drops_mark, comes_out};
ghost use Rattle.book.specs.Head.{head_words};
ghost use Rattle.read.specs.Look.{Levels};
ghost use Rattle.read_gather.specs.Gathered.{SeatedIn, AllSeated};
ghost use Rattle.compact_merge.specs.Merge.{store_held};
ghost use Rattle.compact_merge.specs.Spots.{Sifted};

use book::head::Head;
use book::limits::LEVELS;
use book::list;
use book::row::Row;
use coding::key::Key;
use read::level;
use table::{entry, limits};

// Does a merge on level n drop a delete mark under this key? It does if no span of a level below holds the key: one search on each.
fn drops_mark(area: &[u8], cards: &[Row], lists: &[u16], head: Head, n: usize, key: Key) -> bool
    requires { Levels area.now cards.now lists.now (head_words head) × (n < level_count) }
    ensures { (mark : Entry) → mark.key ≡ key.value → result ≡ drops_mark (store_held area cards lists head) n mark }
{
    for below in n + 1..LEVELS {
        let items = list::items(lists, cards.len(), head.length_of(below), below);
        if level::holds(area, cards, items, key) {
            return false;
        }
    }
    true
}

// Does the entry at a spot come out of a merge on this level? Only for a delete mark the levels below are searched.
fn comes_out(area: &[u8], cards: &[Row], lists: &[u16], head: Head, n: usize, at: usize) -> bool
    requires { Levels area.now cards.now lists.now (head_words head) × ((n < level_count) × SeatedIn area.now at) }
    ensures { result ≡ comes_out (store_held area cards lists head) n (entry_at area.now at) }
{
    if entry::kind_at(area, at) != limits::DELETE_MARK {
        return true;
    }
    !drops_mark(area, cards, lists, head, n, entry::key_at(area, at))
}

// Moves the spots of the entries that come out of a merge on level n to the front of the first `used`; how many they are.
pub fn sift(
    area: &[u8],
    cards: &[Row],
    lists: &[u16],
    head: Head,
    n: usize,
    spots: &mut [u64],
    used: usize,
) -> usize
    requires { Levels area.now cards.now lists.now (head_words head)
        × ((n < level_count) × ((used ≤ length spots.old) × AllSeated area.now (take used spots.old))) }
    ensures { Sifted (comes_out (store_held area cards lists head) n) area.now spots.old used spots.new result }
{
    let mut kept = 0;
    for i in 0..used {
        let spot = spots[i];
        if comes_out(area, cards, lists, head, n, spot as usize) {
            spots[kept] = spot;
            kept += 1;
        }
    }
    kept
}

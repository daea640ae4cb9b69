// All that is read of a place gathered: its table, then the slices of its links, oldest first. And the tables of level 0, oldest first.
ghost use Rattle.std.specs.Prelude.{◌∷◌, [], map, reverse, ◌<◌, length};
ghost use Rattle.ldc.specs.Store.{links, slice, sources, within};
ghost use Rattle.read.specs.Shown.{Tabled, Legible, Listed, shown_in, table_in};
ghost use Rattle.read_gather.specs.Beside.{InUse};
ghost use Rattle.read_gather.specs.Sources.{ranges, TakenFrom};

use super::arrays;
use book::place::bytes_of;
use book::row;
use book::row::Row;
use coding::key::Key;
use table::limits;

// A place's table, from one key up to another.
pub fn in_table(
    area: &[u8],
    p: usize,
    low: Key,
    high: Key,
    keys: &mut [u64],
    spots: &mut [u64],
    n: usize,
) -> usize
    requires { Tabled area.now p × InUse keys.old spots.old n }
    ensures { TakenFrom area (within low.value high.value (table_in area p) ∷ []) keys spots n result }
{
    let start = p * limits::PLACE_SIZE;
    arrays::take_in(keys, spots, n, bytes_of(area, p), start, low, high)
}

// The slices of all links of a place, oldest first, as far as they lie in a range.
fn in_links(
    area: &[u8],
    cards: &[Row],
    p: usize,
    low: Key,
    high: Key,
    keys: &mut [u64],
    spots: &mut [u64],
    n: usize,
) -> usize
    requires { Legible area.now cards.now × ((p < length cards.now) × InUse keys.old spots.old n) }
    ensures { TakenFrom area
        (ranges low.value high.value (map (slice (shown_in area cards)) (reverse (links (shown_in area cards) p))))
        keys spots n result }
{
    let row = &cards[p];
    let mut used = n;
    for i in 0..row::link_count(row) as usize {
        let link = row::link_at(row, i);
        let from = low.max(link.low);
        let to = high.min(link.high);
        used = in_table(area, link.place, from, to, keys, spots, used);
    }
    used
}

// All that is read of a place, as far as it lies in a range: its table, then the slices of its links.
pub fn in_sources(
    area: &[u8],
    cards: &[Row],
    p: usize,
    low: Key,
    high: Key,
    keys: &mut [u64],
    spots: &mut [u64],
    n: usize,
) -> usize
    requires { Legible area.now cards.now × (Tabled area.now p × InUse keys.old spots.old n) }
    ensures { TakenFrom area (ranges low.value high.value (sources (shown_in area cards) p)) keys spots n result }
{
    let own = in_table(area, p, low, high, keys, spots, n);
    in_links(area, cards, p, low, high, keys, spots, own)
}

// Tables, the first of them the oldest, as far as they lie in a range.
pub fn in_newest(
    area: &[u8],
    items: &[u16],
    low: Key,
    high: Key,
    keys: &mut [u64],
    spots: &mut [u64],
    n: usize,
) -> usize
    requires { Listed area.now items.now × InUse keys.old spots.old n }
    ensures { TakenFrom area (ranges low.value high.value (map (table_in area) (reverse items.now))) keys spots n result }
{
    let mut used = n;
    for p in items {
        used = in_table(area, usize::from(*p), low, high, keys, spots, used);
    }
    used
}

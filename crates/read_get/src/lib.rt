// Look-up: the first entry met in the read order decides, memory first, then level 0 newest first, then levels 1, 2 and 3. One walk finds
// it and counts the tables that it opens; a look-up is that walk without its counts.
#![tactic(auto)]

ghost use Rattle.std.specs.Prelude.{◌≡◌, ◌+◌, length};
ghost use Rattle.table.specs.Search as seeking;
ghost use Rattle.ldc.specs.Lists.{flat};
ghost use Rattle.ldc.specs.Lent.{store_of};
ghost use Rattle.ldc.specs.Probe.{opened, bits_in};
ghost use Rattle.ldc.specs.Read.{read_order};
ghost use Rattle.book.specs.Head.{head_words};
ghost use Rattle.book.specs.Pieces.{given, held};
ghost use Rattle.read.specs.Shown.{Readable};
ghost use Rattle.read.specs.Found.{SpotsIn};
ghost use Rattle.read.specs.Look.{Levels};
ghost use Rattle.read_get.specs.Opens.{BitsOf, OpensIn, lower_asked, all_asked};

use book::head::Head;
use book::limits::LEVELS;
use book::list;
use book::row::Row;
use coding::key::Key;
use read::found::Spot;
use summary::bits;
use summary::bits::KeyBits;
use table::search;

mod level;
mod opened;
mod tables;

use opened::Opened;

// Where the deciding entry stands; how many tables were opened to find it, and how many bits are set in their summaries.
#[derive(Clone, Copy)]
pub struct Probed {
    pub spot: Option<Spot>,
    pub tables: usize,
    pub bits: usize,
}

// Levels 1 to 3.
fn open_lower(
    area: &[u8],
    cards: &[Row],
    lists: &[u16],
    head: Head,
    key: Key,
    bits: KeyBits,
) -> Opened
    requires { Levels area.now cards.now lists.now (head_words head) × BitsOf key.value bits }
    ensures { OpensIn area cards key (lower_asked area cards lists head key) result }
{
    let mut seen = opened::nothing();
    for n in 1..LEVELS {
        let items = list::items(lists, cards.len(), head.length_of(n), n);
        let next = level::open_level(area, cards, items, key, bits);
        seen = opened::then(seen, next);
        if seen.found {
            return seen;
        }
    }
    seen
}

// All tables, from level 0 on.
fn open_tables(area: &[u8], cards: &[Row], lists: &[u16], head: Head, key: Key) -> Opened
    requires { Levels area.now cards.now lists.now (head_words head) }
    ensures { OpensIn area cards key (all_asked area cards lists head key) result }
{
    let three = bits::bits_of(key);
    let items = list::items(lists, cards.len(), head.length0, 0);
    let newest = tables::open_newest(area, cards, items, key, three);
    if newest.found {
        return newest;
    }
    opened::then(newest, open_lower(area, cards, lists, head, key, three))
}

// The deciding entry of a kept store, and the tables opened to find it.
pub fn probe(
    area: &[u8],
    cards: &[Row],
    lists: &[u16],
    head: Head,
    memory: &[u8],
    key: Key,
) -> Probed
    requires { Readable (given area.now cards.now lists.now head memory.now) }
    ensures { SpotsIn area memory
        (seeking.find key.value (flat (read_order (store_of (held area.now cards.now lists.now head memory.now)))))
        result.spot
        × ((result.tables ≡ length (opened (store_of (held area.now cards.now lists.now head memory.now)) key.value))
        × (result.bits
        ≡ bits_in (store_of (held area.now cards.now lists.now head memory.now))
        (opened (store_of (held area.now cards.now lists.now head memory.now)) key.value))) }
{
    if let Some(at) = search::find(memory, key) {
        return Probed {
            spot: Some(Spot::Memory(at)),
            tables: 0,
            bits: 0,
        };
    }
    let seen = open_tables(area, cards, lists, head, key);
    if seen.found {
        return Probed {
            spot: Some(Spot::Place(seen.place, seen.at)),
            tables: seen.tables,
            bits: seen.bits,
        };
    }
    Probed {
        spot: None,
        tables: seen.tables,
        bits: seen.bits,
    }
}

// The deciding entry of a kept store.
pub fn look_up(
    area: &[u8],
    cards: &[Row],
    lists: &[u16],
    head: Head,
    memory: &[u8],
    key: Key,
) -> Option<Spot>
    requires { Readable (given area.now cards.now lists.now head memory.now) }
    ensures { SpotsIn area memory
        (seeking.find key.value (flat (read_order (store_of (held area.now cards.now lists.now head memory.now)))))
        result }
{
    probe(area, cards, lists, head, memory, key).spot
}

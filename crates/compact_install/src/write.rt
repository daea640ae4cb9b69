// Writing the tables of a merge, one after the other, and putting their places into the level's list for the old one.
ghost use Rattle.std.specs.Prelude.{[]};
ghost use Rattle.book.specs.Pieces.{given_beside, held_beside, left_beside};
ghost use Rattle.compact_install.specs.Tables.{Writes, Places};

use book::head::Head;
use book::row::Row;
use book_edit::{level, write};
use compact_merge::tables::MERGE_TABLES;
use table::limits;

// Writes the first k tables of `out`, each to a place taken for it; in level n's list their places stand for place p.
pub fn write_all(
    area: &mut [u8],
    cards: &mut [Row],
    lists: &mut [u16],
    head: Head,
    n: usize,
    p: usize,
    out: &[u8],
    k: usize,
) -> Head
    requires { Writes (given_beside area.old cards.old lists.old head []) n p out.now k }
    ensures { Places (held_beside area.old cards.old lists.old head []) n p out.now k (left_beside area cards lists result []) }
{
    let old = p as u16;
    let mut taken = [0u16; MERGE_TABLES];
    let mut noted = head;
    for i in 0..k {
        let start = i * limits::PLACE_SIZE;
        let end = start + limits::PLACE_SIZE;
        let new = write::write_table(area, cards, noted, &out[start..end]);
        let place = new.place as u16;
        taken[i] = place;
        noted = new.head;
    }
    level::replace(lists, cards.len(), noted, n, old, &taken[..k])
}

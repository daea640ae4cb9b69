// Does a merge whose tables are built: they are written in the old table's place, and it is freed with the frozen tables that no link
// names any more.
#![tactic(auto)]

ghost use Rattle.book.specs.Pieces.{given_beside, held_beside, left_beside};
ghost use Rattle.compact_install.specs.Merge.{Merges, Merged};

use book::head::Head;
use book::row::Row;
use book::{list, row};

mod release;
mod write;

// Does the merge of place p on level n, whose tables are the first k of `out`: they are written and take its place in the level's list;
// then it is freed, and every frozen table that only its links named. Which these are is asked first, while the level can be searched.
pub fn finish_merge(
    area: &mut [u8],
    cards: &mut [Row],
    lists: &mut [u16],
    head: Head,
    n: usize,
    p: usize,
    out: &[u8],
    k: usize,
) -> Head
    requires { Merges (given_beside area.old cards.old lists.old head) n p out.now k }
    ensures { Merged (held_beside area.old cards.old lists.old head) n p (left_beside area cards lists result) }
{
    let row = cards[p];
    let items = list::items(lists, cards.len(), head.length_of(n), n);
    let held = release::find_held(area, cards, items, p);
    let done = write::write_all(area, cards, lists, head, n, p, out, k);
    row::free(cards, p);
    release::release(cards, row, held);
    done
}

// What rules E and G ask of levels 1 to 3, in one pass over their lists: their spans rise, and no place is named on two of them. The links of
// one table were compared with each other before; where spans rise, those of different tables share no key.
ghost use Rattle.std.specs.Prelude.{◌≡◌, true, length};
ghost use Rattle.table.specs.Table.{zeros};
ghost use Rattle.ldc.specs.Lists.{all, all_from};
ghost use Rattle.book.specs.Row.{links_in};
ghost use Rattle.check_walk.specs.Links.{Walkable, pairs, apart_in, levels_apart};
ghost use Rattle.check_places.specs.Parts.{level_rises};

use book::head::HeadWords;
use book::limits::LEVELS;
use book::list;
use book::row::Row;
use check_walk::{named, span};
use table_builder::place;

// In `marks` there is room for a mark of each place.
pub fn levels_kept(
    area: &[u8],
    cards: &[Row],
    lists: &[u16],
    head: &HeadWords,
    ends: &[u64],
    marks: &mut [u8],
) -> bool
    requires { (Walkable area.now cards.now lists.now head.now ends.now × (length marks.old ≡ length cards.now))
        × (all (λ row. pairs apart_in (links_in row)) cards.now ≡ true) }
    ensures { result ≡ true
        → (levels_apart 3 1 cards.now lists.now head.now (zeros (length cards.now)) ≡ true)
        × (all_from 3 1 (level_rises area.now cards.now lists.now head.now) ≡ true) }
{
    place::wipe(marks);
    for n in 1..LEVELS {
        let items = list::items(lists, cards.len(), list::length(head, n), n);
        if !named::items_unmarked(cards, items, marks) {
            return false;
        }
        if !span::rise(area, cards, ends, items) {
            return false;
        }
        named::mark_items(cards, items, marks);
    }
    true
}

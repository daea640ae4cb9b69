// The check's quick yes to rules E, F and G: one pass over the rows and one over the lists. Where it says no, the rules themselves tell
// which of them is broken.
#![tactic(auto)]

ghost use Rattle.std.specs.Prelude.{◌≡◌, true, length};
ghost use Rattle.check_walk.specs.Links.{Walkable};
ghost use Rattle.check_places.specs.Links.{walk_c};
ghost use Rattle.check_quick.specs.Rest.{RestKept};

use book::head::{HeadWords, THRESHOLD};
use book::list;
use book::row::Row;
use check_links::rule_e;
use check_places::{rule_f, unused};
use table_builder::place;

mod levels;
mod rows;

// Are rules E, F and G kept? A yes is right; a no says nothing. In `marks` there is room for a mark of each place.
pub fn rest_kept(
    area: &[u8],
    cards: &[Row],
    lists: &[u16],
    head: &HeadWords,
    ends: &[u64],
    marks: &mut [u8],
) -> bool
    requires { (Walkable area.now cards.now lists.now head.now ends.now × (walk_c area.now cards.now ≡ true))
        × (length marks.old ≡ length cards.now) }
    ensures { result ≡ true → RestKept area.now cards.now lists.now head.now }
{
    place::wipe(marks);
    if !rows::rows_kept(area, cards, head[THRESHOLD], marks) {
        return false;
    }
    if !rule_f::marks_good(cards, marks) {
        return false;
    }
    let len = list::length(head, 0);
    if !rule_e::all_bare(cards, list::items(lists, cards.len(), len, 0)) {
        return false;
    }
    if !(unused::head_marks_good(head) & unused::lists_rest_zero(lists, head, cards.len())) {
        return false;
    }
    levels::levels_kept(area, cards, lists, head, ends, marks)
}

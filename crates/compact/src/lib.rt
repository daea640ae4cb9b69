// Tidies: the step that was planned is done or refused, or there is nothing to do.
#![tactic(auto)]

ghost use Rattle.ldc.specs.Tidy.{tidy_step};
ghost use Rattle.book.specs.Pieces.{given_beside, held_beside, left_beside};
ghost use Rattle.compact.specs.Tidied.{Follows, DoesBeside};

use book::head::Head;
use book::row::Row;
use compact_pick::Plan;
use step::Tidied;
use wire::results;

pub mod step;

// Does the step that is due, which is the store's plan. Where there is none the result is 65, where there is no room for a merge 20, and
// nothing changes.
pub fn tidy(area: &mut [u8], cards: &mut [Row], lists: &mut [u16], head: Head, plan: Plan) -> Tidied
    requires { Follows (given_beside area.old cards.old lists.old head) plan }
    ensures { DoesBeside (held_beside area.old cards.old lists.old head) tidy_step (left_beside area cards lists result.head) result }
{
    match plan {
        Plan::Idle => Tidied {
            result: results::NOTHING_TO_DO,
            step: results::NO_STEP,
            level: 0,
            head,
        },
        Plan::Down(n, p) => step::take_down(area, cards, lists, head, n, p),
        Plan::Merge(n, p) => step::merge_or_refuse(area, cards, lists, head, n, p),
    }
}

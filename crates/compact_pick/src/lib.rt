// Plans a tidy: the due merge, or the level that is to be relieved and the table chosen there.
//
// The level is found by the lists' lengths, the due merge by the rows and, of tables with links, their entry counts: of those levels
// alone that can have one, which a run remembers from step to step. Nothing here changes the store.
#![tactic(auto)]

ghost use Rattle.std.specs.Prelude.{◌≡◌, []};
ghost use Rattle.ldc.specs.Store.{Store};
ghost use Rattle.book.specs.Head.{head_words};
ghost use Rattle.book.specs.Pieces.{held_beside};
ghost use Rattle.read.specs.Look.{Levels};
ghost use Rattle.compact_pick.specs.Calm.{CalmBut, calm_after};
ghost use Rattle.compact_pick.specs.Due.{ToldBy};
ghost use Rattle.compact_pick.specs.Plan.{plan_of};

use book::head::Head;
use book::limits::{LAST_LEVEL, LEVELS};
use book::list;
use book::row::Row;

mod choice;
mod due;
mod level;

// What is to be done: nothing, take a table of a level one level down, or merge a table of a level; level and place.
#[derive(Clone, Copy)]
pub enum Plan {
    Idle,
    Down(usize, usize),
    Merge(usize, usize),
}

// What is said of the level with due merges where nothing is known: any may have some.
pub const ANY_LEVEL: usize = LEVELS;

// The plan of a sound store. `suspect` is the one level that can have due merges, 0 where none can, or `ANY_LEVEL`.
pub fn make_plan(area: &[u8], cards: &[Row], lists: &[u16], head: Head, suspect: usize) -> Plan
    requires { Levels area.now cards.now lists.now (head_words head) }
    ensures { (s : Store) → ToldBy s (held_beside area.now cards.now lists.now head []) → CalmBut suspect s → result ≡ plan_of s }
{
    if let Some(table) = due::find_due(area, cards, lists, head, suspect) {
        return Plan::Merge(table.level, table.place);
    }
    let Some(n) = level::find_overfull(head) else {
        return Plan::Idle;
    };
    let items = list::items(lists, cards.len(), head.length_of(n), n);
    choice::choose(area, cards, items, head.mark_of(n), n)
}

// The level that can have due merges once a plan was followed: the next one down gained links, or was moved to; a merge leaves the others
// as they were.
pub fn due_after(plan: Plan, suspect: usize) -> usize
    ensures { result ≡ calm_after suspect plan }
{
    match plan {
        Plan::Idle => 0,
        Plan::Down(n, _) => { if n < LAST_LEVEL { n + 1 } else { ANY_LEVEL } }
        Plan::Merge(n, _) => { if suspect < LEVELS { n } else { ANY_LEVEL } }
    }
}

// Flush and tidy with their replies.
ghost use Rattle.std.specs.Prelude.{◌≡◌, ◌++◌};
ghost use Rattle.coding.specs.Number.{bytes_of};
ghost use Rattle.ldc.specs.Lent.{store_of};
ghost use Rattle.ldc.specs.Request.{flush_kind, tidy_kind, done_result, reply_bytes};
ghost use Rattle.ldc.specs.Place.{serve_flush};
ghost use Rattle.ldc.specs.Steps.{serve_tidy};
ghost use Rattle.book.specs.Pieces.{given, held, left, left_beside};
ghost use Rattle.compact_pick.specs.Calm.{CalmBut, calm_after};
ghost use Rattle.compact_pick.specs.Plan.{plan_of};
ghost use Rattle.read.specs.Shown.{Writable};
ghost use Rattle.serve_write.specs.Turn.{turn, turned};
ghost use Rattle.wire.specs.Reply.{Room, Wrote};

use book::head::Head;
use book::row::Row;
use wire::{kinds, reply, results};

// What serving gives: the head after it, the level that can have due merges then, and how many bytes the reply has.
#[derive(Clone, Copy)]
pub struct Turn {
    pub head: Head,
    pub suspect: usize,
    pub written: usize,
}

// Step and level in the reply to a tidy.
const STEP_BODY: usize = 4;

// Flushes and writes the reply. Level 0 has no due merges, so those of other levels are where they were.
pub fn flush_reply(
    area: &mut [u8],
    cards: &mut [Row],
    lists: &mut [u16],
    head: Head,
    suspect: usize,
    memory: &mut [u8],
    answer: &mut [u8],
    at: usize,
) -> Turn
    requires { Writable (given area.old cards.old lists.old head memory.old) × Room answer.old at }
    ensures { (turn (left area cards lists result.head memory) answer.new result.written
        ≡ turned flush_kind (serve_flush (store_of (held area.old cards.old lists.old head memory.old))) answer.old at)
        × (result.suspect ≡ suspect) }
{
    let done = flush::flush(area, cards, lists, head, memory);
    let after = done.head;
    Turn {
        head: after,
        suspect,
        written: reply::answer_bare(answer, at, kinds::FLUSH, done.result),
    }
}

// Writes the reply to a tidy that did something: step and level.
fn step_reply(answer: &mut [u8], at: usize, step: u16, level: u16) -> usize
    requires { Room answer.old at }
    ensures { Wrote answer at (reply_bytes tidy_kind done_result (bytes_of 2 step ++ bytes_of 2 level)) result }
{
    reply::write_head(answer, at, kinds::TIDY, results::DONE, STEP_BODY);
    reply::put_numbers(answer, at + reply::REPLY_HEAD, &[step, level]);
    reply::REPLY_HEAD + STEP_BODY
}

// Tidies and writes the reply: step and level behind the six bytes, where something was done. `suspect` is the level that can have due
// merges.
pub fn tidy_reply(
    area: &mut [u8],
    cards: &mut [Row],
    lists: &mut [u16],
    head: Head,
    suspect: usize,
    memory: &[u8],
    answer: &mut [u8],
    at: usize,
) -> Turn
    requires { Writable (given area.old cards.old lists.old head memory.now)
        × (Room answer.old at × CalmBut suspect (store_of (given area.old cards.old lists.old head memory.now))) }
    ensures { (turn (left_beside area cards lists result.head memory.now) answer.new result.written
        ≡ turned tidy_kind (serve_tidy (store_of (held area.old cards.old lists.old head memory.now))) answer.old at)
        × (result.suspect ≡ calm_after suspect (plan_of (store_of (held area.old cards.old lists.old head memory.now)))) }
{
    let plan = compact_pick::make_plan(area, cards, lists, head, suspect);
    let next = compact_pick::due_after(plan, suspect);
    let done = compact::tidy(area, cards, lists, head, plan);
    let after = done.head;
    if done.result != results::DONE {
        return Turn {
            head: after,
            suspect: next,
            written: reply::answer_bare(answer, at, kinds::TIDY, done.result),
        };
    }
    Turn {
        head: after,
        suspect: next,
        written: step_reply(answer, at, done.step, done.level),
    }
}

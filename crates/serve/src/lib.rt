// One request of a kept store: refused by its number, in the order of the numbers, or done, with its reply to the byte.
//
// The reply is written into the answer buffer from a position on; the caller has seen to room for the longest.
#![tactic(auto)]

ghost use Rattle.std.specs.Prelude.{◌≡◌};
ghost use Rattle.ldc.specs.Lent.{store_of};
ghost use Rattle.book.specs.Pieces.{given, held, left};
ghost use Rattle.compact_pick.specs.Calm.{CalmBut};
ghost use Rattle.read.specs.Shown.{Writable};
ghost use Rattle.serve_write.specs.Turn.{turn, turned_by, request, suspect_after};
ghost use Rattle.wire.specs.Reply.{Room};

use book::head::Head;
use book::row::Row;
use serve_read::{look_up, probe, report, scan};
use serve_write::steps::Turn;
use serve_write::{put, steps};
use wire::{body, kinds, reply, results};

// Serves one request of a kept store and writes its reply from a position on. `suspect` is the level that can have due merges.
pub fn serve(
    area: &mut [u8],
    cards: &mut [Row],
    lists: &mut [u16],
    head: Head,
    suspect: usize,
    memory: &mut [u8],
    kind: u16,
    body: &[u8],
    answer: &mut [u8],
    at: usize,
) -> Turn
    requires { Writable (given area.old cards.old lists.old head memory.old)
        × (Room answer.old at × CalmBut suspect (store_of (given area.old cards.old lists.old head memory.old))) }
    ensures { (turn (left area cards lists result.head memory) answer.new result.written
        ≡ turned_by (held area.old cards.old lists.old head memory.old) (request kind body.now) answer.old at)
        × (result.suspect ≡ suspect_after suspect (store_of (held area.old cards.old lists.old head memory.old)) (request kind body.now)) }
{
    if !body::is_good(kind, body.len()) {
        return Turn {
            head,
            suspect,
            written: reply::answer_bare(answer, at, kind, results::WRONG_LENGTH),
        };
    }
    match kind {
        kinds::PUT | kinds::DELETE => Turn {
            head,
            suspect,
            written: put::put(memory, kind, body, answer, at),
        },
        kinds::LOOK_UP => {
            let key = body::key_at(body, 0);
            Turn {
                head,
                suspect,
                written: look_up::look_up_reply(area, cards, lists, head, memory, key, answer, at),
            }
        }
        kinds::SCAN => {
            let low = body::key_at(body, 0);
            let high = body::key_at(body, body::KEY);
            Turn {
                head,
                suspect,
                written: scan::scan_reply(area, cards, lists, head, memory, low, high, answer, at),
            }
        }
        kinds::FLUSH => {
            steps::flush_reply(area, cards, lists, head, suspect, memory, answer, at)
        }
        kinds::TIDY => { steps::tidy_reply(area, cards, lists, head, suspect, memory, answer, at) }
        kinds::REPORT => Turn {
            head,
            suspect,
            written: report::report_reply(cards, head, memory, answer, at),
        },
        kinds::PROBE => {
            let key = body::key_at(body, 0);
            Turn {
                head,
                suspect,
                written: probe::probe_reply(area, cards, lists, head, memory, key, answer, at),
            }
        }
        kinds::NO_KIND | kinds::FIRST_UNKNOWN..=kinds::LAST_UNKNOWN => Turn {
            head,
            suspect,
            written: reply::answer_bare(answer, at, kind, results::UNKNOWN_KIND),
        },
    }
}

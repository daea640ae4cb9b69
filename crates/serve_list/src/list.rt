// Serving the requests of a list one after the other.
ghost use Rattle.std.specs.Prelude.{◌≡◌, true, length};
ghost use Rattle.ldc.specs.Lists.{is_some};
ghost use Rattle.ldc.specs.Lent.{store_of};
ghost use Rattle.ldc.specs.Run.{split, serve_all, accepted_run};
ghost use Rattle.book.specs.Pieces.{given, held, left};
ghost use Rattle.read.specs.Shown.{Writable};
ghost use Rattle.serve_list.specs.Ran.{ran, requests_of};

use super::request;
use book::head::Head;
use book::row::Row;
use table::entry;
use wire::reply;

// How far serving a list came: the head after it, how many requests were served, and how many bytes were written.
#[derive(Clone, Copy)]
pub struct Reached {
    pub head: Head,
    pub served: usize,
    pub written: usize,
}

// Serves the requests of a list in order, as long as there is room for the longest reply. At its start any level may have due merges; which
// one alone can have them then is remembered from request to request.
pub fn serve_all(
    area: &mut [u8],
    cards: &mut [Row],
    lists: &mut [u16],
    head: Head,
    memory: &mut [u8],
    list: &[u8],
    answer: &mut [u8],
) -> Reached
    requires { Writable (given area.old cards.old lists.old head memory.old)
        × (is_some (split list.now) ≡ true) }
    ensures { ran 0 result.served result.written (left area cards lists result.head memory) answer.new
        ≡ accepted_run
        (serve_all (length answer.old) (store_of (held area.old cards.old lists.old head memory.old)) (requests_of list.now))
        answer.old }
{
    let mut reached = head;
    let mut suspect = compact_pick::ANY_LEVEL;
    let mut at = 0;
    let mut served = 0;
    let mut written = 0;
    while at < list.len() {
        if answer.len() - written < reply::ROOM {
            return Reached {
                head: reached,
                served,
                written,
            };
        }
        let turn = request::serve_next(
            area, cards, lists, reached, suspect, memory, list, at, answer, written,
        );
        reached = turn.head;
        suspect = turn.suspect;
        written += turn.written;
        served += 1;
        at += entry::length_at(list, at) as usize;
    }
    Reached {
        head: reached,
        served,
        written,
    }
}

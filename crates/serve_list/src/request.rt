// The next request of a list, taken from its bytes and served.
ghost use Rattle.std.specs.Prelude.{◌≡◌, true};
ghost use Rattle.ldc.specs.Run.{request_at, whole_at};
ghost use Rattle.ldc.specs.Lent.{store_of};
ghost use Rattle.book.specs.Pieces.{given, held, left};
ghost use Rattle.compact_pick.specs.Calm.{CalmBut};
ghost use Rattle.read.specs.Shown.{Writable};
ghost use Rattle.serve_write.specs.Turn.{turn, turned_by, suspect_after};
ghost use Rattle.wire.specs.Reply.{Room};

use book::head::Head;
use book::row::Row;
use serve_write::steps::Turn;
use table::entry;
use wire::list;

// Serves the request that stands at a position of the list, and writes its reply.
pub fn serve_next(
    area: &mut [u8],
    cards: &mut [Row],
    lists: &mut [u16],
    head: Head,
    suspect: usize,
    memory: &mut [u8],
    list: &[u8],
    at: usize,
    answer: &mut [u8],
    written: usize,
) -> Turn
    requires { Writable (given area.old cards.old lists.old head memory.old)
        × ((whole_at list.now at ≡ true)
        × (Room answer.old written × CalmBut suspect (store_of (given area.old cards.old lists.old head memory.old)))) }
    ensures { (turn (left area cards lists result.head memory) answer.new result.written
        ≡ turned_by (held area.old cards.old lists.old head memory.old) (request_at list.now at) answer.old written)
        × (result.suspect ≡ suspect_after suspect (store_of (held area.old cards.old lists.old head memory.old)) (request_at list.now at)) }
{
    let kind = entry::kind_at(list, at);
    let start = at + list::REQUEST_HEAD;
    let end = at + entry::length_at(list, at) as usize;
    serve::serve(
        area,
        cards,
        lists,
        head,
        suspect,
        memory,
        kind,
        &list[start..end],
        answer,
        written,
    )
}

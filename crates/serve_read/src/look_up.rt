// Look-up: the reply gives the value of the entry that decides.
ghost use Rattle.std.specs.Prelude.{◌≡◌, length};
ghost use Rattle.table.specs.Limits.{place_size};
ghost use Rattle.table.specs.Entry.{entry_at};
ghost use Rattle.table.specs.Table.{Seated};
ghost use Rattle.ldc.specs.Lent.{store_of};
ghost use Rattle.ldc.specs.Request.{look_up_kind};
ghost use Rattle.ldc.specs.Read.{serve_look_up};
ghost use Rattle.book.specs.Pieces.{given, held};
ghost use Rattle.read.specs.Shown.{Readable};
ghost use Rattle.wire.specs.Reply.{replied, Room, Wrote};
ghost use Rattle.serve_read.specs.Value.{value_reply};

use book::head::Head;
use book::place::bytes_of;
use book::row::Row;
use coding::key::Key;
use read::found::Spot;
use table::{entry, limits};
use table_builder::place;
use wire::{kinds, reply, results};

// Writes the reply where the deciding entry stands at a position of a table.
fn value_reply(s: &[u8], from: usize, answer: &mut [u8], at: usize) -> usize
    requires { (length s.now ≡ place_size) × (Seated s.now from × Room answer.old at) }
    ensures { Wrote answer at (value_reply (entry_at s.now from).value) result }
{
    if entry::kind_at(s, from) == limits::DELETE_MARK {
        reply::write_head(answer, at, kinds::LOOK_UP, results::NO_VALUE, 0);
        return reply::REPLY_HEAD;
    }
    let start = from + limits::ENTRY_HEAD;
    let end = from + entry::length_at(s, from) as usize;
    reply::write_head(answer, at, kinds::LOOK_UP, results::DONE, end - start);
    place::copy(answer, at + reply::REPLY_HEAD, &s[start..end]);
    reply::REPLY_HEAD + (end - start)
}

// Writes the reply to a look-up from `at` on, and gives its length.
pub fn look_up_reply(
    area: &[u8],
    cards: &[Row],
    lists: &[u16],
    head: Head,
    memory: &[u8],
    key: Key,
    answer: &mut [u8],
    at: usize,
) -> usize
    requires { Readable (given area.now cards.now lists.now head memory.now) × Room answer.old at }
    ensures { Wrote answer at (replied look_up_kind (serve_look_up (store_of (held area.now cards.now lists.now head memory.now)) key.value)) result }
{
    let spot = read_get::look_up(area, cards, lists, head, memory, key);
    match spot {
        Some(Spot::Memory(from)) => value_reply(memory, from, answer, at),
        Some(Spot::Place(p, from)) => value_reply(bytes_of(area, p), from, answer, at),
        None => {
            reply::write_head(answer, at, kinds::LOOK_UP, results::NO_VALUE, 0);
            reply::REPLY_HEAD
        }
    }
}

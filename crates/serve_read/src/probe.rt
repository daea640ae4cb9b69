// Probe: the reply tells whether a look-up gives a value, how many tables it opened, the bits set in their summaries, and the value.
ghost use Rattle.std.specs.Prelude.{◌≡◌, ◌+◌, ◌≤◌, length};
ghost use Rattle.std.proofs.Math.Option.{none};
ghost use Rattle.std.proofs.lemmas.List.Edits.{sets};
ghost use Rattle.table.specs.Limits.{place_size};
ghost use Rattle.table.specs.Entry.{entry_at};
ghost use Rattle.table.specs.Table.{Seated};
ghost use Rattle.ldc.specs.Request.{probe_kind, done_result, reply_bytes};
ghost use Rattle.ldc.specs.Lent.{store_of};
ghost use Rattle.ldc.specs.Probe.{probe_body, serve_probe};
ghost use Rattle.book.specs.Pieces.{given, held};
ghost use Rattle.read.specs.Shown.{Readable};
ghost use Rattle.wire.specs.Reply.{replied, Room, Wrote};
ghost use Rattle.serve_read.specs.Value.{count_bytes};

use book::head::Head;
use book::place::bytes_of;
use book::row::Row;
use coding::key::Key;
use coding::number;
use read::found::Spot;
use table::{entry, limits};
use table_builder::place;
use wire::{kinds, reply, results};

// The bytes of a reply's body before the value: found, tables opened, bits set.
const COUNTS: usize = 8;

// Writes these three.
fn write_counts(answer: &mut [u8], at: usize, found: u16, tables: u16, bits: u32)
    requires { at + 8 ≤ length answer.old }
    ensures { answer.new ≡ sets answer.old at (count_bytes found tables bits) }
{
    number::put_u16(answer, at, found);
    number::put_u16(answer, at + 2, tables);
    number::put_u32(answer, at + 4, bits);
}

// Writes the reply where there is no value.
fn missed_reply(tables: u16, bits: u32, answer: &mut [u8], at: usize) -> usize
    requires { Room answer.old at }
    ensures { Wrote answer at (reply_bytes probe_kind done_result (probe_body none tables bits)) result }
{
    reply::write_head(answer, at, kinds::PROBE, results::DONE, COUNTS);
    write_counts(answer, at + reply::REPLY_HEAD, 0, tables, bits);
    reply::REPLY_HEAD + COUNTS
}

// Writes the reply where the deciding entry stands at a position of a table.
fn decided_reply(
    s: &[u8],
    from: usize,
    tables: u16,
    bits: u32,
    answer: &mut [u8],
    at: usize,
) -> usize
    requires { (length s.now ≡ place_size) × (Seated s.now from × Room answer.old at) }
    ensures { Wrote answer at (reply_bytes probe_kind done_result (probe_body (entry_at s.now from).value tables bits)) result }
{
    if entry::kind_at(s, from) == limits::DELETE_MARK {
        return missed_reply(tables, bits, answer, at);
    }
    let start = from + limits::ENTRY_HEAD;
    let end = from + entry::length_at(s, from) as usize;
    reply::write_head(
        answer,
        at,
        kinds::PROBE,
        results::DONE,
        COUNTS + (end - start),
    );
    write_counts(answer, at + reply::REPLY_HEAD, 1, tables, bits);
    place::copy(answer, at + (reply::REPLY_HEAD + COUNTS), &s[start..end]);
    reply::REPLY_HEAD + COUNTS + (end - start)
}

// Writes the reply to a probe from `at` on, and gives its length.
pub fn probe_reply(
    area: &[u8],
    cards: &[Row],
    lists: &[u16],
    head: Head,
    memory: &[u8],
    key: Key,
    answer: &mut [u8],
    at: usize,
) -> usize
    requires { Readable (given area.now cards.now lists.now head memory.now) × Room answer.old at }
    ensures { Wrote answer at (replied probe_kind (serve_probe (store_of (held area.now cards.now lists.now head memory.now)) key.value)) result }
{
    let told = read_get::probe(area, cards, lists, head, memory, key);
    let tables = told.tables as u16;
    let bits = told.bits as u32;
    let spot = told.spot;
    match spot {
        Some(Spot::Memory(from)) => decided_reply(memory, from, tables, bits, answer, at),
        Some(Spot::Place(p, from)) => decided_reply(
            bytes_of(area, p),
            from,
            tables,
            bits,
            answer,
            at,
        ),
        None => missed_reply(tables, bits, answer, at),
    }
}

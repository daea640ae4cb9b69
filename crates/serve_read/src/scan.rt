// Scan: the first 16 or fewer values of a range, keys rising, and whether a further one exists.
ghost use Rattle.std.specs.Prelude.{◌++◌, map, ◌+◌, ◌*◌, ◌≤◌, length, take};
ghost use Rattle.table.specs.Entry.{entry_at};
ghost use Rattle.table.specs.Limits.{entry_limit};
ghost use Rattle.ldc.specs.Lent.{store_of};
ghost use Rattle.ldc.specs.Request.{scan_kind};
ghost use Rattle.ldc.specs.Read.{scan_limit, serve_scan};
ghost use Rattle.book.specs.Pieces.{given, held};
ghost use Rattle.read.specs.Shown.{Readable};
ghost use Rattle.read_gather.specs.Gathered.{AllSeated};
ghost use Rattle.read_iterator.specs.Spots.{Whole};
ghost use Rattle.wire.specs.Reply.{replied, Room, Wrote};
ghost use Rattle.serve_read.specs.Scan.{Fills};

use book::head::Head;
use book::row::Row;
use coding::key::Key;
use read_iterator::spot;
use wire::{kinds, reply, results};

// A scan gives at most so many values.
const SCAN_LIMIT: usize = 16;

// Room for these, and for the one that says whether there are more.
const SCAN_ROOM: usize = SCAN_LIMIT + 1;

// The bytes of a scan's reply before its entries: the reply's head, count and more.
const SCAN_HEAD: usize = reply::REPLY_HEAD + 4;

// Copies the entries at the first n spots into the answer from `start` on; where they end.
fn copy_values(
    area: &[u8],
    memory: &[u8],
    spots: &[u64],
    n: usize,
    answer: &mut [u8],
    start: usize,
) -> usize
    requires { Whole area.now memory.now
        × (AllSeated (area.now ++ memory.now) (take n spots.now)
        × ((n ≤ length spots.now) × ((n ≤ scan_limit) × (start + scan_limit * entry_limit ≤ length answer.old)))) }
    ensures { Fills (map (entry_at (area.now ++ memory.now)) (take n spots.now))
        start answer.old answer.new result }
{
    let mut end = start;
    for &at in &spots[..n] {
        end += spot::copy_entry(area, memory, at as usize, answer, end);
    }
    end
}

// Writes the reply to a scan from `at` on, and gives its length.
pub fn scan_reply(
    area: &[u8],
    cards: &[Row],
    lists: &[u16],
    head: Head,
    memory: &[u8],
    low: Key,
    high: Key,
    answer: &mut [u8],
    at: usize,
) -> usize
    requires { Readable (given area.now cards.now lists.now head memory.now) × Room answer.old at }
    ensures { Wrote answer at
        (replied scan_kind (serve_scan (store_of (held area.now cards.now lists.now head memory.now)) low.value high.value)) result }
{
    if high.value < low.value {
        reply::write_head(answer, at, kinds::SCAN, results::BAD_RANGE, 0);
        return reply::REPLY_HEAD;
    }
    let mut keys = [0u64; SCAN_ROOM];
    let mut spots = [0u64; SCAN_ROOM];
    let found = read_iterator::next_values(
        area,
        cards,
        lists,
        head,
        memory,
        low,
        high,
        &mut keys[..],
        &mut spots[..],
    );
    let count = found.min(SCAN_LIMIT);
    let end = copy_values(area, memory, &spots[..], count, answer, at + SCAN_HEAD);
    let numbers = [count as u16, u16::from(SCAN_LIMIT < found)];
    reply::put_numbers(answer, at + reply::REPLY_HEAD, &numbers);
    reply::write_head(
        answer,
        at,
        kinds::SCAN,
        results::DONE,
        end - (at + reply::REPLY_HEAD),
    );
    end - at
}

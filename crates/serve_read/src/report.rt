// Report: eight counts of the book and the memory table.
ghost use Rattle.std.specs.Prelude.{◌≡◌, [], ℕ, ◌≤◌, ◌<◌, length, get_or};
ghost use Rattle.ldc.specs.Layout.{most_places, link_limit, link_count};
ghost use Rattle.book.specs.Head.{head_words};
ghost use Rattle.wire.specs.Reply.{Room, Wrote};
ghost use Rattle.serve_read.specs.Tally.{free_in, frozen_in, links_counted, report_reply, Counts};

use book::head::Head;
use book::row;
use book::row::Row;
use table::search;
use wire::{kinds, reply, results};

// Eight numbers of two bytes.
const REPORT_BODY: usize = 16;

// Counts over all cards.
#[derive(Clone, Copy)]
pub struct Tally {
    pub free: usize,
    pub frozen: usize,
    pub links: usize,
}

// Counts free and frozen places, and links.
fn count_cards(cards: &[Row]) -> Tally
    requires { (length cards.now ≤ most_places)
        × ((p : ℕ) → p < length cards.now → link_count (get_or cards.now p []) ≤ link_limit) }
    ensures { (result.free ≡ free_in cards.now)
        × ((result.frozen ≡ frozen_in cards.now) × (result.links ≡ links_counted cards.now)) }
{
    let mut free = 0;
    let mut frozen = 0;
    let mut links = 0;
    for row in cards {
        free += usize::from(row::is_free(row));
        frozen += usize::from(row::is_frozen(row));
        links += row::link_count(row) as usize;
    }
    Tally {
        free,
        frozen,
        links,
    }
}

// Writes the reply to a report: free, live on levels 0 to 3, frozen, links, memory entries.
pub fn report_reply(cards: &[Row], head: Head, memory: &[u8], answer: &mut [u8], at: usize) -> usize
    requires { Counts cards.now (head_words head) memory.now × Room answer.old at }
    ensures { Wrote answer at (report_reply cards.now (head_words head) memory.now) result }
{
    let tally = count_cards(cards);
    let counts = [
        tally.free as u16,
        head.length0 as u16,
        head.length1 as u16,
        head.length2 as u16,
        head.length3 as u16,
        tally.frozen as u16,
        tally.links as u16,
        search::count(memory) as u16,
    ];
    reply::write_head(answer, at, kinds::REPORT, results::DONE, REPORT_BODY);
    reply::put_numbers(answer, at + reply::REPLY_HEAD, &counts);
    reply::REPLY_HEAD + REPORT_BODY
}

// A history: a store made over lent memory, and runs performed on it one after the other. The contract is demand 3, of what memory and answers
// then hold.
#![tactic(auto)]

ghost use Rattle.std.specs.Prelude.{◌≤◌, ◌≡◌, true, length};
ghost use Rattle.book.specs.Pieces.{after, before};
ghost use Rattle.history_lists.specs.Pieces.{pieces_before, pieces_after, ready, AllReady};
ghost use Rattle.history_lists.specs.Performs.{RanOne, Ran, Performs};
ghost use Rattle.std.specs.Result.{result_unwrap_or};
ghost use Rattle.wire.specs.Refusal.{number_of};

use book::head::HeadWords;
use book::row::Row;
use table::limits::PlaceBytes;
use wire::refusal::Refusal;

// Performs run k, and notes how many requests it served.
fn run_one(
    area: &mut [u8],
    cards: &mut [Row],
    lists: &mut [u16],
    head: &mut HeadWords,
    memory: &mut PlaceBytes,
    input: &[u8],
    ends: &[usize],
    answers: &mut [u8],
    stops: &[usize],
    served: &mut [usize],
    k: usize,
)
    requires { ready (length input.now) ends.now (length answers.old) stops.now (length served.old) k ≡ true }
    ensures { RanOne (before area.old cards.old lists.old head.old memory.old) (pieces_before input ends answers stops served) k
        (after area cards lists head memory) (pieces_after input ends answers stops served) }
{
    let from = history_lists::start(ends, k);
    let end = ends[k];
    let first = history_lists::start(stops, k);
    let stop = stops[k];
    let done = store_run::run(
        area,
        cards,
        lists,
        head,
        memory,
        &input[from..end],
        &mut answers[first..stop],
    );
    served[k] = store_run::Ran::of(&done).served;
}

// Performs the runs from `from` on, up to n in all, one after the other.
pub fn run_all(
    area: &mut [u8],
    cards: &mut [Row],
    lists: &mut [u16],
    head: &mut HeadWords,
    memory: &mut PlaceBytes,
    input: &[u8],
    ends: &[usize],
    answers: &mut [u8],
    stops: &[usize],
    served: &mut [usize],
    from: usize,
    n: usize,
)
    requires { (from ≤ n) × AllReady (length input.now) ends.now (length answers.old) stops.now (length served.old) n }
    ensures { Ran (before area.old cards.old lists.old head.old memory.old) (pieces_before input ends answers stops served) from n
        (after area cards lists head memory) (pieces_after input ends answers stops served) }
{
    for k in from..n {
        run_one(
            area, cards, lists, head, memory, input, ends, answers, stops, served, k,
        );
    }
}

// Makes a store with this threshold over whatever is lent, and performs one run for each k: its request list is the part of `input` from the end
// of the list before to ends[k], its answer buffer the part of `answers` from the stop of the buffer before to stops[k], and how many requests it
// served is noted in served[k]. Where an end or a stop is missing, falls, or lies beyond the bytes, or there is no room for the number, the
// history ends. It gives how many runs were performed. Demand 3 holds of what memory and answers then hold.
pub fn perform(
    area: &mut [u8],
    cards: &mut [Row],
    lists: &mut [u16],
    head: &mut HeadWords,
    memory: &mut PlaceBytes,
    threshold: u64,
    input: &[u8],
    ends: &[usize],
    answers: &mut [u8],
    stops: &[usize],
    served: &mut [usize],
) -> Result<usize, Refusal>
    ensures { Performs (before area.old cards.old lists.old head.old memory.old) threshold (pieces_before input ends answers stops served)
        (number_of result) (result_unwrap_or result 0)
        (after area cards lists head memory) (pieces_after input ends answers stops served) }
{
    store_make::make(area, cards, lists, head, memory, threshold)?;
    let n = history_lists::runs(input.len(), ends, answers.len(), stops, served.len());
    run_all(
        area, cards, lists, head, memory, input, ends, answers, stops, served, 0, n,
    );
    Ok(n)
}

// A history with an opening in it: a store over the first places of what is lent is saved, opened over all places, and goes on there. The contract
// is demand 3 of all of it.
#![tactic(auto)]

ghost use Rattle.std.specs.Prelude.{◌≤◌, min, ◌≡◌, length};
ghost use Rattle.ldc.specs.Layout.{most_places};
ghost use Rattle.book.specs.Pieces.{after, before};
ghost use Rattle.saved_book.specs.Calls.{longest_book};
ghost use Rattle.history_lists.specs.Pieces.{pieces_before, pieces_after, AllReady};
ghost use Rattle.history_grown.specs.Grown.{Handed, handed, grown_number, RanSaved, PerformsGrown};
ghost use Rattle.std.specs.Result.{result_unwrap_or};
ghost use Rattle.wire.specs.Refusal.{number_of};

use book::head::HeadWords;
use book::limits::{FEWEST_PLACES, LEAST_THRESHOLD, LEVELS, LINK_LIMIT};
use book::row::Row;
use book::sizes;
use saved_form::layout;
use store_save::{open, save};
use table::limits::{ENTRY_LIMIT, PLACE_SIZE, PlaceBytes, TABLE_LIMIT};
use wire::refusal::Refusal;

// A buffer of so many bytes has room for every saved book of so many places.
fn longest(places: usize) -> usize
    requires { places ≤ most_places }
    ensures { result ≡ longest_book places }
{
    let cards = places * (layout::CARD_HEAD + layout::LINK * LINK_LIMIT);
    let lists = LEVELS * layout::NUMBER + layout::NUMBER * places;
    layout::CARDS + (cards + (lists + (layout::NUMBER + TABLE_LIMIT * ENTRY_LIMIT)))
}

// Is the call refused? Of the pieces only the sizes matter.
fn admit(
    area: usize,
    cards: usize,
    lists: usize,
    threshold: u64,
    first: usize,
    buffer: usize,
    working: usize,
) -> Result<(), Refusal>
    ensures { (h : Handed) → length h.lent.area ≡ area → length h.lent.cards ≡ cards → length h.lent.lists ≡ lists
        → length h.buffer ≡ buffer → length h.working ≡ working → number_of result ≡ grown_number h threshold first }
{
    if !(sizes::sizes(area, cards, lists)
        & ((working == cards) & ((FEWEST_PLACES <= first) & (first <= cards))))
    {
        return Err(Refusal::WrongSizes);
    }
    if !((LEAST_THRESHOLD <= threshold) & (threshold <= LINK_LIMIT as u64)) {
        return Err(Refusal::BadThreshold);
    }
    if buffer < longest(first) {
        return Err(Refusal::ShortAnswer);
    }
    Ok(())
}

// Makes a store, performs the first n runs on it, and saves it. Returns the saved length.
fn run_and_save(
    area: &mut [u8],
    cards: &mut [Row],
    lists: &mut [u16],
    head: &mut HeadWords,
    memory: &mut PlaceBytes,
    threshold: u64,
    input: &[u8],
    ends: &[usize],
    answers: &mut [u8],
    stops: &[usize],
    served: &mut [usize],
    n: usize,
    buffer: &mut [u8],
) -> usize
    requires { AllReady (length input.now) ends.now (length answers.old) stops.now (length served.old) n }
    ensures { RanSaved (before area.old cards.old lists.old head.old memory.old) threshold (pieces_before input ends answers stops served) n
        buffer.old result
        (after area cards lists head memory) (pieces_after input ends answers stops served) buffer.new }
{
    // `admit` has asked all that these calls ask: none of them is refused.
    let _ = store_make::make(area, cards, lists, head, memory, threshold);
    history::run_all(
        area, cards, lists, head, memory, input, ends, answers, stops, served, 0, n,
    );
    save::save(area, cards, lists, head, memory, buffer).unwrap_or(0)
}

// Makes a store with this threshold over the first places of what is lent, so many as `first` says, and performs runs on it, as many as `earlier`
// says or all there are; saves it into the buffer, opens the book over all places, and performs the other runs there. Lists, answer buffers and
// numbers are those of `perform`. Refused with nothing changed: by 1 if the sizes are wrong, working rows are not as many as cards, or the first
// places are not 16 to all; by 2 if the threshold is none; by 3 if the buffer has not room for every book of the first places. Nothing is refused on
// the way, and demand 3 holds of what memory and answers then hold.
pub fn perform_grown(
    area: &mut [u8],
    cards: &mut [Row],
    lists: &mut [u16],
    head: &mut HeadWords,
    memory: &mut PlaceBytes,
    threshold: u64,
    first: usize,
    earlier: usize,
    buffer: &mut [u8],
    working: &mut [Row],
    input: &[u8],
    ends: &[usize],
    answers: &mut [u8],
    stops: &[usize],
    served: &mut [usize],
) -> Result<usize, Refusal>
    ensures { PerformsGrown
        (handed (before area.old cards.old lists.old head.old memory.old) (pieces_before input ends answers stops served) buffer.old working.old)
        threshold first earlier (number_of result) (result_unwrap_or result 0)
        (handed (after area cards lists head memory) (pieces_after input ends answers stops served) buffer.new working.new) }
{
    admit(
        area.len(),
        cards.len(),
        lists.len(),
        threshold,
        first,
        buffer.len(),
        working.len(),
    )?;
    let n = history_lists::runs(input.len(), ends, answers.len(), stops, served.len());
    let mid = earlier.min(n);
    let written = run_and_save(
        &mut area[..first * PLACE_SIZE],
        &mut cards[..first],
        &mut lists[..LEVELS * first],
        head,
        memory,
        threshold,
        input,
        ends,
        answers,
        stops,
        served,
        mid,
        buffer,
    );
    // Nor is this one.
    let _ = open::open(
        area,
        cards,
        lists,
        head,
        memory,
        &buffer[..written],
        working,
    );
    history::run_all(
        area, cards, lists, head, memory, input, ends, answers, stops, served, mid, n,
    );
    Ok(n)
}

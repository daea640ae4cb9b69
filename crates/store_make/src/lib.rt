// Making a store in lent memory: refused with nothing changed, or all places free and all lists empty.
#![tactic(auto)]

ghost use Rattle.std.specs.Prelude.{◌≡◌};
ghost use Rattle.ldc.specs.Run.{make};
ghost use Rattle.book.specs.Made.{made, all_free};
ghost use Rattle.wire.specs.Refusal.{number_of};
ghost use Rattle.book.specs.Pieces.{after, before};

use book::head::HeadWords;
use book::limits::{LEAST_THRESHOLD, LINK_LIMIT};
use book::row::Row;
use book::{row, sizes};
use table::limits::PlaceBytes;
use table_builder::place;
use wire::refusal::Refusal;

// Makes all places free.
fn free_all(cards: &mut [Row])
    ensures { cards.new ≡ all_free cards.old }
{
    for p in 0..cards.len() {
        row::free(cards, p);
    }
}

// Makes a new store, unless the sizes are wrong or the threshold is not one.
pub fn make(
    area: &mut [u8],
    cards: &mut [Row],
    lists: &mut [u16],
    head: &mut HeadWords,
    memory: &mut PlaceBytes,
    threshold: u64,
) -> Result<(), Refusal>
    ensures { made (number_of result) (after area cards lists head memory)
        ≡ make (before area.old cards.old lists.old head.old memory.old) threshold }
{
    if !sizes::sizes(area.len(), cards.len(), lists.len()) {
        return Err(Refusal::WrongSizes);
    }
    if !((LEAST_THRESHOLD <= threshold) & (threshold <= LINK_LIMIT as u64)) {
        return Err(Refusal::BadThreshold);
    }
    free_all(cards);
    lists.fill(0);
    *head = [threshold, 0, 0, 0, 0, 0, 0, 0, 0, 0];
    place::clear(memory);
    Ok(())
}

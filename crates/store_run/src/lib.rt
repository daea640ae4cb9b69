// Running a list of requests over lent memory: refused, or served.
#![tactic(auto)]

ghost use Rattle.std.specs.Prelude.{◌≡◌, length};
ghost use Rattle.ldc.specs.Run.{run, letter_of};
ghost use Rattle.ldc.specs.Lent.{Lent};
ghost use Rattle.book.specs.Pieces.{after, before};
ghost use Rattle.serve_list.specs.Ran.{ran};
ghost use Rattle.wire.specs.Refusal.{number_of, letter_in};
ghost use Rattle.store_run.specs.Early.{early_number};
ghost use Rattle.store_run.specs.Ran.{ran_in};

use book::head::HeadWords;
use book::row::Row;
use book::{head, sizes};
use table::limits::PlaceBytes;
use wire::refusal::Refusal;
use wire::{list, reply};

// What a run that was accepted gives: how many requests were served, and how many bytes of answers were written.
#[derive(Clone, Copy)]
pub struct Ran {
    pub served: usize,
    pub written: usize,
}

impl Ran {
    // What a run gave: one that was refused has served and written nothing.
    pub fn of(ended: &Result<Ran, Refusal>) -> Ran
        ensures { result ≡ ran_in ended.now }
    {
        ended.unwrap_or(Ran {
            served: 0,
            written: 0,
        })
    }
}

// Is a run refused before the store is looked at? By 1, 3 or 4, in this order. Of area, cards, lists and answer only the lengths matter.
pub fn admit(
    area: usize,
    cards: usize,
    lists: usize,
    answer: usize,
    list: &[u8],
) -> Result<(), Refusal>
    ensures number { (m : Lent) → length m.area ≡ area → length m.cards ≡ cards → length m.lists ≡ lists
        → number_of result ≡ early_number m answer list.now }
    ensures letter { letter_in result ≡ 0 }
{
    if !sizes::sizes(area, cards, lists) {
        return Err(Refusal::WrongSizes);
    }
    if answer < reply::ROOM {
        return Err(Refusal::ShortAnswer);
    }
    if !list::is_list(list) {
        return Err(Refusal::BrokenList);
    }
    Ok(())
}

// Runs a list of requests over whatever is lent: refused with 1, 3, 4 or 5, in this order, nothing changed and nothing written; otherwise served
// in order. Bytes of the answer beyond those written are untouched.
pub fn run(
    area: &mut [u8],
    cards: &mut [Row],
    lists: &mut [u16],
    head: &mut HeadWords,
    memory: &mut PlaceBytes,
    list: &[u8],
    answer: &mut [u8],
) -> Result<Ran, Refusal>
    ensures { (ran (number_of result) (ran_in result).served (ran_in result).written (after area cards lists head memory) answer.new
        ≡ run (before area.old cards.old lists.old head.old memory.old) list.now answer.old)
        × (letter_in result ≡ letter_of (before area.old cards.old lists.old head.old memory.old) (number_of result)) }
{
    admit(area.len(), cards.len(), lists.len(), answer.len(), list)?;
    check_store::check(area, cards, lists, head, memory)?;
    let done = serve_list::list::serve_all(
        area,
        cards,
        lists,
        head::read(*head),
        memory,
        list,
        answer,
    );
    let after = done.head;
    after.write(head);
    Ok(Ran {
        served: done.served,
        written: done.written,
    })
}

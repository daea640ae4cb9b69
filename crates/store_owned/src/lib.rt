// The store of a program that holds its cards by value: who calls these functions lends no slice of structs.
#![tactic(auto)]

ghost use Rattle.std.specs.Prelude.{◌≡◌};
ghost use Rattle.ldc.specs.Run.{run, letter_of};
ghost use Rattle.book.specs.Made.{made};
ghost use Rattle.book.specs.Pieces.{after, before};
ghost use Rattle.serve_list.specs.Ran.{ran};
ghost use Rattle.store_cards.specs.Card.{rows_of};
ghost use Rattle.store_structs.specs.Over.{make_over, run_over, Left, before_with, after_with};
ghost use Rattle.wire.specs.Refusal.{number_of, letter_in};
ghost use Rattle.store_run.specs.Ran.{ran_in};

use book::head::HeadWords;
use book::row::Row;
use store_cards::Card;
use store_run::Ran;
use table::limits::PlaceBytes;
use wire::refusal::Refusal;

// So many places, and cards of them.
pub const PLACES: usize = 32;

// What making a store gives: whether it was refused, and the cards.
#[derive(Clone, Copy)]
pub struct Started {
    pub made: Result<(), Refusal>,
    pub cards: [Card; PLACES],
}

// What a run gives: what it returns, and the cards.
#[derive(Clone, Copy)]
pub struct Continued {
    pub ran: Result<Ran, Refusal>,
    pub cards: [Card; PLACES],
}

// Makes a new store. Refused, by 1 or 2, it changes nothing, no working row either.
pub fn start(
    area: &mut [u8],
    cards: [Card; PLACES],
    rows: &mut [Row],
    lists: &mut [u16],
    head: &mut HeadWords,
    memory: &mut PlaceBytes,
    threshold: u64,
) -> Started
    ensures { (made (number_of result.made) (after_with area result.cards lists head memory)
        ≡ make_over rows.old (before_with area cards lists head memory) threshold)
        × Left (number_of result.made) rows.old rows.new cards result.cards }
{
    let mut mine = cards;
    let made = store_structs::make(area, &mut mine, rows, lists, head, memory, threshold);
    Started { made, cards: mine }
}

// Runs a list of requests. Refused, it changes nothing of the store; with 1, 3 and 4 no working row either, and with 5 they become the cards' words.
pub fn serve(
    area: &mut [u8],
    cards: [Card; PLACES],
    rows: &mut [Row],
    lists: &mut [u16],
    head: &mut HeadWords,
    memory: &mut PlaceBytes,
    list: &[u8],
    answer: &mut [u8],
) -> Continued
    ensures { (ran (number_of result.ran) (ran_in result.ran).served (ran_in result.ran).written
        (after_with area result.cards lists head memory) answer.new
        ≡ run_over rows.old (before_with area cards lists head memory) list.now answer.old)
        × ((letter_in result.ran ≡ letter_of (before_with area cards lists head memory) (number_of result.ran))
        × Left (number_of result.ran) rows.old rows.new cards result.cards) }
{
    let mut mine = cards;
    let ran = store_structs::run(area, &mut mine, rows, lists, head, memory, list, answer);
    Continued { ran, cards: mine }
}

// The same where the working rows are the cards' words already, as `start` leaves them where it accepts, and each run after it: then it says
// what the run over rows says.
pub fn go_on(
    area: &mut [u8],
    cards: [Card; PLACES],
    rows: &mut [Row],
    lists: &mut [u16],
    head: &mut HeadWords,
    memory: &mut PlaceBytes,
    list: &[u8],
    answer: &mut [u8],
) -> Continued
    requires { rows.old ≡ rows_of cards }
    ensures { ((ran (number_of result.ran) (ran_in result.ran).served (ran_in result.ran).written (after area rows lists head memory) answer.new
        ≡ run (before area.old rows.old lists.old head.old memory.old) list.now answer.old)
        × (letter_in result.ran ≡ letter_of (before area.old rows.old lists.old head.old memory.old) (number_of result.ran)))
        × (rows.new ≡ rows_of result.cards) }
{
    serve(area, cards, rows, lists, head, memory, list, answer)
}

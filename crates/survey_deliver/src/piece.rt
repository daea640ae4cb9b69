// The next piece of the answers of a list. No writer is in it, and its contract leaves nothing open.
ghost use Rattle.std.specs.Prelude.{◌≡◌, ◌≤◌, length};
ghost use Rattle.ldc.specs.Run.{room_limit};
ghost use Rattle.book.specs.Pieces.{lent, after};
ghost use Rattle.store_cards.specs.Card.{rows_of};
ghost use Rattle.survey_deliver.specs.Whole.{Reached, Next};
ghost use Rattle.wire.specs.Refusal.{number_of};
ghost use Rattle.store_run.specs.Ran.{ran_in};

use super::skip;
use book::head::HeadWords;
use book::row::Row;
use store_cards::Card;
use store_owned::PLACES;
use store_run::Ran;
use table::limits::PlaceBytes;
use wire::refusal::Refusal;

// How far a list is served: so many requests, which take so many of its bytes, and whose answers are so many bytes.
#[derive(Clone, Copy)]
pub struct Progress {
    pub served: usize,
    pub at: usize,
    pub written: usize,
}

// The next piece: what its run gave, whose bytes stand at the buffer's front, the cards after it, and how far the list is then served.
#[derive(Clone, Copy)]
pub struct NextPiece {
    pub ran: Result<Ran, Refusal>,
    pub cards: [Card; PLACES],
    pub progress: Progress,
}

// Runs the rest of a list over the store, as far as the buffer takes the answers. A broken list is refused: then nothing is served or changed.
pub fn next_piece(
    area: &mut [u8],
    cards: [Card; PLACES],
    rows: &mut [Row],
    lists: &mut [u16],
    head: &mut HeadWords,
    memory: &mut PlaceBytes,
    list: &[u8],
    from: Progress,
    answer: &mut [u8],
) -> NextPiece
    requires { Reached list.now (lent area.old rows.old lists.old head.old memory.old) from
        × ((room_limit ≤ length answer.old) × (rows.old ≡ rows_of cards)) }
    ensures { Next list.now from answer.old (after area rows lists head memory) answer.new
        (number_of result.ran) (ran_in result.ran).written result.progress
        × (rows.new ≡ rows_of result.cards) }
{
    let at = from.at;
    let rest = &list[at..];
    let turn = store_owned::go_on(area, cards, rows, lists, head, memory, rest, answer);
    let ran = Ran::of(&turn.ran);
    NextPiece {
        ran: turn.ran,
        cards: turn.cards,
        progress: Progress {
            served: from.served + ran.served,
            at: at + skip::skip(rest, ran.served),
            written: from.written + ran.written,
        },
    }
}

// Running a list to its end, however little room for answers there is: one piece of the answers after the other is made and written.
ghost use Rattle.std.specs.Prelude.{◌≡◌, false, OnOk};
ghost use Rattle.std.specs.Io.KnownBytes.{Appends};
ghost use Rattle.ldc.specs.Lent.{lent_of};
ghost use Rattle.book.specs.Pieces.{lent, after};
ghost use Rattle.store_cards.specs.Card.{rows_of};
ghost use Rattle.survey_deliver.specs.Ended.{number_told, not_written};
ghost use Rattle.survey_deliver.specs.Whole.{new_one, answers_of, Piece, Finished};

use super::piece;
use super::piece::Progress;
use book::head::HeadWords;
use book::row::Row;
use std::io;
use std::io::Write;
use store_cards::Card;
use store_owned::PLACES;
use table::limits::PlaceBytes;
use wire::refusal::Refusal;

// The answers of a list are handed on in pieces of at most so many bytes.
const ANSWER_BYTES: usize = 4096;

// Why not all answers of a list are handed on: the list was refused, or writing failed.
#[derive(Clone, Copy)]
pub enum Undelivered {
    Refused(Refusal),
    NotWritten(io::Error),
}

// What became of a list: whether all its answers were handed on, how many requests were served, and how many bytes of answers were handed on.
#[derive(Clone, Copy)]
pub struct Delivered {
    pub ended: Result<(), Undelivered>,
    pub served: usize,
    pub written: usize,
}

// Writes a piece of the answers of a list, the one behind the `written` bytes before it. List and number are there to say which piece it is:
// only the next one may be handed on.
fn hand_on<W: Write>(out: &mut W, list: &[u8], written: usize, piece: &[u8]) -> io::Result<()>
    requires { Piece list.now written piece.now }
    ensures { OnOk result (Appends (W.contents out.old) (W.contents out.new) piece.now) }
{
    out.write_all(piece)
}

// Runs a list over a new store, and after each stop the rest of it over the same store; hands on the answers of each run to a writer.
// A writer whose bytes are known, as one to memory, has grown by the answers of the list, no more and no less, unless writing failed. Of others no
// contract can say, so it is read off the loop: each piece made is given to `hand_on`, once and before the next is made, and it ends with
// `NotWritten` just where `hand_on` failed. All else is settled: what each piece is, that only the next one is handed on, where the loop can
// stop, and what is left.
pub fn deliver<W: Write>(
    out: &mut W,
    area: &mut [u8],
    first: [Card; PLACES],
    rows: &mut [Row],
    lists: &mut [u16],
    head: &mut HeadWords,
    memory: &mut PlaceBytes,
    list: &[u8],
) -> Delivered
    requires { (lent area.old rows.old lists.old head.old memory.old ≡ lent_of new_one) × (rows.old ≡ rows_of first) }
    ensures finished { Finished list.now (after area rows lists head memory)
        (number_told result.ended) result.served result.written (not_written result.ended) }
    ensures handed_on { not_written result.ended ≡ false → Appends (W.contents out.old) (W.contents out.new) (answers_of list.now) }
{
    let mut answer = [0u8; ANSWER_BYTES];
    let mut cards = first;
    let mut from = Progress {
        served: 0,
        at: 0,
        written: 0,
    };
    while from.at < list.len() {
        let made = piece::next_piece(
            area,
            cards,
            rows,
            lists,
            head,
            memory,
            list,
            from,
            &mut answer,
        );
        cards = made.cards;
        let reached = made.progress;
        let n = match made.ran {
            Ok(ran) => ran.written,
            Err(refusal) => {
                return Delivered {
                    ended: Err(Undelivered::Refused(refusal)),
                    served: reached.served,
                    written: reached.written,
                };
            }
        };
        if let Err(error) = hand_on(out, list, from.written, &answer[..n]) {
            return Delivered {
                ended: Err(Undelivered::NotWritten(error)),
                served: reached.served,
                written: reached.written,
            };
        }
        from = reached;
    }
    Delivered {
        ended: Ok(()),
        served: from.served,
        written: from.written,
    }
}

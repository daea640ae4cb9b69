// The program `survey` as a function: a new store of 32 places with threshold 4 runs standard input.
#![tactic(auto)]

ghost use Rattle.std.specs.Prelude.{◌≡◌, false};
ghost use Rattle.std.specs.Io.KnownBytes.{Appends};
ghost use Rattle.survey_deliver.specs.Ended.{number_told, not_written};
ghost use Rattle.survey_deliver.specs.Whole.{Told, answers_of};

use book::head::HEAD_WORDS;
use book::limits::LEVELS;
use book::row::ROW_WORDS;
use std::io;
use std::io::Write;
use store_owned::PLACES;
use survey_deliver::deliver;
use survey_deliver::deliver::{Delivered, Undelivered};
use table::limits::PLACE_SIZE;
use wire::list::LIST_LIMIT;

mod input;

// A table with so many links is merged.
pub const THRESHOLD: u64 = 4;

// The bytes of all places, and room for the lists of all levels.
const AREA_BYTES: usize = PLACES * PLACE_SIZE;

const LIST_ROOM: usize = LEVELS * PLACES;

// One byte more than a list may have is read, so that a longer one is seen.
const INPUT_BYTES: usize = LIST_LIMIT + 1;

// Runs a list over a new store and writes its answers to a writer.
pub fn survey_list<W: Write>(out: &mut W, list: &[u8]) -> Delivered
    ensures told { Told list.now (number_told result.ended) result.served result.written (not_written result.ended) }
    ensures handed_on { not_written result.ended ≡ false → Appends (W.contents out.old) (W.contents out.new) (answers_of list.now) }
{
    let mut area = [0u8; AREA_BYTES];
    let blank = store_cards::card_of([0u64; ROW_WORDS]);
    let mut rows = [[0u64; ROW_WORDS]; PLACES];
    let mut lists = [0u16; LIST_ROOM];
    let mut head = [0u64; HEAD_WORDS];
    let mut memory = [0u8; PLACE_SIZE];
    let made = store_owned::start(
        &mut area,
        [blank; PLACES],
        &mut rows,
        &mut lists,
        &mut head,
        &mut memory,
        THRESHOLD,
    );
    let first = made.cards;
    deliver::deliver(
        out,
        &mut area,
        first,
        &mut rows,
        &mut lists,
        &mut head,
        &mut memory,
        list,
    )
}

// Runs standard input and writes the answers to standard output.
pub fn survey(rt: &HostRuntime) {
    let mut space = [0u8; INPUT_BYTES];
    let n = match input::read_all(&mut rt.stdin(), &mut space) {
        Ok(n) => n,
        Err(e) => return fail(rt, "survey: standard input", e.error),
    };
    if let Err(Undelivered::NotWritten(e)) = survey_list(&mut rt.stdout(), &space[..n]).ended {
        fail(rt, "survey: standard output", e);
    }
}

// Writes a line to standard error: what failed, and why.
fn fail(rt: &impl Eprint, what: &str, why: io::Error) {
    let _ = eprintln!(rt; "{what}: {why}");
}

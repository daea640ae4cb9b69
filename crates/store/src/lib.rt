// The store over lent memory, as C and Rust programs call it: make, check, run, save and open.
//
// Each function is a proved one under an exported name. A slice is lent as a pointer and a count, an array as a pointer.
#![tactic(auto)]

ghost use Rattle.std.specs.Prelude.{◌≡◌, get_or};
ghost use Rattle.ldc.specs.Run.{make, run, letter_of};
ghost use Rattle.book.specs.Made.{made};
ghost use Rattle.book.specs.Pieces.{after, before};
ghost use Rattle.check_store.specs.Answer.{Answers};
ghost use Rattle.serve_list.specs.Ran.{ran};
ghost use Rattle.saved_book.specs.Opened.{opened_over};
ghost use Rattle.saved_book.specs.Calls.{saving, save_book, opening, open_with, working_after};
ghost use Rattle.store_save.specs.Left.{book_after};

use book::head::HeadWords;
use book::row::Row;
use store_run::Ran;
use table::limits::PlaceBytes;
use wire::refusal;

// Makes a new store in any lent memory: 0, or 1 for sizes, or 2 for a threshold outside 1 to 8; refused, nothing is changed.
#[unsafe(no_mangle)]
pub extern "C" fn zilgwern_make(
    area: &mut [u8],
    cards: &mut [Row],
    lists: &mut [u16],
    head: &mut HeadWords,
    memory: &mut PlaceBytes,
    threshold: u64,
) -> u64
    ensures { made result (after area cards lists head memory) ≡ make (before area.old cards.old lists.old head.old memory.old) threshold }
{
    refusal::number_of(&store_make::make(area, cards, lists, head, memory, threshold))
}

// Checks whatever is lent: 0 for a sound store, 1 for sizes, 5 where a rule is broken; the letter of the first one is then written in ASCII (else 0).
#[unsafe(no_mangle)]
pub extern "C" fn zilgwern_check(
    area: &[u8],
    cards: &[Row],
    lists: &[u16],
    head: &HeadWords,
    memory: &PlaceBytes,
    letter: &mut u64,
) -> u64
    ensures { Answers (before area.now cards.now lists.now head.now memory.now) result letter.new }
{
    let checked = check_store::check(area, cards, lists, head, memory);
    *letter = refusal::letter_of(&checked);
    refusal::number_of(&checked)
}

// Runs a list of requests over whatever is lent: 0, or refused by 1, 3, 4 or 5, nothing changed. The outcome has three numbers: the letter of the
// first broken rule in ASCII with 5 (else 0), how many requests were served, and how many bytes of the answer were written.
#[unsafe(no_mangle)]
pub extern "C" fn zilgwern_run(
    area: &mut [u8],
    cards: &mut [Row],
    lists: &mut [u16],
    head: &mut HeadWords,
    memory: &mut PlaceBytes,
    list: &[u8],
    answer: &mut [u8],
    outcome: &mut [u64; 3],
) -> u64
    ensures { (ran result (get_or outcome.new 1 0) (get_or outcome.new 2 0)
        (after area cards lists head memory) answer.new
        ≡ run (before area.old cards.old lists.old head.old memory.old) list.now answer.old)
        × (get_or outcome.new 0 0 ≡ letter_of (before area.old cards.old lists.old head.old memory.old) result) }
{
    let done = store_run::run(area, cards, lists, head, memory, list, answer);
    let ran = Ran::of(&done);
    *outcome = [
        refusal::letter_of(&done),
        ran.served as u64,
        ran.written as u64,
    ];
    refusal::number_of(&done)
}

// Writes the book of a sound store as bytes to the front of the buffer: 0, or refused by 1, 5 or 3, nothing written. The outcome has two numbers: the
// letter of the first broken rule in ASCII with 5 (else 0), and the saved length (0 if refused).
#[unsafe(no_mangle)]
pub extern "C" fn zilgwern_save(
    area: &[u8],
    cards: &[Row],
    lists: &[u16],
    head: &HeadWords,
    memory: &PlaceBytes,
    buffer: &mut [u8],
    outcome: &mut [u64; 2],
) -> u64
    ensures { (saving result (get_or outcome.new 1 0) buffer.new
        ≡ save_book (before area.now cards.now lists.now head.now memory.now) buffer.old)
        × (get_or outcome.new 0 0 ≡ letter_of (before area.now cards.now lists.now head.now memory.now) result) }
{
    let saved = store_save::save::save(area, cards, lists, head, memory, buffer);
    let written = saved.unwrap_or(0);
    *outcome = [refusal::letter_of(&saved), written as u64];
    refusal::number_of(&saved)
}

// Opens a saved book over an area, which is only read: 0, or refused by 1, 21, 22 or 5, nothing of the book changed. The letter is that of the first
// broken rule of the store as opened, in ASCII, with 5 (else 0). Working cards are lent beside it, as many as cards (else 1): with 0 and 5 they hold
// the cards as opened, with 1, 21 and 22 they stay.
#[unsafe(no_mangle)]
pub extern "C" fn zilgwern_open(
    area: &[u8],
    cards: &mut [Row],
    lists: &mut [u16],
    head: &mut HeadWords,
    memory: &mut PlaceBytes,
    saved: &[u8],
    working: &mut [Row],
    letter: &mut u64,
) -> u64
    ensures { (opening result (book_after area cards lists head memory)
        ≡ open_with working.old (before area.now cards.old lists.old head.old memory.old) saved.now)
        × ((letter.new ≡ letter_of (opened_over area.now saved.now) result)
        × (working.new ≡ working_after result working.old area.now saved.now)) }
{
    let opened = store_save::open::open(area, cards, lists, head, memory, saved, working);
    *letter = refusal::letter_of(&opened);
    refusal::number_of(&opened)
}

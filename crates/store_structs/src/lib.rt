// The store over lent memory whose cards are a slice of structs: make, check and run.
//
// The store itself works on rows of words. Who calls these functions lends working rows beside the cards, as many; another number of them is
// refused by 1. Numbers 1 to 4 are found before anything is carried over: then nothing that is lent changes. Otherwise the rows are working
// memory. The cards are carried to them (but not for a new store, which needs no old cards), the proved function works on them, and make and run
// carry them back where they accept. With 5 the cards stay as they were, and the rows hold their words.
#![tactic(auto)]

ghost use Rattle.std.specs.Prelude.{◌≡◌, cond, ◌&&◌, List, ℕ, eqb, length};
ghost use Rattle.ldc.specs.Lent.{Lent, sizes_good};
ghost use Rattle.ldc.specs.Run.{wrong_sizes, make, letter_of};
ghost use Rattle.book.specs.Made.{made};
ghost use Rattle.book.specs.Pieces.{after, before};
ghost use Rattle.check_store.specs.Answer.{Answers};
ghost use Rattle.serve_list.specs.Ran.{ran};
ghost use Rattle.store_structs.specs.Over.{as_many, make_over, check_over, run_over, early_over, rows_after, Left, before_over, after_over};
ghost use Rattle.wire.specs.Refusal.{number_of, letter_in};
ghost use Rattle.store_run.specs.Ran.{ran_in};

use book::head::HeadWords;
use book::row::Row;
use book::sizes;
use store_cards::Card;
use store_run::Ran;
use table::limits::PlaceBytes;
use wire::refusal::Refusal;

// Makes a new store of so many cards in rows, or refuses with nothing changed.
fn make_rows(
    area: &mut [u8],
    cards: usize,
    rows: &mut [Row],
    lists: &mut [u16],
    head: &mut HeadWords,
    memory: &mut PlaceBytes,
    threshold: u64,
) -> Result<(), Refusal>
    ensures { made (number_of result) (after area rows lists head memory)
        ≡ cond (eqb (length rows.old) cards)
        (make (before area.old rows.old lists.old head.old memory.old) threshold)
        (made wrong_sizes (before area.old rows.old lists.old head.old memory.old)) }
{
    if rows.len() != cards {
        return Err(Refusal::WrongSizes);
    }
    store_make::make(area, rows, lists, head, memory, threshold)
}

// Makes a new store: 0, or 1 for sizes, or 2 for a threshold outside 1 to 8. Refused, nothing that is lent changes, no working row either.
pub fn make(
    area: &mut [u8],
    cards: &mut [Card],
    rows: &mut [Row],
    lists: &mut [u16],
    head: &mut HeadWords,
    memory: &mut PlaceBytes,
    threshold: u64,
) -> Result<(), Refusal>
    ensures { (made (number_of result) (after_over area cards lists head memory)
        ≡ make_over rows.old (before_over area.old cards.old lists.old head.old memory.old) threshold)
        × Left (number_of result) rows.old rows.new cards.old cards.new }
{
    make_rows(area, cards.len(), rows, lists, head, memory, threshold)?;
    store_cards::unload(cards, rows);
    Ok(())
}

// Number 1: are so many bytes, cards, working rows and list items those of a store, with as many rows as cards?
pub fn fits(area: usize, cards: usize, rows: usize, lists: usize) -> bool
    ensures { (m : Lent) (w : List (List ℕ))
        → length m.area ≡ area → length m.cards ≡ cards → length w ≡ rows → length m.lists ≡ lists
        → result ≡ as_many w m && sizes_good m }
{
    (rows == cards) & sizes::sizes(area, cards, lists)
}

// The check of rows that may be written to, which it leaves as they are.
fn check_rows(
    area: &[u8],
    rows: &mut [Row],
    lists: &[u16],
    head: &HeadWords,
    memory: &PlaceBytes,
) -> Result<(), Refusal>
    ensures { Answers (before area.now rows.old lists.now head.now memory.now) (number_of result) (letter_in result)
        × (rows.new ≡ rows.old) }
{
    check_store::check(area, rows, lists, head, memory)
}

// Is this a sound store? Of what is lent the working rows alone are written: with 0 and 5 they become the cards' words.
pub fn check(
    area: &[u8],
    cards: &[Card],
    rows: &mut [Row],
    lists: &[u16],
    head: &HeadWords,
    memory: &PlaceBytes,
) -> Result<(), Refusal>
    ensures { (number_of result ≡ check_over rows.old (before_over area.now cards.now lists.now head.now memory.now))
        × ((letter_in result ≡ letter_of (before_over area.now cards.now lists.now head.now memory.now) (number_of result))
        × (rows.new ≡ rows_after (number_of result) rows.old cards.now)) }
{
    if !fits(area.len(), cards.len(), rows.len(), lists.len()) {
        return Err(Refusal::WrongSizes);
    }
    store_cards::load(cards, rows);
    check_rows(area, rows, lists, head, memory)
}

// Is a run refused before anything is carried over? By 1, 3 or 4, in this order.
fn admit_over(
    area: usize,
    cards: usize,
    rows: usize,
    lists: usize,
    answer: usize,
    list: &[u8],
) -> Result<(), Refusal>
    ensures number { (m : Lent) (w : List (List ℕ))
        → length m.area ≡ area → length m.cards ≡ cards → length w ≡ rows → length m.lists ≡ lists
        → number_of result ≡ early_over w m answer list.now }
    ensures letter { letter_in result ≡ 0 }
{
    if rows != cards {
        return Err(Refusal::WrongSizes);
    }
    store_run::admit(area, cards, lists, answer, list)
}

// Runs a list of requests: refused with 1, 3, 4 or 5, in this order; otherwise served in order. Refused, nothing of the store changes and nothing
// is written to the answer; with 1, 3 and 4 no working row changes either, and with 5 they become the cards' words.
pub fn run(
    area: &mut [u8],
    cards: &mut [Card],
    rows: &mut [Row],
    lists: &mut [u16],
    head: &mut HeadWords,
    memory: &mut PlaceBytes,
    list: &[u8],
    answer: &mut [u8],
) -> Result<Ran, Refusal>
    ensures { (ran (number_of result) (ran_in result).served (ran_in result).written (after_over area cards lists head memory) answer.new
        ≡ run_over rows.old (before_over area.old cards.old lists.old head.old memory.old) list.now answer.old)
        × ((letter_in result ≡ letter_of (before_over area.old cards.old lists.old head.old memory.old) (number_of result))
        × Left (number_of result) rows.old rows.new cards.old cards.new) }
{
    admit_over(
        area.len(),
        cards.len(),
        rows.len(),
        lists.len(),
        answer.len(),
        list,
    )?;
    store_cards::load(cards, rows);
    let ran = store_run::run(area, rows, lists, head, memory, list, answer)?;
    store_cards::unload(cards, rows);
    Ok(ran)
}

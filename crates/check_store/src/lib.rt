// Checking a store: any bytes and numbers at all may be lent, and damage is told by the letter of the first broken rule.
//
// A module for each rule of document 01, "Sound store", here and in `check_places` and `check_links`; each assumes no more than what was
// found before it. Rule D is a test of `table`.
#![tactic(auto)]

ghost use Rattle.std.specs.Prelude.{◌≡◌, true, ◌≤◌, length};
ghost use Rattle.ldc.specs.Layout.{most_places};
ghost use Rattle.ldc.specs.Lent.{sizes_good, first_broken};
ghost use Rattle.check_store.specs.Answer.{Answers};
ghost use Rattle.wire.specs.Refusal.{number_of, letter_in};
ghost use Rattle.check_store.specs.Rest.{broken_letter, rest_letter};
ghost use Rattle.check_walk.specs.Links.{Walkable};
ghost use Rattle.check_places.specs.Links.{walk_c};
ghost use Rattle.book.specs.Pieces.{lent, before};

use book::head::HeadWords;
use book::limits::MOST_PLACES;
use book::row::Row;
use book::sizes;
use check_links::rule_e;
use check_places::{rule_b, rule_c, rule_f};
use table::limits::PlaceBytes;
use table::valid;
use wire::refusal::{Refusal, Rule};

mod rule_a;
mod rule_g;

// As many places are few: a check of them takes no room for as many keys as the largest store has places.
const FEW_PLACES: usize = 256;

// Are rules E, F and G kept? If not, the first broken one of them: the quick yes, or the rules themselves.
fn first_of_rest(
    area: &[u8],
    cards: &[Row],
    lists: &[u16],
    head: &HeadWords,
    ends: &[u64],
    marks: &mut [u8],
) -> Result<(), Rule>
    requires { (Walkable area.now cards.now lists.now head.now ends.now × (walk_c area.now cards.now ≡ true))
        × (length marks.old ≡ length cards.now) }
    ensures { broken_letter result ≡ rest_letter area.now cards.now lists.now head.now }
{
    if check_quick::rest_kept(area, cards, lists, head, ends, marks) {
        return Ok(());
    }
    if !rule_e::kept(area, cards, lists, head, ends, marks) {
        return Err(Rule::E);
    }
    if !rule_f::kept(cards, marks) {
        return Err(Rule::F);
    }
    if !rule_g::kept(area, cards, lists, head, ends) {
        return Err(Rule::G);
    }
    Ok(())
}

// Are all rules kept? If not, the first broken one. Nothing is looked at that an earlier rule forbids. In `ends` there is room to
// note a key for each place, in `marks` to mark it.
fn first_broken(
    area: &[u8],
    cards: &[Row],
    lists: &[u16],
    head: &HeadWords,
    memory: &PlaceBytes,
    ends: &mut [u64],
    marks: &mut [u8],
) -> Result<(), Rule>
    requires { (sizes_good (lent area.now cards.now lists.now head.now memory.now) ≡ true)
        × ((length cards.now ≤ length ends.old) × (length marks.old ≡ length cards.now)) }
    ensures { broken_letter result ≡ first_broken (before area.now cards.now lists.now head.now memory.now) }
{
    if !rule_a::kept(head, cards.len()) {
        return Err(Rule::A);
    }
    if !rule_b::kept(cards, lists, head, marks) {
        return Err(Rule::B);
    }
    if !rule_c::kept(area, cards, ends) {
        return Err(Rule::C);
    }
    // Rule D.
    if !valid::is_memory(&memory[..]) {
        return Err(Rule::D);
    }
    first_of_rest(area, cards, lists, head, ends, marks)
}

// The same for a store of at most `ROOM` places: no more room is taken than so many need.
fn first_within<const ROOM: usize>(
    area: &[u8],
    cards: &[Row],
    lists: &[u16],
    head: &HeadWords,
    memory: &PlaceBytes,
) -> Result<(), Rule>
    requires sized { sizes_good (lent area.now cards.now lists.now head.now memory.now) ≡ true }
    requires room { length cards.now ≤ ROOM }
    requires most { ROOM ≤ most_places }
    ensures { broken_letter result ≡ first_broken (before area.now cards.now lists.now head.now memory.now) }
{
    let mut ends = [0u64; ROOM];
    let mut marks = [0u8; ROOM];
    let places = cards.len();
    first_broken(
        area,
        cards,
        lists,
        head,
        memory,
        &mut ends[..],
        &mut marks[..places],
    )
}

// The same, by the size.
fn first_of_all(
    area: &[u8],
    cards: &[Row],
    lists: &[u16],
    head: &HeadWords,
    memory: &PlaceBytes,
) -> Result<(), Rule>
    requires { sizes_good (lent area.now cards.now lists.now head.now memory.now) ≡ true }
    ensures { broken_letter result ≡ first_broken (before area.now cards.now lists.now head.now memory.now) }
{
    if cards.len() <= FEW_PLACES {
        return first_within::<FEW_PLACES>(area, cards, lists, head, memory);
    }
    first_within::<MOST_PLACES>(area, cards, lists, head, memory)
}

// Is this a sound store? Nothing is asked of what is lent, and nothing is written.
pub fn check(
    area: &[u8],
    cards: &[Row],
    lists: &[u16],
    head: &HeadWords,
    memory: &PlaceBytes,
) -> Result<(), Refusal>
    ensures { Answers
        (before area.now cards.now lists.now head.now memory.now)
        (number_of result)
        (letter_in result) }
{
    if !sizes::sizes(area.len(), cards.len(), lists.len()) {
        return Err(Refusal::WrongSizes);
    }
    match first_of_all(area, cards, lists, head, memory) {
        Ok(()) => Ok(()),
        Err(rule) => Err(Refusal::Unsound(rule)),
    }
}

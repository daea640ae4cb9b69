// The steps of a tidy: a merge, done or refused, and a chosen table taken down, each with what the reply says of it.
ghost use Rattle.ldc.specs.Tidy.{merge_step, down_step};
ghost use Rattle.book.specs.Pieces.{given_beside, held_beside, left_beside, book_left_beside};
ghost use Rattle.compact.specs.Tidied.{Mergeable, Choosable, DoesBeside};

use book::head::Head;
use book::row::Row;
use book_places::free;
use compact_link::down;
use compact_merge::tables;
use wire::results;

// What a tidy gives: its result, with result 0 the step and its level, and the head after it.
#[derive(Clone, Copy)]
pub struct Tidied {
    pub result: u16,
    pub step: u16,
    pub level: u16,
    pub head: Head,
}

// Merges a table of levels 1 to 3. Its tables are built before the first byte is written, so that with 20 nothing is changed.
pub fn merge_or_refuse(
    area: &mut [u8],
    cards: &mut [Row],
    lists: &mut [u16],
    head: Head,
    n: usize,
    p: usize,
) -> Tidied
    requires { Mergeable (given_beside area.old cards.old lists.old head) n p }
    ensures { DoesBeside (held_beside area.old cards.old lists.old head) (λ s. merge_step s n p) (left_beside area cards lists result.head) result }
{
    let mut out = [0u8; tables::MERGE_BYTES];
    let k = tables::merge_into(area, cards, lists, head, n, p, &mut out);
    if !free::free_at_least(cards, k) {
        return Tidied {
            result: results::NO_ROOM,
            step: results::NO_STEP,
            level: 0,
            head,
        };
    }
    let after = compact_install::finish_merge(area, cards, lists, head, n, p, &out, k);
    Tidied {
        result: results::DONE,
        step: results::MERGED,
        level: n as u16,
        head: after,
    }
}

// Takes a chosen table one level down.
pub fn take_down(
    area: &[u8],
    cards: &mut [Row],
    lists: &mut [u16],
    head: Head,
    n: usize,
    p: usize,
) -> Tidied
    requires { Choosable (given_beside area.now cards.old lists.old head) n p }
    ensures { DoesBeside (held_beside area.now cards.old lists.old head) (λ s. down_step s n p)
        (book_left_beside area cards lists result.head) result }
{
    let went = down::go_down(area, cards, lists, head, n, p);
    let after = went.head;
    Tidied {
        result: results::DONE,
        step: went.step,
        level: n as u16,
        head: after,
    }
}

// A chosen table goes one level down: it moves, or it is linked.
ghost use Rattle.book.specs.Pieces.{given_beside, held_beside, book_left_beside};
ghost use Rattle.compact_link.specs.Down.{ReadyBeside, GoesDown};

use super::link;
use book::head::Head;
use book::list;
use book::row::Row;
use book_edit::level;
use read::place;
use wire::results;

// The number of the step that was done, and the head after it.
#[derive(Clone, Copy)]
pub struct Down {
    pub step: u16,
    pub head: Head,
}

// Takes the chosen table p of level n one level down: it moves if the next level is empty, and is linked otherwise. The level's mark
// becomes its greatest own key.
pub fn go_down(
    area: &[u8],
    cards: &mut [Row],
    lists: &mut [u16],
    head: Head,
    n: usize,
    p: usize,
) -> Down
    requires { ReadyBeside (given_beside area.now cards.old lists.old head) n p }
    ensures { GoesDown (held_beside area.now cards.old lists.old head) n p (book_left_beside area cards lists result.head) result.step }
{
    let places = cards.len();
    let mark = place::greatest(area, p);
    let below = head.length_of(n + 1);
    let marked = head.with_mark(n, mark);
    let item = p as u16;
    let none = [0u16; 0];
    if below == 0 {
        let left = level::replace(lists, places, marked, n, item, &none);
        let joined = level::join(lists, places, left, n + 1, item);
        return Down {
            step: results::MOVED,
            head: joined,
        };
    }
    link::link(area, cards, list::items(lists, places, below, n + 1), p);
    let left = level::replace(lists, places, marked, n, item, &none);
    Down {
        step: results::LINKED,
        head: left,
    }
}

// Which level is to be relieved: by the lengths of the lists alone.
ghost use Rattle.std.specs.Prelude.{◌≡◌, [], ◌∷◌, ◌<◌};
ghost use Rattle.ldc.specs.Layout.{length_in};
ghost use Rattle.ldc.specs.Store.{last_level};
ghost use Rattle.ldc.specs.Tidy as tidy;
ghost use Rattle.book.specs.Head.{head_words};
ghost use Rattle.book.specs.Place.{the_index};
ghost use Rattle.compact_pick.specs.Level.{Short, Compared};

use book::head::Head;
use book::limits::LAST_LEVEL;

// The capacity of levels 0, 1 and 2, in live tables; level 3 has none.
fn capacity(n: usize) -> usize
    requires { n < last_level }
    ensures { result ≡ tidy.capacity n }
{
    2 << (2 * n)
}

// Of two levels the fuller one by live tables over capacity, of equals the first; the second may be missing.
fn prefer(head: Head, n: usize, other: Option<usize>) -> usize
    requires { Compared (head_words head) n other }
    ensures { result ≡ tidy.prefer (length_in (head_words head)) n (the_index other) }
{
    let Some(m) = other else {
        return n;
    };
    if head.length_of(n) * capacity(m) < head.length_of(m) * capacity(n) {
        m
    } else {
        n
    }
}

// Of the levels above capacity the fullest; ties to the lower number.
pub fn find_overfull(head: Head) -> Option<usize>
    requires { Short (head_words head) }
    ensures { the_index result ≡ tidy.fullest (length_in (head_words head)) (0 ∷ 1 ∷ 2 ∷ []) }
{
    let mut best = None;
    for i in (0..LAST_LEVEL).rev() {
        if capacity(i) < head.length_of(i) {
            best = Some(prefer(head, i, best));
        }
    }
    best
}

// Pieces of a byte list, one behind the other, told by their ends.
#![tactic(auto)]

ghost use Rattle.std.specs.Prelude.{◌≡◌, ◌≤◌, length};
ghost use Rattle.history_lists.specs.Pieces.{start_of, end_good, Runs};

// Piece k begins where the piece before ends.
pub fn start(ends: &[usize], k: usize) -> usize
    requires { k ≤ length ends.now }
    ensures { result ≡ start_of ends.now k }
{
    if k == 0 {
        return 0;
    }
    ends[k - 1]
}

// Does piece k have an end, not before its start and not beyond so many bytes?
#[tactic(auto, unfolding(crate::specs::Pieces::end_good))]
fn is_good(size: usize, ends: &[usize], k: usize) -> bool
    ensures { result ≡ end_good size ends.now k }
{
    let Some(&end) = ends.get(k) else {
        return false;
    };
    (start(ends, k) <= end) & (end <= size)
}

// How many runs there are: list and answer buffer have good ends, and there is room for the number; the first that is not ready ends the history.
pub fn runs(size: usize, ends: &[usize], space: usize, stops: &[usize], room: usize) -> usize
    ensures { Runs size ends.now space stops.now room result }
{
    for k in 0..room {
        if !(is_good(size, ends, k) & is_good(space, stops, k)) {
            return k;
        }
    }
    room
}

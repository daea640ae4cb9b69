// The rest of a list behind its first requests.
ghost use Rattle.std.specs.Prelude.{◌≡◌, ◌≤◌, length};
ghost use Rattle.serve_list.specs.Ran.{requests_of};
ghost use Rattle.survey_deliver.specs.Whole.{position_of};

use table::entry;

// How many bytes the first `count` requests of a list take: behind them the list of the others begins.
pub fn skip(list: &[u8], count: usize) -> usize
    requires { count ≤ length (requests_of list.now) }
    ensures { result ≡ position_of list.now count }
{
    let mut at = 0;
    for _ in 0..count {
        at += usize::from(entry::length_at(list, at));
    }
    at
}

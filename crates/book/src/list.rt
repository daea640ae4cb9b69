// A level's list, read in its part of the lent lists: level n's part starts at item n times the number of places, and the head says how many
// of its items are in use, from the first on.
ghost use Rattle.std.specs.Prelude.{◌≡◌, ◌*◌, ◌≤◌, ◌<◌, length, take, drop};
ghost use Rattle.ldc.specs.Layout.{level_count, length_in, part_in};

use super::head;
use super::head::HeadWords;

// The length of level n's list.
pub fn length(words: &HeadWords, n: usize) -> usize
    requires { n < level_count }
    ensures { result ≡ length_in words.now n }
{
    words[head::LENGTHS + n] as usize
}

// The first `len` items of level n's list.
pub fn items(lists: &[u16], places: usize, len: usize, n: usize) -> &[u16]
    requires { (length lists.now ≡ level_count * places) × ((len ≤ places) × (n < level_count)) }
    ensures { result.now ≡ take len (part_in places lists.now n) }
{
    let start = n * places;
    &lists[start..start + len]
}

// The items of level n's part behind the first `len`.
pub fn rest(lists: &[u16], places: usize, len: usize, n: usize) -> &[u16]
    requires { (length lists.now ≡ level_count * places) × ((len ≤ places) × (n < level_count)) }
    ensures { result.now ≡ drop len (part_in places lists.now n) }
{
    let start = n * places;
    &lists[start + len..start + places]
}

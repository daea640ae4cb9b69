// Two arrays that are sorted by key: the keys, and where the entries stand. A newer entry takes the place of an older one under its key;
// where the arrays are full, the greatest key goes.
ghost use Rattle.std.specs.Prelude.{◌≡◌, ◌+◌, ◌-◌, ◌≤◌, ◌<◌, ◌^◌, length, take};
ghost use Rattle.table.specs.Limits.{place_size};
ghost use Rattle.table.specs.Table.{MemoryPlace};
ghost use Rattle.read_gather.specs.Beside.{Rises, rank, lift, InUse, Inserted};
ghost use Rattle.read_gather.specs.Gathered.{TakenIn};

use coding::key::Key;
use table::{entry, search};

// Where a key belongs among the first n, which rise: behind those below it. Found from the end, where the next key of a source belongs.
fn slot(keys: &[u64], n: usize, key: u64) -> usize
    requires { (n ≤ length keys.now) × Rises 0 (take n keys.now) }
    ensures { result ≡ rank key (take n keys.now) }
{
    for j in (0..n).rev() {
        if keys[j] < key {
            return j + 1;
        }
    }
    0
}

// The words from the j-th up to the one below `top` go up by one.
fn raise(words: &mut [u64], j: usize, top: usize)
    requires { (j ≤ top) × (top < length words.old) }
    ensures { words.new ≡ lift (top - j) j 0 words.old }
{
    words.copy_within(j..top, j + 1);
}

// Puts a key and its word among the first n, in place of those under the same key; how many are then in use.
fn insert(keys: &mut [u64], words: &mut [u64], n: usize, key: u64, word: u64) -> usize
    requires { InUse keys.old words.old n }
    ensures { Inserted keys.old words.old n key word keys.new words.new result }
{
    let j = slot(keys, n, key);
    if j < n && keys[j] == key {
        words[j] = word;
        return n;
    }
    if keys.len() <= j {
        return n;
    }
    // The last that is then in use: the greatest key goes where there is no room.
    let top = n.min(keys.len() - 1);
    raise(keys, j, top);
    raise(words, j, top);
    keys[j] = key;
    words[j] = word;
    top + 1
}

// Takes the entries of a table from one key up to another into the arrays, of which the first n are in use; `base` is where the table
// stands. How many are then in use.
pub fn take_in(
    keys: &mut [u64],
    spots: &mut [u64],
    n: usize,
    s: &[u8],
    base: usize,
    low: Key,
    high: Key,
) -> usize
    requires { MemoryPlace s.now × ((base + place_size < 2 ^ 64) × InUse keys.old spots.old n) }
    ensures { TakenIn s.now base low.value high.value
        keys.old spots.old n keys.new spots.new result }
{
    let first = search::first_from(s, low);
    let mut at = first.at;
    let mut used = n;
    for _ in first.index..search::count(s) {
        let key = entry::key_at(s, at);
        if high < key {
            return used;
        }
        used = insert(keys, spots, used, key.value, (base + at) as u64);
        at += usize::from(entry::length_at(s, at));
    }
    used
}

// A level's list in its part of the lent lists: items in use first, zeros behind.
ghost use Rattle.std.specs.Prelude.{◌≡◌, suc, ◌+◌, ◌≤◌, ◌<◌, length, set, take};
ghost use Rattle.book.specs.Level.{index_of, spliced};

// The index of the first of n items that is p.
pub fn index(part: &[u16], n: usize, p: u16) -> Option<usize>
    requires { n ≤ length part.now }
    ensures { result ≡ index_of p (take n part.now) }
{
    part[..n].iter().position(|&item| item == p)
}

// Puts p behind the last of n items.
pub fn append(part: &mut [u16], n: usize, p: u16)
    requires { n < length part.old }
    ensures { part.new ≡ set part.old n p }
{
    part[n] = p;
}

// Replaces the i-th of n items by several, or by none: those behind it move, and where there is one fewer, the last becomes zero.
pub fn replace(part: &mut [u16], n: usize, i: usize, items: &[u16])
    requires { (i < n) × ((n ≤ length part.old) × (n + length items.now ≤ suc (length part.old))) }
    ensures { part.new ≡ spliced i n items.now part.old }
{
    let k = items.len();
    part.copy_within(i + 1..n, i + k);
    part[i..i + k].copy_from_slice(items);
    if k == 0 {
        part[n - 1] = 0;
    }
}

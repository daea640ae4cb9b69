// Little-endian numbers in bytes: read and written at any place of a slice, in 2, 4 or 8 bytes.
//
// `get` and `put` work at any width up to 8 and carry the proofs; the functions of one width call them.
ghost use Rattle.std.specs.Prelude.{◌≡◌, ◌+◌, ◌≤◌, length};
ghost use Rattle.std.proofs.lemmas.List.Edits.{sets};
ghost use Rattle.coding.specs.Number.{number_at, bytes_of};

// The number in the `width` bytes from `at` on, the lowest byte first.
pub fn get(s: &[u8], at: usize, width: usize) -> u64
    requires { (width ≤ 8) × (at + width ≤ length s.now) }
    ensures { result ≡ number_at width s.now at }
{
    let mut n: u64 = 0;
    for i in (0..width).rev() {
        n = n * 256 + u64::from(s[at + i]);
    }
    n
}

// Writes the lowest `width` bytes of `n` from `at` on.
pub fn put(s: &mut [u8], at: usize, width: usize, n: u64)
    requires { at + width ≤ length s.old }
    ensures { s.new ≡ sets s.old at (bytes_of width n) }
{
    let mut rest = n;
    for i in 0..width {
        s[at + i] = (rest % 256) as u8;
        rest /= 256;
    }
}

// A number of two bytes.
pub fn get_u16(s: &[u8], at: usize) -> u16
    requires { at + 2 ≤ length s.now }
    ensures { result ≡ number_at 2 s.now at }
{
    get(s, at, 2) as u16
}

// A number of four bytes.
pub fn get_u32(s: &[u8], at: usize) -> u32
    requires { at + 4 ≤ length s.now }
    ensures { result ≡ number_at 4 s.now at }
{
    get(s, at, 4) as u32
}

// A number of eight bytes.
pub fn get_u64(s: &[u8], at: usize) -> u64
    requires { at + 8 ≤ length s.now }
    ensures { result ≡ number_at 8 s.now at }
{
    get(s, at, 8)
}

// Writes a number of two bytes.
pub fn put_u16(s: &mut [u8], at: usize, n: u16)
    requires { at + 2 ≤ length s.old }
    ensures { s.new ≡ sets s.old at (bytes_of 2 n) }
{
    put(s, at, 2, u64::from(n));
}

// Writes a number of four bytes.
pub fn put_u32(s: &mut [u8], at: usize, n: u32)
    requires { at + 4 ≤ length s.old }
    ensures { s.new ≡ sets s.old at (bytes_of 4 n) }
{
    put(s, at, 4, u64::from(n));
}

// Writes a number of eight bytes.
pub fn put_u64(s: &mut [u8], at: usize, n: u64)
    requires { at + 8 ≤ length s.old }
    ensures { s.new ≡ sets s.old at (bytes_of 8 n) }
{
    put(s, at, 8, n);
}

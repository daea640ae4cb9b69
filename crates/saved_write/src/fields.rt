// The two kinds of field: numbers of two bytes and keys of eight. What does not fit is cut off; a sound store has no such number.
ghost use Rattle.std.specs.Prelude.{◌≡◌, ◌+◌, ◌≤◌, length};
ghost use Rattle.ldc.specs.Request.{key_size};
ghost use Rattle.saved_book.specs.Saved.{number_size, number_bytes, key_bytes};
ghost use Rattle.saved_write.specs.Put.{Puts};

use coding::number;
use saved_form::layout;

pub fn put_number(out: &mut [u8], at: usize, n: u64) -> usize
    requires { at + number_size ≤ length out.old }
    ensures { Puts out at (number_bytes n) result × (result ≡ at + number_size) }
{
    number::put(out, at, layout::NUMBER, n);
    at + layout::NUMBER
}

pub fn put_key(out: &mut [u8], at: usize, key: u64) -> usize
    requires { at + key_size ≤ length out.old }
    ensures { Puts out at (key_bytes key) result × (result ≡ at + key_size) }
{
    number::put(out, at, layout::KEY, key);
    at + layout::KEY
}

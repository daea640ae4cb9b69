// The fields of the entry that stands at a position of a table's bytes.
ghost use Rattle.std.specs.Prelude.{◌≡◌, ◌+◌, ◌≤◌, length};
ghost use Rattle.table.specs.Limits.{entry_head};
ghost use Rattle.table.specs.Entry.{length_at, kind_at, key_at};

use coding::key::Key;
use coding::number;

// The length of the whole entry, or of the table where `at` is 0.
pub fn length_at(s: &[u8], at: usize) -> u16
    requires { at + 2 ≤ length s.now }
    ensures { result ≡ length_at s.now at }
{
    number::get_u16(s, at)
}

// Its kind.
pub fn kind_at(s: &[u8], at: usize) -> u16
    requires { at + 4 ≤ length s.now }
    ensures { result ≡ kind_at s.now at }
{
    number::get_u16(s, at + 2)
}

// Its key.
pub fn key_at(s: &[u8], at: usize) -> Key
    requires { at + entry_head ≤ length s.now }
    ensures { result.value ≡ key_at s.now at }
{
    Key {
        value: number::get_u64(s, at + 4),
    }
}

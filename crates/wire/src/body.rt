// Bodies of requests: their lengths, and the keys in them.
ghost use Rattle.std.specs.Prelude.{◌≡◌, true, cond, ◌+◌, ◌≤◌, length};
ghost use Rattle.coding.specs.Number.{number_at};
ghost use Rattle.ldc.specs.Request.{known, body_good, key_size};

use super::kinds;
use coding::key::Key;
use coding::number;
use table::limits;

// A key in a body.
pub const KEY: usize = 8;

// Number 17: has the body a length that its kind allows? Unknown kinds are not judged here.
pub fn is_good(kind: u16, len: usize) -> bool
    ensures { result ≡ cond (known kind) (body_good kind len) true }
{
    match kind {
        kinds::PUT => (KEY <= len) & (len <= KEY + limits::VALUE_LIMIT),
        kinds::DELETE | kinds::LOOK_UP | kinds::PROBE => len == KEY,
        kinds::SCAN => len == KEY + KEY,
        kinds::FLUSH..=kinds::REPORT => len == 0,
        kinds::NO_KIND | kinds::FIRST_UNKNOWN..=kinds::LAST_UNKNOWN => true,
    }
}

// The key that begins at a position of a body.
pub fn key_at(body: &[u8], at: usize) -> Key
    requires { at + key_size ≤ length body.now }
    ensures { result.value ≡ number_at key_size body.now at }
{
    Key {
        value: number::get_u64(body, at),
    }
}

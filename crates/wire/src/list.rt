// A list of requests: length, kind, body, one after the other, up to the list's end. Looked through once before anything is served.
ghost use Rattle.std.specs.Prelude.{◌≡◌, ◌≤◌, length};
ghost use Rattle.ldc.specs.Lists.{is_some};
ghost use Rattle.ldc.specs.Run.{whole_at, split};

use table::entry;

// The longest list, in bytes.
pub const LIST_LIMIT: usize = 65536;

// A request's length and kind.
pub const REQUEST_HEAD: usize = 4;

// Does a request with a length of at least 4 stand whole at this position?
fn is_whole(list: &[u8], at: usize) -> bool
    requires { at ≤ length list.now }
    ensures { result ≡ whole_at list.now at }
{
    let left = list.len() - at;
    if left < REQUEST_HEAD {
        return false;
    }
    let len = usize::from(entry::length_at(list, at));
    (REQUEST_HEAD <= len) & (len <= left)
}

// Number 4: is this a list, of at most 65,536 bytes, whose lengths are at least 4 and end at its end?
pub fn is_list(list: &[u8]) -> bool
    ensures { result ≡ is_some (split list.now) }
{
    if LIST_LIMIT < list.len() {
        return false;
    }
    let mut at = 0;
    while at < list.len() {
        if !is_whole(list, at) {
            return false;
        }
        at += usize::from(entry::length_at(list, at));
    }
    true
}

// The entries of a memory table from one on: passed, and put behind the last of another table.
ghost use Rattle.std.specs.Prelude.{◌≡◌, true, cond, ◌+◌, ◌-◌, ◌≤◌, ◌<◌};
ghost use Rattle.table.specs.Table.{count_of, entries, entries_at, MemoryPlace, RoomFor};
ghost use Rattle.table.specs.Search.{find, position_in};
ghost use Rattle.ldc.specs.Lists.{is_some};
ghost use Rattle.memtable.specs.Appends.{appends, AtEntry};

use coding::key::Key;
use table::search::EntryAt;
use table::{entry, search};
use table_builder::append;

// Is there an entry with this key?
pub fn holds_key(s: &[u8], key: Key) -> bool
    requires { MemoryPlace s.now }
    ensures { result ≡ is_some (find key.value (entries s.now)) }
{
    search::find(s, key).is_some()
}

// The entries of `s` from one on up to the n-th are put behind the last of `to`.
pub fn append_up_to(to: &mut [u8], s: &[u8], from: EntryAt, n: usize)
    requires { AtEntry s.now from × ((n ≤ count_of s.now) × RoomFor (n - from.index) to.old) }
    ensures { to.new ≡ appends (entries_at (n - from.index) s.now from.at) to.old }
{
    let mut at = from.at;
    for _ in from.index..n {
        append::append_from(to, s, at);
        at += usize::from(entry::length_at(s, at));
    }
}

// The entry behind this one, if this one has the key, and else this one.
pub fn pass_entry(s: &[u8], here: EntryAt, held: bool) -> EntryAt
    requires { AtEntry s.now here × (held ≡ true → here.index < count_of s.now) }
    ensures { (result.index ≡ cond held (here.index + 1) here.index)
        × (result.at ≡ position_in result.index s.now) }
{
    if held {
        EntryAt {
            index: here.index + 1,
            at: here.at + usize::from(entry::length_at(s, here.at)),
        }
    } else {
        here
    }
}

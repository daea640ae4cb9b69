// Writing entries: one at a position, one put behind the last of a table, and both of an entry that stands in other bytes.
ghost use Rattle.std.specs.Prelude.{◌≡◌, true, ◌+◌, ◌≤◌, length};
ghost use Rattle.std.proofs.lemmas.List.Edits.{sets};
ghost use Rattle.table.specs.Limits.{place_size, entry_head, entry_limit};
ghost use Rattle.table.specs.Entry.{entry_form, entry_of, entry_at, entry_bytes, kind_at, length_at};
ghost use Rattle.table.specs.Table.{appended, Seated, Appends, RoomFor};

use super::place;
use coding::key::Key;
use coding::number;
use table::{entry, limits, search};

// Writes an entry from `at` on.
pub fn put_entry(s: &mut [u8], at: usize, kind: u16, key: Key, value: &[u8])
    requires { (entry_form kind (entry_head + length value.now) ≡ true)
        × (at + (entry_head + length value.now) ≤ length s.old) }
    ensures { s.new ≡ sets s.old at (entry_bytes (entry_of kind key.value value.now)) }
{
    number::put_u16(s, at, (limits::ENTRY_HEAD + value.len()) as u16);
    number::put_u16(s, at + 2, kind);
    number::put_u64(s, at + 4, key.value);
    place::copy(s, at + limits::ENTRY_HEAD, value);
}

// Puts an entry behind the last.
pub fn append(s: &mut [u8], kind: u16, key: Key, value: &[u8])
    requires { Appends s.old kind value.now }
    ensures { s.new ≡ appended (entry_of kind key.value value.now) s.old }
{
    let end = usize::from(entry::length_at(s, 0));
    let n = search::count(s);
    put_entry(s, end, kind, key, value);
    number::put_u16(s, 0, (end + limits::ENTRY_HEAD + value.len()) as u16);
    number::put_u16(s, 4, (n + 1) as u16);
}

// Puts the entry at a position of some bytes behind the last of a table.
pub fn append_from(to: &mut [u8], s: &[u8], at: usize)
    requires { RoomFor 1 to.old
        × ((entry_form (kind_at s.now at) (length_at s.now at) ≡ true) × (at + length_at s.now at ≤ length s.now)) }
    ensures { to.new ≡ appended (entry_at s.now at) to.old }
{
    let len = usize::from(entry::length_at(s, at));
    let kind = entry::kind_at(s, at);
    let key = entry::key_at(s, at);
    let start = at + limits::ENTRY_HEAD;
    let end = at + len;
    append(to, kind, key, &s[start..end]);
}

// Writes the bytes of the entry at a position of a table from `at` on, and gives their number.
pub fn copy_entry(s: &[u8], from: usize, dst: &mut [u8], at: usize) -> usize
    requires { (length s.now ≡ place_size)
        × (Seated s.now from × (at + entry_limit ≤ length dst.old)) }
    ensures { (dst.new ≡ sets dst.old at (entry_bytes (entry_at s.now from)))
        × ((result ≡ length (entry_bytes (entry_at s.now from))) × (result ≤ entry_limit)) }
{
    let len = usize::from(entry::length_at(s, from));
    let kind = entry::kind_at(s, from);
    let key = entry::key_at(s, from);
    let start = from + limits::ENTRY_HEAD;
    let end = from + len;
    put_entry(dst, at, kind, key, &s[start..end]);
    len
}

// Searching and counting the entries of a table. Keys rise, so a search ends at the first key that is not below the one sought.
ghost use Rattle.std.specs.Prelude.{◌≡◌, ◌<◌, length};
ghost use Rattle.table.specs.Limits.{place_size};
ghost use Rattle.table.specs.Table.{count_of, entries, TablePlace, MemoryPlace};
ghost use Rattle.table.specs.Search.{count_below, count_within, seek_in, find_in, position_in, least_key, greatest_key};

use super::{entry, limits};
use coding::key::Key;
use coding::number;

// An entry by its index and by the position of its first byte.
#[derive(Clone, Copy)]
pub struct EntryAt {
    pub index: usize,
    pub at: usize,
}

// How many entries the table says it has.
#[tactic(auto, unfolding(crate::specs::Table::count_of))]
pub fn count(s: &[u8]) -> usize
    requires { length s.now ≡ place_size }
    ensures { result ≡ count_of s.now }
{
    usize::from(number::get_u16(s, 4))
}

// The first entry whose key is not below this one, or the end of all.
pub fn first_from(s: &[u8], key: Key) -> EntryAt
    requires { MemoryPlace s.now }
    ensures { (result.index ≡ count_below key.value (entries s.now))
        × (result.at ≡ position_in result.index s.now) }
{
    let n = count(s);
    let mut at = limits::TABLE_HEAD;
    for index in 0..n {
        if key <= entry::key_at(s, at) {
            return EntryAt { index, at };
        }
        at += usize::from(entry::length_at(s, at));
    }
    EntryAt { index: n, at }
}

// The position of its first byte, if there is one: the least key from there on.
pub fn seek(s: &[u8], key: Key) -> Option<usize>
    requires { MemoryPlace s.now }
    ensures { result ≡ seek_in s.now key.value }
{
    let first = first_from(s, key);
    if first.index < count(s) {
        Some(first.at)
    } else {
        None
    }
}

// Where the entry with this key stands, if there is one.
pub fn find(s: &[u8], key: Key) -> Option<usize>
    requires { MemoryPlace s.now }
    ensures { result ≡ find_in s.now key.value }
{
    let at = seek(s, key)?;
    if entry::key_at(s, at) == key {
        Some(at)
    } else {
        None
    }
}

// How many entries have keys from low to high, both included: those from low on, up to the first key above high.
pub fn count_within(s: &[u8], low: Key, high: Key) -> usize
    requires { MemoryPlace s.now }
    ensures { result ≡ count_within low.value high.value (entries s.now) }
{
    let n = count(s);
    let first = first_from(s, low);
    let mut at = first.at;
    for i in first.index..n {
        if high < entry::key_at(s, at) {
            return i - first.index;
        }
        at += usize::from(entry::length_at(s, at));
    }
    n - first.index
}

// Where the i-th entry stands, counted from 0.
pub fn nth(s: &[u8], i: usize) -> usize
    requires { MemoryPlace s.now × (i < count_of s.now) }
    ensures { result ≡ position_in i s.now }
{
    let mut at = limits::TABLE_HEAD;
    for _ in 0..i {
        at += usize::from(entry::length_at(s, at));
    }
    at
}

// The least key of a table.
pub fn least(s: &[u8]) -> Key
    requires { TablePlace s.now }
    ensures { result.value ≡ least_key (entries s.now) }
{
    entry::key_at(s, limits::TABLE_HEAD)
}

// The greatest key of a table.
pub fn greatest(s: &[u8]) -> Key
    requires { TablePlace s.now }
    ensures { result.value ≡ greatest_key (entries s.now) }
{
    let at = nth(s, count(s) - 1);
    entry::key_at(s, at)
}

// One place of the area as a table: the searches and counts of a table over its bytes.
ghost use Rattle.std.specs.Prelude.{◌≡◌, ◌+◌, ◌*◌, ◌≤◌, length};
ghost use Rattle.table.specs.Limits.{place_size, entry_head};
ghost use Rattle.table.specs.Entry.{key_at};
ghost use Rattle.table.specs.Table.{entries, place_of};
ghost use Rattle.table.specs.Search.{find_in, seek_in, least_key, greatest_key};
ghost use Rattle.ldc.specs.Store.{within};
ghost use Rattle.read.specs.Shown.{Tabled};

use book::place::bytes_of;
use coding::key::Key;
use table::{entry, search};

// The entry with this key.
pub fn find(area: &[u8], p: usize, key: Key) -> Option<usize>
    requires { Tabled area.now p }
    ensures { result ≡ find_in (place_of area.now p) key.value }
{
    search::find(bytes_of(area, p), key)
}

// The first entry from a key on.
pub fn seek(area: &[u8], p: usize, key: Key) -> Option<usize>
    requires { Tabled area.now p }
    ensures { result ≡ seek_in (place_of area.now p) key.value }
{
    search::seek(bytes_of(area, p), key)
}

// The least key.
pub fn least(area: &[u8], p: usize) -> Key
    requires { Tabled area.now p }
    ensures { result.value ≡ least_key (entries (place_of area.now p)) }
{
    search::least(bytes_of(area, p))
}

// The greatest key.
pub fn greatest(area: &[u8], p: usize) -> Key
    requires { Tabled area.now p }
    ensures { result.value ≡ greatest_key (entries (place_of area.now p)) }
{
    search::greatest(bytes_of(area, p))
}

// How many entries it has.
pub fn count(area: &[u8], p: usize) -> usize
    requires { Tabled area.now p }
    ensures { result ≡ length (entries (place_of area.now p)) }
{
    search::count(bytes_of(area, p))
}

// How many of them have keys from low to high, both included.
pub fn count_within(area: &[u8], p: usize, low: Key, high: Key) -> usize
    requires { Tabled area.now p }
    ensures { result ≡ length (within low.value high.value (entries (place_of area.now p))) }
{
    search::count_within(bytes_of(area, p), low, high)
}

// The key of the entry at a position.
pub fn key_of(area: &[u8], p: usize, at: usize) -> Key
    requires { (p * place_size + place_size ≤ length area.now) × (at + entry_head ≤ place_size) }
    ensures { result.value ≡ key_at (place_of area.now p) at }
{
    entry::key_at(bytes_of(area, p), at)
}

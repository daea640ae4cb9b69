// Put and delete on the bytes of the memory table: the key's entry is replaced, or one is inserted.
//
// The new table is built beside the old one, entry by entry in key order, and then copied over it.
ghost use Rattle.std.specs.Prelude.{◌≡◌, true, ◌+◌, length};
ghost use Rattle.table.specs.Limits.{entry_head};
ghost use Rattle.table.specs.Entry.{entry_of, entry_form};
ghost use Rattle.table.specs.Table.{entries, table_bytes, MemoryPlace};
ghost use Rattle.memtable.specs.Put.{put_in, Puts};
ghost use Rattle.ldc.specs.Memtable as merged;

use super::entries;
use coding::key::Key;
use table::search::EntryAt;
use table::{limits, search};
use table_builder::{append, place};
use wire::results;

// Makes `to` the table of the entries of `s` with one put among them; `held` says whether one of them
// has its key.
fn build_with(to: &mut [u8], s: &[u8], held: bool, kind: u16, key: Key, value: &[u8])
    requires { Puts to.old s.now held kind key.value value.now }
    ensures { to.new ≡ table_bytes (merged.put (entry_of kind key.value value.now) (entries s.now)) }
{
    let here = search::first_from(s, key);
    let first = EntryAt {
        index: 0,
        at: limits::TABLE_HEAD,
    };
    place::clear(to);
    entries::append_up_to(to, s, first, here.index);
    append::append(to, kind, key, value);
    entries::append_up_to(to, s, entries::pass_entry(s, here, held), search::count(s));
}

// Puts a value (kind 1) or a delete mark (kind 2) under a key, or refuses where the key is new and the table is full.
pub fn put(memory: &mut [u8], kind: u16, key: Key, value: &[u8]) -> u16
    requires { MemoryPlace memory.old × (entry_form kind (entry_head + length value.now) ≡ true) }
    ensures { (result ≡ (put_in (entry_of kind key.value value.now) memory.old).result)
        × (memory.new ≡ (put_in (entry_of kind key.value value.now) memory.old).bytes) }
{
    let held = entries::holds_key(memory, key);
    if held | (search::count(memory) < limits::TABLE_LIMIT) {
        let mut fresh = [0u8; limits::PLACE_SIZE];
        build_with(&mut fresh, memory, held, kind, key, value);
        place::copy(memory, 0, &fresh);
        results::DONE
    } else {
        results::MEMORY_FULL
    }
}

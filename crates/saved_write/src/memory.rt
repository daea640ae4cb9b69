// The memory entries of a saved book, after their count: they stand in the memory table as they are saved.
ghost use Rattle.std.specs.Prelude.{◌+◌, ◌≤◌, length};
ghost use Rattle.table.specs.Table.{entries, MemoryPlace};
ghost use Rattle.saved_book.specs.Saved.{memory_bytes};
ghost use Rattle.saved_write.specs.Put.{Puts};

use super::fields;
use table::{entry, limits, search};
use table_builder::place;

pub fn put_memory(out: &mut [u8], at: usize, memory: &[u8]) -> usize
    requires { MemoryPlace memory.now × (at + length (memory_bytes (entries memory.now)) ≤ length out.old) }
    ensures { Puts out at (memory_bytes (entries memory.now)) result }
{
    let start = fields::put_number(out, at, search::count(memory) as u64);
    let end = usize::from(entry::length_at(memory, 0));
    place::copy(out, start, &memory[limits::TABLE_HEAD..end]);
    start + (end - limits::TABLE_HEAD)
}

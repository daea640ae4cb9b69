// The entry at a spot: a byte position in the area or, behind it, in the memory table. Both are of whole places, so a spot says its place and
// the position there.
ghost use Rattle.std.specs.Prelude.{◌≡◌, ◌++◌, ◌+◌, ◌≤◌, length};
ghost use Rattle.std.proofs.lemmas.List.Edits.{sets};
ghost use Rattle.table.specs.Limits.{entry_limit};
ghost use Rattle.table.specs.Entry.{entry_at, entry_bytes};
ghost use Rattle.ldc.specs.Read.{holds_value};
ghost use Rattle.read_gather.specs.Gathered.{SeatedIn};
ghost use Rattle.read_iterator.specs.Spots.{Whole};

use book::place::bytes_of;
use table::{entry, limits};
use table_builder::append;

// Does a value stand there, and not a delete mark?
pub fn is_value(area: &[u8], memory: &[u8], spot: usize) -> bool
    requires { Whole area.now memory.now × SeatedIn (area.now ++ memory.now) spot }
    ensures { result ≡ holds_value (entry_at (area.now ++ memory.now) spot) }
{
    let at = spot % limits::PLACE_SIZE;
    if spot < area.len() {
        return entry::kind_at(bytes_of(area, spot / limits::PLACE_SIZE), at) != limits::DELETE_MARK;
    }
    entry::kind_at(memory, at) != limits::DELETE_MARK
}

// Copies the entry there into the answer, and gives its length.
pub fn copy_entry(area: &[u8], memory: &[u8], spot: usize, answer: &mut [u8], to: usize) -> usize
    requires { Whole area.now memory.now
        × (SeatedIn (area.now ++ memory.now) spot × (to + entry_limit ≤ length answer.old)) }
    ensures { (answer.new
        ≡ sets answer.old to (entry_bytes (entry_at (area.now ++ memory.now) spot)))
        × ((result ≡ length (entry_bytes (entry_at (area.now ++ memory.now) spot))) × (result ≤ entry_limit)) }
{
    let at = spot % limits::PLACE_SIZE;
    if spot < area.len() {
        return append::copy_entry(bytes_of(area, spot / limits::PLACE_SIZE), at, answer, to);
    }
    append::copy_entry(memory, at, answer, to)
}

// The memory table: its entries stand in the bytes as they stand in the table.
ghost use Rattle.std.specs.Prelude.{◌≡◌, true, length};
ghost use Rattle.table.specs.Limits.{place_size};
ghost use Rattle.saved_book.specs.Form.{saved_form, memory_start};
ghost use Rattle.saved_book.specs.Opened.{opened_memory};

use coding::number;
use saved_form::layout;
use table::limits;
use table::limits::PlaceBytes;
use table_builder::place;

// Writes the table into a place; `at` is where the entries with their count begin in the bytes.
#[tactic(auto, using(crate::proofs::Table::memory_fits))]
fn fill_table(s: &[u8], at: usize, table: &mut [u8])
    requires { (saved_form s.now ≡ true) × ((at ≡ memory_start s.now) × (length table.old ≡ place_size)) }
    ensures { table.new ≡ opened_memory s.now }
{
    let n = number::get_u16(s, at);
    let start = at + layout::NUMBER;
    place::clear(table);
    place::copy(table, limits::TABLE_HEAD, &s[start..]);
    number::put_u16(table, 0, (limits::TABLE_HEAD + (s.len() - start)) as u16);
    number::put_u16(table, 4, n);
}

// Reads the memory table; `at` is where its entries with their count begin in the bytes.
pub fn read_memory(s: &[u8], at: usize, memory: &mut PlaceBytes)
    requires { (saved_form s.now ≡ true) × (at ≡ memory_start s.now) }
    ensures { memory.new ≡ opened_memory s.now }
{
    fill_table(s, at, &mut memory[..]);
}

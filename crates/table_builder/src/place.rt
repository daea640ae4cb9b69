// Writing tables: bytes copied, an empty table, and a whole place of the area. `append` puts entries in.
ghost use Rattle.std.specs.Prelude.{◌≡◌, [], ◌+◌, ◌≤◌, length};
ghost use Rattle.std.proofs.lemmas.List.Edits.{sets};
ghost use Rattle.table.specs.Limits.{place_size};
ghost use Rattle.table.specs.Table.{zeros, table_bytes};

use coding::number;
use table::limits;

// Writes all of `src` into `dst` from `at` on.
pub fn copy(dst: &mut [u8], at: usize, src: &[u8])
    requires { at + length src.now ≤ length dst.old }
    ensures { dst.new ≡ sets dst.old at src.now }
{
    dst[at..at + src.len()].copy_from_slice(src);
}

// Makes all bytes zero.
pub fn wipe(s: &mut [u8])
    ensures { s.new ≡ zeros (length s.old) }
{
    s.fill(0);
}

// Makes the place an empty table.
pub fn clear(s: &mut [u8])
    requires { length s.old ≡ place_size }
    ensures { s.new ≡ table_bytes [] }
{
    wipe(s);
    number::put_u16(s, 0, limits::TABLE_HEAD as u16);
    number::put_u16(s, 2, limits::TABLE);
}

// Writes a whole place into the area from `start` on; the rest of the area stays.
pub fn write_place(area: &mut [u8], start: usize, table: &[u8])
    requires { (start + place_size ≤ length area.old) × (length table.now ≡ place_size) }
    ensures { area.new ≡ sets area.old start table.now }
{
    copy(&mut area[start..start + limits::PLACE_SIZE], 0, table);
}

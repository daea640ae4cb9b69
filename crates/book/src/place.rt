// The bytes of one place in the area.
ghost use Rattle.std.specs.Prelude.{◌≡◌, ◌+◌, ◌*◌, ◌≤◌, length};
ghost use Rattle.table.specs.Limits.{place_size};
ghost use Rattle.table.specs.Table.{place_of};

use table::limits;

pub fn bytes_of(area: &[u8], p: usize) -> &[u8]
    requires { (p + 1) * place_size ≤ length area.now }
    ensures { (result.now ≡ place_of area.now p) × (length result.now ≡ place_size) }
{
    let at = p * limits::PLACE_SIZE;
    &area[at..at + limits::PLACE_SIZE]
}

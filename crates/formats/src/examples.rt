// The examples: each function gives just the bytes of a definition.
ghost use Rattle.std.specs.Prelude.{◌≡◌, ◌+◌, ◌*◌, ◌^◌, length};
ghost use Rattle.table.specs.Limits.{place_size};
ghost use Rattle.table.specs.Entry.{entry_bytes};
ghost use Rattle.table.specs.Table.{table_bytes};
ghost use Rattle.formats.specs.Examples.{a_under5, mark_under7, the_two};

use coding::key::Key;
use table::limits;
use table_builder::{append, place};

// The key of line 3 at 1,250 mm.
pub fn key() -> u64
    ensures { result ≡ 3 * 2 ^ 40 + 1250 }
{
    Key::of(3, 1250).unwrap().value
}

// The value "A" under key 5.
pub fn value(out: &mut [u8])
    requires { length out.old ≡ 13 }
    ensures { out.new ≡ entry_bytes a_under5 }
{
    append::put_entry(out, 0, limits::VALUE, Key { value: 5 }, b"A");
}

// The delete mark under key 7.
pub fn mark(out: &mut [u8])
    requires { length out.old ≡ 12 }
    ensures { out.new ≡ entry_bytes mark_under7 }
{
    append::put_entry(out, 0, limits::DELETE_MARK, Key { value: 7 }, b"");
}

// The table of the two.
pub fn two(place: &mut [u8])
    requires { length place.old ≡ place_size }
    ensures { place.new ≡ table_bytes the_two }
{
    place::clear(place);
    append::append(place, limits::VALUE, Key { value: 5 }, b"A");
    append::append(place, limits::DELETE_MARK, Key { value: 7 }, b"");
}

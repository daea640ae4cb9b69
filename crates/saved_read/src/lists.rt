// The four lists, each in its part of the lent lists: its items, then zeros.
ghost use Rattle.std.specs.Prelude.{◌≡◌, true, ◌++◌, ◌+◌, ◌*◌, ◌-◌, ◌≤◌, length};
ghost use Rattle.coding.specs.Number.{number_at};
ghost use Rattle.table.specs.Table.{zeros};
ghost use Rattle.ldc.specs.Layout.{level_count};
ghost use Rattle.saved_book.specs.Form.{places_saved, list_end, saved_form, lists_start};
ghost use Rattle.saved_book.specs.Opened.{items_saved, opened_lists};

use book::limits::LEVELS;
use coding::number;
use saved_form::layout;

// Reads the items of a part, the first of which stands in the bytes at a position.
fn read_items(s: &[u8], at: usize, part: &mut [u16])
    requires { at + 2 * length part.old ≤ length s.now }
    ensures { part.new ≡ items_saved (length part.old) s.now at }
{
    for (i, item) in part.iter_mut().enumerate() {
        *item = number::get_u16(s, at + layout::NUMBER * i);
    }
}

// Reads the list at a position into its part.
fn read_list(s: &[u8], at: usize, part: &mut [u16])
    requires { (list_end s.now at ≤ length s.now) × (number_at 2 s.now at ≤ length part.old) }
    ensures { part.new
        ≡ items_saved (number_at 2 s.now at) s.now (at + 2)
        ++ zeros (length part.old - number_at 2 s.now at) }
{
    let n = usize::from(number::get_u16(s, at));
    read_items(s, at + layout::NUMBER, &mut part[..n]);
    part[n..].fill(0);
}

// Where the list at a position ends.
pub fn list_end(s: &[u8], at: usize) -> usize
    requires { list_end s.now at ≤ length s.now }
    ensures { result ≡ list_end s.now at }
{
    at + layout::NUMBER + layout::NUMBER * usize::from(number::get_u16(s, at))
}

// The four lists, over so many places each; `at` is where they begin in the bytes.
pub fn read_lists(s: &[u8], at: usize, places: usize, lists: &mut [u16])
    requires { (saved_form s.now ≡ true)
        × ((at ≡ lists_start s.now)
        × ((length lists.old ≡ level_count * places) × (places_saved s.now ≤ places))) }
    ensures { lists.new ≡ opened_lists places s.now }
{
    let mut from = at;
    for level in 0..LEVELS {
        let start = level * places;
        read_list(s, from, &mut lists[start..start + places]);
        from = list_end(s, from);
    }
}

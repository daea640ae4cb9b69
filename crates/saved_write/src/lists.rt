// The four level lists of a saved book, each after its count.
ghost use Rattle.std.specs.Prelude.{◌≡◌, ◌+◌, ◌*◌, ◌≤◌, ◌<◌, length};
ghost use Rattle.ldc.specs.Layout.{level_count, length_in, items_in};
ghost use Rattle.saved_book.specs.Saved.{list_bytes};
ghost use Rattle.saved_write.specs.Book.{ListsFit, lists_bytes};
ghost use Rattle.saved_write.specs.Put.{Puts};

use super::fields;
use book::head::HeadWords;
use book::limits::LEVELS;
use book::list;
use saved_form::layout;
use wire::reply;

fn put_items(out: &mut [u8], at: usize, items: &[u16]) -> usize
    requires { at + length (list_bytes items.now) ≤ length out.old }
    ensures { Puts out at (list_bytes items.now) result }
{
    let start = fields::put_number(out, at, items.len() as u64);
    reply::put_numbers(out, start, items);
    start + layout::NUMBER * items.len()
}

// Level n's list.
fn put_list(
    out: &mut [u8],
    at: usize,
    lists: &[u16],
    places: usize,
    head: &HeadWords,
    n: usize,
) -> usize
    requires { (length lists.now ≡ level_count * places)
        × ((length_in head.now n ≤ places)
        × ((n < level_count) × (at + length (list_bytes (items_in places lists.now head.now n)) ≤ length out.old))) }
    ensures { Puts out at (list_bytes (items_in places lists.now head.now n)) result }
{
    let len = list::length(head, n);
    put_items(out, at, list::items(lists, places, len, n))
}

pub fn put_lists(out: &mut [u8], at: usize, lists: &[u16], places: usize, head: &HeadWords) -> usize
    requires { (length lists.now ≡ level_count * places)
        × (ListsFit places head.now
        × (at + length (lists_bytes places lists.now head.now) ≤ length out.old)) }
    ensures { Puts out at (lists_bytes places lists.now head.now) result }
{
    let mut to = at;
    for n in 0..LEVELS {
        to = put_list(out, to, lists, places, head, n);
    }
    to
}

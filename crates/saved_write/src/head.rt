// The head of a saved book: kind, P, T, cursor, and flag and key of each mark.
ghost use Rattle.std.specs.Prelude.{◌≡◌, true, ◌++◌, map, ◌+◌, ◌*◌, ◌≤◌, length};
ghost use Rattle.ldc.specs.Lists.{flat};
ghost use Rattle.ldc.specs.Layout.{marks_of, marks_good};
ghost use Rattle.saved_book.specs.Saved.{number_bytes, key_bytes, mark_bytes};
ghost use Rattle.saved_write.specs.Book.{head_bytes, mark_width, head_width};
ghost use Rattle.saved_write.specs.Put.{Puts};

use super::fields;
use book::head;
use book::head::HeadWords;
use saved_form::layout;

fn put_mark(out: &mut [u8], at: usize, flag: u64, key: u64) -> usize
    requires { at + mark_width ≤ length out.old }
    ensures { Puts out at (number_bytes flag ++ key_bytes key) result }
{
    let flag_end = fields::put_number(out, at, flag);
    fields::put_key(out, flag_end, key)
}

// The marks of level 1 and level 2.
fn put_marks(out: &mut [u8], at: usize, head: &HeadWords) -> usize
    requires { (marks_good head.now ≡ true) × (at + 2 * mark_width ≤ length out.old) }
    ensures { Puts out at (flat (map mark_bytes (marks_of head.now))) result }
{
    let next = put_mark(out, at, head[head::FLAG1], head[head::KEY1]);
    put_mark(out, next, head[head::FLAG2], head[head::KEY2])
}

pub fn put_head(out: &mut [u8], at: usize, places: usize, head: &HeadWords) -> usize
    requires { (marks_good head.now ≡ true) × (at + head_width ≤ length out.old) }
    ensures { Puts out at (head_bytes places head.now) result }
{
    let kind_end = fields::put_number(out, at, u64::from(layout::SAVED_KIND));
    let places_end = fields::put_number(out, kind_end, places as u64);
    let threshold_end = fields::put_number(out, places_end, head[head::THRESHOLD]);
    let cursor_end = fields::put_number(out, threshold_end, head[head::CURSOR]);
    put_marks(out, cursor_end, head)
}

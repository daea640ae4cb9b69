// Changing a level's list: its part of the lent lists, and its length in the head.
ghost use Rattle.std.specs.Prelude.{◌≡◌, [], ◌∷◌, ◌++◌, suc, ◌+◌, ◌≤◌, ◌<◌, eqb, length};
ghost use Rattle.ldc.specs.Lists.{how_many};
ghost use Rattle.ldc.specs.Steps.{replaced};
ghost use Rattle.ldc.specs.Layout.{length_in, items_in};
ghost use Rattle.book.specs.Head.{head_words};
ghost use Rattle.book_edit.specs.Level.{Listing, Relisted};

use super::items;
use book::head::Head;

// Puts a place behind the last of level n's list, whose part has so many items.
pub fn join(lists: &mut [u16], size: usize, head: Head, n: usize, p: u16) -> Head
    requires { Listing n size lists.old (head_words head) × (length_in (head_words head) n < size) }
    ensures { Relisted n size (items_in size lists.old (head_words head) n ++ p ∷ [])
        lists.old (head_words head) lists.new (head_words result) }
{
    let old = head.length_of(n);
    let start = n * size;
    items::append(&mut lists[start..start + size], old, p);
    head.with_length(n, old + 1)
}

// Replaces a place in level n's list by several, or by none.
pub fn replace(lists: &mut [u16], size: usize, head: Head, n: usize, p: u16, items: &[u16]) -> Head
    requires { Listing n size lists.old (head_words head)
        × ((1 ≤ how_many (eqb p) (items_in size lists.old (head_words head) n))
        × (length_in (head_words head) n + length items.now ≤ suc size)) }
    ensures { Relisted n size (replaced p items.now (items_in size lists.old (head_words head) n))
        lists.old (head_words head) lists.new (head_words result) }
{
    let old = head.length_of(n);
    let start = n * size;
    let part = &mut lists[start..start + size];
    let i = items::index(part, old, p).unwrap();
    items::replace(part, old, i, items);
    head.with_length(n, old + items.len() - 1)
}

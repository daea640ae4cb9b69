// How many bytes the cards, the lists and the memory entries of a saved book have.
ghost use Rattle.std.specs.Prelude.{◌≡◌, ◌+◌, ◌*◌, ◌≤◌, length};
ghost use Rattle.table.specs.Limits.{place_size};
ghost use Rattle.table.specs.Table.{entries, MemoryPlace};
ghost use Rattle.ldc.specs.Layout.{most_places, level_count, link_limit, length_in};
ghost use Rattle.saved_book.specs.Saved.{memory_bytes};
ghost use Rattle.saved_book.specs.Form.{card_head, link_width};
ghost use Rattle.saved_write.specs.Book.{ListsFit, cards_bytes};

use book::head::HeadWords;
use book::limits::LEVELS;
use book::row::Row;
use book::{list, row};
use saved_form::layout;
use table::{entry, limits};

pub fn cards_length(cards: &[Row]) -> usize
    requires { length cards.now ≤ most_places }
    ensures { (result ≡ length (cards_bytes cards.now))
        × (result ≤ (card_head + link_width * link_limit) * most_places) }
{
    let mut n = 0;
    for row in cards {
        n += layout::CARD_HEAD + layout::LINK * row::links_held(row);
    }
    n
}

// Four counts and the items of the lists.
pub fn lists_length(head: &HeadWords) -> usize
    requires { ListsFit most_places head.now }
    ensures { (result
        ≡ 2 * (level_count + (length_in head.now 0 + length_in head.now 1
        + length_in head.now 2 + length_in head.now 3)))
        × (result ≤ 2 * (level_count + level_count * most_places)) }
{
    layout::NUMBER
        * (LEVELS
            + (list::length(head, 0)
                + list::length(head, 1)
                + list::length(head, 2)
                + list::length(head, 3)))
}

pub fn memory_length(memory: &[u8]) -> usize
    requires { MemoryPlace memory.now }
    ensures { (result ≡ length (memory_bytes (entries memory.now))) × (result ≤ place_size) }
{
    layout::NUMBER + (usize::from(entry::length_at(memory, 0)) - limits::TABLE_HEAD)
}

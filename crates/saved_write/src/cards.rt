// The cards of a saved book: state, link count, then place, low, high and number of each link.
ghost use Rattle.std.specs.Prelude.{◌≡◌, true, map, ◌+◌, ◌≤◌, length};
ghost use Rattle.ldc.specs.Lists.{flat};
ghost use Rattle.ldc.specs.Lent.{row_good};
ghost use Rattle.ldc.specs.Layout.{card_of};
ghost use Rattle.book.specs.Row.{the_link, links_in};
ghost use Rattle.saved_book.specs.Saved.{link_bytes, card_bytes};
ghost use Rattle.saved_book.specs.Form.{link_width};
ghost use Rattle.saved_write.specs.Book.{RowsGood, cards_bytes};
ghost use Rattle.saved_write.specs.Put.{Puts};

use super::fields;
use book::row;
use book::row::{Link, Row};

fn put_link(out: &mut [u8], at: usize, link: Link) -> usize
    requires { at + link_width ≤ length out.old }
    ensures { Puts out at (link_bytes (the_link link)) result }
{
    let place_end = fields::put_number(out, at, link.place as u64);
    let low_end = fields::put_key(out, place_end, link.low.value);
    let high_end = fields::put_key(out, low_end, link.high.value);
    fields::put_number(out, high_end, link.number)
}

fn put_links(out: &mut [u8], at: usize, row: &Row) -> usize
    requires { at + length (flat (map link_bytes (links_in row.now))) ≤ length out.old }
    ensures { Puts out at (flat (map link_bytes (links_in row.now))) result }
{
    let mut to = at;
    for i in 0..row::links_held(row) {
        to = put_link(out, to, row::link_at(row, i));
    }
    to
}

fn put_card(out: &mut [u8], at: usize, row: &Row) -> usize
    requires { (row_good row.now ≡ true) × (at + length (card_bytes (card_of row.now)) ≤ length out.old) }
    ensures { Puts out at (card_bytes (card_of row.now)) result }
{
    let state_end = fields::put_number(out, at, row::state(row));
    let count_end = fields::put_number(out, state_end, row::links_held(row) as u64);
    put_links(out, count_end, row)
}

pub fn put_cards(out: &mut [u8], at: usize, cards: &[Row]) -> usize
    requires { RowsGood cards.now × (at + length (cards_bytes cards.now) ≤ length out.old) }
    ensures { Puts out at (cards_bytes cards.now) result }
{
    let mut to = at;
    for row in cards {
        to = put_card(out, to, row);
    }
    to
}

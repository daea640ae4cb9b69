// The cards as a lent slice of structs, one for each place, as a C program sees them.
//
// `read_card` and `change_card` are the two that reach a card; `load` and `unload` carry all of them to the rows of words that the store works
// on, and back.
#![tactic(auto)]

ghost use Rattle.std.specs.Prelude.{◌≡◌, [], ◌<◌, length, get_or, set};
ghost use Rattle.store_cards.specs.Card.{no_card, words_of, rows_of};

use book::limits::LINK_LIMIT;
use book::row;
use book::row::{Link, Row};
use summary::filter;
use summary::filter::SUMMARY_BYTES;

// A card: its state, how many links it has, the links, oldest first, and the summary of its table. Any numbers at all may be lent.
#[derive(Clone, Copy)]
pub struct Card {
    pub state: u64,
    pub count: u64,
    pub links: [Link; LINK_LIMIT],
    pub summary: [u8; SUMMARY_BYTES],
}

// The card of a place.
pub fn read_card(cards: &[Card], p: usize) -> Card
    requires { p < length cards.now }
    ensures { result ≡ get_or cards.now p no_card }
{
    cards[p]
}

// Changes the card of a place; all others stay.
pub fn change_card(cards: &mut [Card], p: usize, card: Card)
    requires { p < length cards.old }
    ensures { cards.new ≡ set cards.old p card }
{
    cards[p] = card;
}

// The words of a card.
pub fn words_of(card: Card) -> Row
    ensures { result ≡ words_of card }
{
    let [l0, l1, l2, l3, l4, l5, l6, l7] = card.links;
    let [s0, s1, s2, s3] = filter::words_of(&card.summary);
    [
        card.state,
        card.count,
        l0.place as u64,
        l0.low.value,
        l0.high.value,
        l0.number,
        l1.place as u64,
        l1.low.value,
        l1.high.value,
        l1.number,
        l2.place as u64,
        l2.low.value,
        l2.high.value,
        l2.number,
        l3.place as u64,
        l3.low.value,
        l3.high.value,
        l3.number,
        l4.place as u64,
        l4.low.value,
        l4.high.value,
        l4.number,
        l5.place as u64,
        l5.low.value,
        l5.high.value,
        l5.number,
        l6.place as u64,
        l6.low.value,
        l6.high.value,
        l6.number,
        l7.place as u64,
        l7.low.value,
        l7.high.value,
        l7.number,
        s0,
        s1,
        s2,
        s3,
    ]
}

// The card of a row of words.
pub fn card_of(row: Row) -> Card
    ensures { words_of result ≡ row }
{
    let summary = filter::bytes_of(
        row[row::SUMMARY],
        row[row::SUMMARY + 1],
        row[row::SUMMARY + 2],
        row[row::SUMMARY + 3],
    );
    Card {
        state: row::state(&row),
        count: row::link_count(&row),
        links: [
            row::link_at(&row, 0),
            row::link_at(&row, 1),
            row::link_at(&row, 2),
            row::link_at(&row, 3),
            row::link_at(&row, 4),
            row::link_at(&row, 5),
            row::link_at(&row, 6),
            row::link_at(&row, 7),
        ],
        summary,
    }
}

// Writes a card's words into its row.
pub fn put_row(rows: &mut [Row], p: usize, card: Card)
    requires { p < length rows.old }
    ensures { rows.new ≡ set rows.old p (words_of card) }
{
    rows[p] = words_of(card);
}

// The card of a row among others.
pub fn card_at(rows: &[Row], p: usize) -> Card
    requires { p < length rows.now }
    ensures { words_of result ≡ get_or rows.now p [] }
{
    card_of(rows[p])
}

// Carries all cards to rows of words.
pub fn load(cards: &[Card], rows: &mut [Row])
    requires { length rows.old ≡ length cards.now }
    ensures { rows.new ≡ rows_of cards.now }
{
    for p in 0..cards.len() {
        put_row(rows, p, read_card(cards, p));
    }
}

// Carries rows of words back to the cards.
pub fn unload(cards: &mut [Card], rows: &[Row])
    requires { length rows.now ≡ length cards.old }
    ensures { rows_of cards.new ≡ rows.now }
{
    for p in 0..rows.len() {
        change_card(cards, p, card_at(rows, p));
    }
}

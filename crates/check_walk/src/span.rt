// Spans: a table's span runs from the least to the greatest of its own keys and its links' range ends.
ghost use Rattle.std.specs.Prelude.{◌≡◌};
ghost use Rattle.table.specs.Table.{TablePlace, entries};
ghost use Rattle.table.specs.Search.{least_key, greatest_key};
ghost use Rattle.ldc.specs.Store.{least_end, greatest_end, span_start, span_end};
ghost use Rattle.ldc.specs.Rules.{spans_rise};
ghost use Rattle.book.specs.Rows.{shown_by};
ghost use Rattle.book.specs.Row.{links_in};
ghost use Rattle.check_walk.specs.Links.{SpanKnown, Readable};

use book::row::Row;
use book::{place, row};
use coding::key::Key;
use table::search;

#[derive(Clone, Copy)]
pub struct Span {
    pub start: Key,
    pub end: Key,
}

// The span of the table in a place with this row, `last` being its greatest key.
fn measure(place: &[u8], last: Key, row: &Row) -> Span
    requires { TablePlace place.now × (last.value ≡ greatest_key (entries place.now)) }
    ensures { (result.start.value ≡ least_end (least_key (entries place.now)) (links_in row.now))
        × (result.end.value ≡ greatest_end (greatest_key (entries place.now)) (links_in row.now)) }
{
    let mut start = search::least(place);
    let mut end = last;
    for j in 0..row::links_held(row) {
        let l = row::link_at(row, j);
        start = start.min(l.low.min(l.high));
        end = end.max(l.low.max(l.high));
    }
    Span { start, end }
}

// The span of the table in the place p.
fn span_at(area: &[u8], cards: &[Row], ends: &[u64], p: usize) -> Span
    requires { SpanKnown area.now cards.now ends.now p }
    ensures { (result.start.value ≡ span_start (shown_by area.now cards.now) p)
        × (result.end.value ≡ span_end (shown_by area.now cards.now) p) }
{
    let last = Key { value: ends[p] };
    measure(place::bytes_of(area, p), last, &cards[p])
}

// Do the spans of the tables of a list rise? Their greatest keys are noted.
pub fn rise(area: &[u8], cards: &[Row], ends: &[u64], items: &[u16]) -> bool
    requires { Readable area.now cards.now ends.now items.now }
    ensures { result ≡ spans_rise (shown_by area.now cards.now) items.now }
{
    let [first, rest @ ..] = items else {
        return true;
    };
    let mut end = span_at(area, cards, ends, usize::from(*first)).end;
    for &p in rest {
        let span = span_at(area, cards, ends, usize::from(p));
        if span.start <= end {
            return false;
        }
        end = span.end;
    }
    true
}

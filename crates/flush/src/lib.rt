// Flush: the memory table is written to a place, newest on level 0, and emptied.
#![tactic(auto)]

ghost use Rattle.std.specs.Prelude.{◌≡◌};
ghost use Rattle.ldc.specs.Lent.{store_of, lent_of};
ghost use Rattle.ldc.specs.Place.{serve_flush};
ghost use Rattle.book.specs.Pieces.{given, held, left};
ghost use Rattle.read.specs.Shown.{Writable};

use book::head::Head;
use book::row::Row;
use book_edit::{level, write};
use book_places::free;
use table::search;
use table_builder::place;
use wire::results;

// What a flush gives: its result, and the head after it.
#[derive(Clone, Copy)]
pub struct Flushed {
    pub result: u16,
    pub head: Head,
}

// Flushes the memory table of a kept store. 65 if it is empty, 20 if no place is free; with both nothing changes.
pub fn flush(
    area: &mut [u8],
    cards: &mut [Row],
    lists: &mut [u16],
    head: Head,
    memory: &mut [u8],
) -> Flushed
    requires { Writable (given area.old cards.old lists.old head memory.old) }
    ensures { (result.result ≡ (serve_flush (store_of (held area.old cards.old lists.old head memory.old))).result)
        × (left area cards lists result.head memory
        ≡ lent_of (serve_flush (store_of (held area.old cards.old lists.old head memory.old))).store) }
{
    if search::count(memory) == 0 {
        return Flushed {
            result: results::NOTHING_TO_DO,
            head,
        };
    }
    if !free::free_at_least(cards, 1) {
        return Flushed {
            result: results::NO_ROOM,
            head,
        };
    }
    let taken = write::write_table(area, cards, head, memory);
    let changed = taken.head;
    let joined = level::join(lists, cards.len(), changed, 0, taken.place as u16);
    place::clear(memory);
    Flushed {
        result: results::DONE,
        head: joined,
    }
}

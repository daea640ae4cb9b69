// Saving: the book of a sound store as bytes.
ghost use Rattle.std.specs.Prelude.{◌≡◌, length};
ghost use Rattle.table.specs.Limits.{place_size};
ghost use Rattle.ldc.specs.Run.{letter_of};
ghost use Rattle.book.specs.Pieces.{before};
ghost use Rattle.saved_book.specs.Calls.{saving, save_book};
ghost use Rattle.std.specs.Result.{result_unwrap_or};
ghost use Rattle.wire.specs.Refusal.{number_of, letter_in};

use book::head::HeadWords;
use book::row::Row;
use table::limits::PlaceBytes;
use wire::refusal::Refusal;

// A memory table has as many bytes as its type says: said for the proof, with nothing left to do at run time.
fn memory_long(memory: &PlaceBytes)
    ensures { length memory.now ≡ place_size }
{
    let _bytes = &memory[..];
}

// Writes the book's bytes to the front of the buffer, and gives their number: refused with 1, 5 or 3, in this order, nothing written. Bytes of
// the buffer beyond the saved length are untouched.
pub fn save(
    area: &[u8],
    cards: &[Row],
    lists: &[u16],
    head: &HeadWords,
    memory: &PlaceBytes,
    buffer: &mut [u8],
) -> Result<usize, Refusal>
    ensures { (saving (number_of result) (result_unwrap_or result 0) buffer.new
        ≡ save_book (before area.now cards.now lists.now head.now memory.now) buffer.old)
        × (letter_in result ≡ letter_of (before area.now cards.now lists.now head.now memory.now) (number_of result)) }
{
    check_store::check(area, cards, lists, head, memory)?;
    memory_long(memory);
    let whole = saved_write::length_of(cards, head, memory);
    if buffer.len() < whole {
        return Err(Refusal::ShortAnswer);
    }
    saved_write::write(cards, lists, head, memory, buffer);
    Ok(whole)
}

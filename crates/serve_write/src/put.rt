// Put and delete, whose reply has no body.
ghost use Rattle.std.specs.Prelude.{◌≡◌, true, [], ◌+◌, ◌≤◌, length};
ghost use Rattle.table.specs.Limits.{place_size};
ghost use Rattle.table.specs.Entry.{entry_form};
ghost use Rattle.table.specs.Table.{is_memory};
ghost use Rattle.ldc.specs.Request.{reply_bytes, key_size, request_head_size};
ghost use Rattle.memtable.specs.Put.{put_in};
ghost use Rattle.wire.specs.Reply.{Room, Wrote};
ghost use Rattle.serve_write.specs.Turn.{entry_in};

use wire::{body, reply};

// Puts what a body says under its key, kind 1 a value, kind 2 a delete mark, and writes the reply.
pub fn put(memory: &mut [u8], kind: u16, body: &[u8], answer: &mut [u8], at: usize) -> usize
    requires { (length memory.old ≡ place_size)
        × ((is_memory memory.old ≡ true)
        × ((key_size ≤ length body.now) × ((entry_form kind (request_head_size + length body.now) ≡ true) × Room answer.old at))) }
    ensures { (memory.new ≡ (put_in (entry_in kind body.now) memory.old).bytes)
        × Wrote answer at (reply_bytes kind (put_in (entry_in kind body.now) memory.old).result []) result }
{
    let key = body::key_at(body, 0);
    let result = memtable::put::put(memory, kind, key, &body[body::KEY..]);
    reply::answer_bare(answer, at, kind, result)
}

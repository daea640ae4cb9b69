// Writing replies: length, the request's kind, result, body.
ghost use Rattle.std.specs.Prelude.{◌≡◌, ◌+◌, ◌*◌, ◌≤◌, ◌<◌, length, []};
ghost use Rattle.std.proofs.lemmas.List.Edits.{sets};
ghost use Rattle.wire.specs.Reply.{reply_head, numbers, Room, Wrote};
ghost use Rattle.ldc.specs.Request.{reply_bytes, reply_head_size};

use coding::number;

// The bytes of a reply before its body.
pub const REPLY_HEAD: usize = 6;

// No reply is longer. It is the shortest answer buffer too: a run stops before a request when fewer bytes remain.
pub const ROOM: usize = 1024;

// Writes the six bytes before a body of so many bytes.
pub fn write_head(answer: &mut [u8], at: usize, kind: u16, res: u16, body: usize)
    requires { (at + reply_head_size ≤ length answer.old) × (reply_head_size + body < 65536) }
    ensures { answer.new ≡ sets answer.old at (reply_head kind res body) }
{
    number::put_u16(answer, at, (REPLY_HEAD + body) as u16);
    number::put_u16(answer, at + 2, kind);
    number::put_u16(answer, at + 4, res);
}

// Writes numbers of two bytes, one after the other.
pub fn put_numbers(answer: &mut [u8], at: usize, ns: &[u16])
    requires { at + 2 * length ns.now ≤ length answer.old }
    ensures { answer.new ≡ sets answer.old at (numbers ns.now) }
{
    for (i, &n) in ns.iter().enumerate() {
        number::put_u16(answer, at + 2 * i, n);
    }
}

// Writes a reply of six bytes, and gives their number.
pub fn answer_bare(answer: &mut [u8], at: usize, kind: u16, res: u16) -> usize
    requires { Room answer.old at }
    ensures { Wrote answer at (reply_bytes kind res []) result }
{
    write_head(answer, at, kind, res, 0);
    REPLY_HEAD
}

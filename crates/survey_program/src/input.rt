// Reading all of an input.
ghost use Rattle.std.specs.Prelude.{◌≡◌, ◌+◌, ◌<◌, ◌≤◌, IfOk, IfErr, OnErr, length, take, drop};
ghost use Rattle.std.specs.Io.KnownBytes.{Consumes, IsAtEnd, Keeps};

use std::io;
use std::io::Read;

// A read failed: how many bytes had come before it, and why it failed.
#[derive(Clone, Copy)]
pub struct ReadError {
    pub length: usize,
    pub error: io::Error,
}

// One read into a buffer, from a position on. It may bring fewer bytes than there is room for, and brings none at the end.
fn read_some<R: Read>(from: &mut R, buffer: &mut [u8], at: usize) -> io::Result<usize>
    requires { at ≤ length buffer.old }
    ensures within { IfOk result (λ n. at + n ≤ length buffer.old) }
    ensures before { take at buffer.new ≡ take at buffer.old }
    ensures read { IfOk result (λ n. Consumes (R.remaining from.old) (R.remaining from.new) (take n (drop at buffer.new))) }
    ensures failed { OnErr result (Keeps (R.remaining from.old) (R.remaining from.new)) }
    ensures ended { IfOk result (λ n. n ≡ 0 → at < length buffer.old → IsAtEnd (R.remaining from.new)) }
{
    from.read(&mut buffer[at..])
}

// Reads until the input ends, the buffer is full or a read fails; the bytes stand at the buffer's front. Of a reader whose bytes are known, as one of
// memory, they are those that it had first, and unless a read failed all of them, where the buffer is not full.
pub fn read_all<R: Read>(from: &mut R, buffer: &mut [u8]) -> Result<usize, ReadError>
    ensures within { IfOk result (λ n. n ≤ length buffer.old) }
    ensures read { IfOk result (λ n. Consumes (R.remaining from.old) (R.remaining from.new) (take n buffer.new)) }
    ensures ended { IfOk result (λ n. n < length buffer.old → IsAtEnd (R.remaining from.new)) }
    ensures failed_within { IfErr result (λ e. e.length ≤ length buffer.old) }
    ensures failed_read { IfErr result (λ e. Consumes (R.remaining from.old) (R.remaining from.new) (take e.length buffer.new)) }
{
    let mut at = 0;
    while at < buffer.len() {
        match read_some(from, buffer, at) {
            Ok(0) => return Ok(at),
            Ok(n) => at += n,
            Err(error) => return Err(ReadError { length: at, error }),
        }
    }
    Ok(at)
}

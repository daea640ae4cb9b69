// The body of a request by a reading: line (4 bytes), form (2) and reading (form 0: 8 bytes of millimetres; form 1: 4 bytes of float).
ghost use Rattle.std.specs.Prelude.{◌≡◌, true};
ghost use Rattle.reading.specs.Body.{length_good, keys_of, keys_in};

use super::interval::{Reading, Refused};
use super::{float, interval};
use coding::key::Key;
use coding::{key, number};

// The keys of a reading on a line, from the first to the second, both included.
#[derive(Clone, Copy, PartialEq, Eq)]
pub struct KeyRange {
    pub low: Key,
    pub high: Key,
}

// Where the parts of a body begin, and where it ends in each form.
const LINE: usize = 0;

const FORM: usize = 4;

const READING: usize = 6;

const MILLIMETRES_END: usize = READING + 8;

const KILOMETRES_END: usize = READING + 4;

// The forms of a reading. Others do not exist.
const MILLIMETRES: u16 = 0;

const KILOMETRES: u16 = 1;

// Number 17: has the body the length of its form? A form that does not exist may have either length.
pub fn length_good(body: &[u8]) -> bool
    ensures { result ≡ length_good body.now }
{
    let len = body.len();
    if len == MILLIMETRES_END {
        return number::get_u16(body, FORM) != KILOMETRES;
    }
    if len == KILOMETRES_END {
        return number::get_u16(body, FORM) != MILLIMETRES;
    }
    false
}

// The keys of a reading on a line.
#[tactic(auto, using(crate::proofs::Bodies::no_line))]
pub fn keys_of(line: u32, reading: Reading) -> Result<KeyRange, Refused>
    ensures { result ≡ keys_of line reading }
{
    if line >= key::LINES {
        return Err(Refused::OutOfRange);
    }
    let millimetres = interval::interval_of(reading)?;
    Ok(KeyRange {
        low: Key::on(line, millimetres.low),
        high: Key::on(line, millimetres.high),
    })
}

// The keys of the reading in a body whose length is good.
pub fn keys_in(body: &[u8]) -> Result<KeyRange, Refused>
    requires { length_good body.now ≡ true }
    ensures { result ≡ keys_in body.now }
{
    let line = number::get_u32(body, LINE);
    match number::get_u16(body, FORM) {
        MILLIMETRES => keys_of(line, Reading::Millimetres(number::get_u64(body, READING))),
        KILOMETRES => keys_of(
            line,
            Reading::Kilometres(float::float_of(number::get_u32(body, READING))),
        ),
        _ => Err(Refused::OutOfRange),
    }
}

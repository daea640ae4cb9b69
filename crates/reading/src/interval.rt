// The whole millimetres that a reading stands for.
//
// f32 comparisons refuse a float; the bits of one that is left give the two ends, over whole numbers.
ghost use Rattle.std.specs.Prelude.{◌≡◌, cond, ◌≤◌, eqb};
ghost use Rattle.reading.specs.Reading.{farthest, float_interval, interval_of};

use super::float;
use coding::key;

// A distance along a line, as a crawler gives it.
#[derive(Clone, Copy)]
pub enum Reading {
    Millimetres(u64),
    Kilometres(f32),
}

// The millimetres of a reading, from the first to the second, both included.
#[derive(Clone, Copy, PartialEq, Eq)]
pub struct Interval {
    pub low: u64,
    pub high: u64,
}

// Why a reading has none.
#[derive(Clone, Copy, PartialEq, Eq)]
pub enum Refused {
    // Millimetres of more than 40 bits, or a float below nought, above 4,096 kilometres or not a number. In a request's body also a line
    // of more than 24 bits, or a form that does not exist.
    OutOfRange,
    // No whole millimetre rounds to the float.
    NoMillimetre,
}

// As many fractions as 23 bits tell apart. This number plus its fraction is a float's significand.
const FRACTIONS: u32 = 0x80_0000;

// The least exponent of a float that a millimetre may round to: below it even half way to the next float is less than one.
const LEAST_EXPONENT: u32 = 107;

// A million, the millimetres of a kilometre, is this number times 2^6.
const ODD_PART: u64 = 15625;

// A millimetre is 2 to the power of this number less the exponent, in quarters of a float's last place, each taken `ODD_PART` times.
const MILLIMETRE: u32 = 146;

// How far below a float half the way to the next one is, in quarters of its last place: below a power of two the floats lie twice as
// close.
fn quarters_below(fraction: u32) -> u64
    ensures { result ≡ cond (eqb fraction 0) 1 2 }
{
    if fraction == 0 { 1 } else { 2 }
}

// The millimetres of a float from 0 to 4,096 kilometres, by its bits.
pub fn float_interval(bits: u32) -> Result<Interval, Refused>
    requires { bits ≤ farthest }
    ensures { result ≡ float_interval bits }
{
    if bits == 0 {
        return Ok(Interval { low: 0, high: 0 });
    }
    let exponent = bits / FRACTIONS;
    let fraction = bits % FRACTIONS;
    if exponent < LEAST_EXPONENT {
        return Err(Refused::NoMillimetre);
    }
    let quarters = 4 * u64::from(FRACTIONS + fraction);
    let lower = (quarters - quarters_below(fraction)) * ODD_PART;
    let upper = (quarters + 2) * ODD_PART;
    // A tie goes to the even float, so an odd one has neither half way.
    let odd = u64::from(bits % 2);
    let shift = MILLIMETRE - exponent;
    let low = ((lower - 1 + odd) >> shift) + 1;
    let high = (upper - odd) >> shift;
    if low <= high {
        Ok(Interval { low, high })
    } else {
        Err(Refused::NoMillimetre)
    }
}

// The millimetres of a reading. Minus zero, which no comparison refuses, reads as zero without its sign.
pub fn interval_of(reading: Reading) -> Result<Interval, Refused>
    ensures { result ≡ interval_of reading }
{
    match reading {
        Reading::Millimetres(m) => {
            if m < key::DISTANCES {
                Ok(Interval { low: m, high: m })
            } else {
                Err(Refused::OutOfRange)
            }
        }
        Reading::Kilometres(x) => {
            if (x < 0.0) | (x > 4096.0) | (x != x) {
                Err(Refused::OutOfRange)
            } else {
                float_interval(f32::to_bits(x) % float::SIGN)
            }
        }
    }
}

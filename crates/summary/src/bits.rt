// The three bits of a key: the exclusive or of its eight bytes, their sum, and the sum of byte i times i + 1, modulo 256.
//
// Each is worked out for several bytes at a time. The even bytes of a key, and its odd ones, stand in four lanes of 16 bits, so that
// sums of a few bytes stay within their lanes.
ghost use Rattle.std.specs.Prelude.{◌≡◌, ℕ, ◌+◌};
ghost use Rattle.summary.specs.Bits.{exclusive_bit, sum_bit, weighed_bit};
ghost use Rattle.summary.specs.Lanes.{Lanes};

use coding::key::Key;

// The numbers of a key's three bits, each below 256. They may coincide.
#[derive(Clone, Copy)]
pub struct KeyBits {
    pub exclusive: usize,
    pub sum: usize,
    pub weighed: usize,
}

// The lower byte of each lane.
const LOW_BYTES: u64 = 0x00ff_00ff_00ff_00ff;

// The exclusive or of the bytes: of the halves, then of the quarters, then of their bytes.
fn exclusive_bit(key: u64) -> usize
    ensures { result ≡ exclusive_bit key }
{
    let half = key ^ (key >> 32);
    let quarter = half ^ (half >> 16);
    let byte = quarter ^ (quarter >> 8);
    (byte & 255) as usize
}

// The sum of four lanes, each below 2^14.
fn fold(lanes: u64) -> u64
    ensures { (a b c d : ℕ) → Lanes lanes a b c d → result ≡ a + (b + (c + d)) }
{
    let halves = (lanes & 0xffff_ffff) + (lanes >> 32);
    (halves & 0xffff) + (halves >> 16)
}

// The sum of the bytes: the even ones and the odd ones lane by lane, then the lanes.
fn sum_bit(key: u64) -> usize
    ensures { result ≡ sum_bit key }
{
    let pairs = (key & LOW_BYTES) + ((key >> 8) & LOW_BYTES);
    (fold(pairs) & 255) as usize
}

// The sum of byte i times i + 1. Each pair of bytes counts once, its odd byte once more, and twice for every pair below it.
fn weighed_bit(key: u64) -> usize
    ensures { result ≡ weighed_bit key }
{
    let odd = (key >> 8) & LOW_BYTES;
    let pairs = (key & LOW_BYTES) + odd;
    let above = (pairs >> 16) + (pairs >> 32) + (pairs >> 48);
    (fold(pairs + odd + 2 * above) & 255) as usize
}

// The three bits of a key.
pub fn bits_of(key: Key) -> KeyBits
    ensures { (result.exclusive ≡ exclusive_bit key.value)
        × ((result.sum ≡ sum_bit key.value) × (result.weighed ≡ weighed_bit key.value)) }
{
    KeyBits {
        exclusive: exclusive_bit(key.value),
        sum: sum_bit(key.value),
        weighed: weighed_bit(key.value),
    }
}

// A table's summary: made of the table's keys, kept as four words, tested for a key, counted, compared.
ghost use Rattle.std.specs.Prelude.{◌≡◌, ◌&&◌, [], ◌∷◌, ◌<◌, length};
ghost use Rattle.table.specs.Table.{entries, MemoryPlace};
ghost use Rattle.summary.specs.Bits.{has_bit, with_bit};
ghost use Rattle.summary.specs.Summary.{summary_words, with_key, summary_of, keys_of, words_of, bytes_in, bits_set, same_words};

use super::bits;
use super::bits::KeyBits;
use coding::key::Key;
use coding::number;
use table::{entry, limits, search};

// The bytes of a summary, and the words that they make.
pub const SUMMARY_BYTES: usize = 32;

pub const SUMMARY_WORDS: usize = 4;

pub type Summary = [u8; SUMMARY_BYTES];

pub type Words = [u64; SUMMARY_WORDS];

// Sets bit n: bit n mod 8 of byte n / 8.
fn set_bit(s: &mut Summary, n: usize)
    requires { n < 256 }
    ensures { s.new ≡ with_bit n s.old }
{
    let byte = n >> 3;
    s[byte] = s[byte] | (1 << (n & 7));
}

// Sets the three bits of a key.
fn add_key(s: &mut Summary, key: Key)
    ensures { s.new ≡ with_key key.value s.old }
{
    let three = bits::bits_of(key);
    set_bit(s, three.exclusive);
    set_bit(s, three.sum);
    set_bit(s, three.weighed);
}

// A summary as four words, eight bytes each.
pub fn words_of(s: &Summary) -> Words
    ensures { result ≡ words_of s.now }
{
    let all = &s[..];
    [
        number::get_u64(all, 0),
        number::get_u64(all, 8),
        number::get_u64(all, 16),
        number::get_u64(all, 24),
    ]
}

// The bytes of four words, which give these words again.
pub fn bytes_of(first: u64, second: u64, third: u64, fourth: u64) -> Summary
    ensures { (result ≡ bytes_in (first ∷ second ∷ third ∷ fourth ∷ []))
        × (words_of result ≡ first ∷ second ∷ third ∷ fourth ∷ []) }
{
    let mut s: Summary = [0; SUMMARY_BYTES];
    let all = &mut s[..];
    number::put_u64(all, 0, first);
    number::put_u64(all, 8, second);
    number::put_u64(all, 16, third);
    number::put_u64(all, 24, fourth);
    s
}

// The summary of a table, which may be the memory table: its keys one after another, those of delete marks too.
pub fn of_table(table: &[u8]) -> Words
    requires { MemoryPlace table.now }
    ensures { result ≡ words_of (summary_of (keys_of (entries table.now))) }
{
    let mut s: Summary = [0; SUMMARY_BYTES];
    let mut at = limits::TABLE_HEAD;
    for _ in 0..search::count(table) {
        add_key(&mut s, entry::key_at(table, at));
        at += usize::from(entry::length_at(table, at));
    }
    words_of(&s)
}

// Is bit n set? Its byte is taken out of the word that holds it.
fn has_bit(words: &[u64], n: usize) -> bool
    requires { (length words.now ≡ summary_words) × (n < 256) }
    ensures { result ≡ has_bit (bytes_in words.now) n }
{
    let word = words[n >> 6];
    let byte = (word >> (n & 56)) & 255;
    (byte >> (n & 7)) & 1 == 1
}

// Are all three bits of a key set?
pub fn may_hold(words: &[u64], bits: KeyBits) -> bool
    requires { (length words.now ≡ summary_words) × ((bits.exclusive < 256) × ((bits.sum < 256) × (bits.weighed < 256))) }
    ensures { result
        ≡ has_bit (bytes_in words.now) bits.exclusive
        && (has_bit (bytes_in words.now) bits.sum && has_bit (bytes_in words.now) bits.weighed) }
{
    has_bit(words, bits.exclusive) & (has_bit(words, bits.sum) & has_bit(words, bits.weighed))
}

// How many bits are set.
pub fn count(words: &[u64]) -> usize
    requires { length words.now ≡ summary_words }
    ensures { result ≡ bits_set (bytes_in words.now) }
{
    let low = u64::count_ones(words[0]) + u64::count_ones(words[1]);
    let high = u64::count_ones(words[2]) + u64::count_ones(words[3]);
    (low + high) as usize
}

// Are these words those? All are compared, without an end at the first that differs, which `==` of slices has: most are equal.
pub fn same(words: &[u64], right: Words) -> bool
    requires { length words.now ≡ summary_words }
    ensures { result ≡ same_words words.now right }
{
    (words[0] == right[0])
        & ((words[1] == right[1]) & ((words[2] == right[2]) & (words[3] == right[3])))
}

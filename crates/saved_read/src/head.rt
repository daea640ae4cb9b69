// The words of the head.
ghost use Rattle.std.specs.Prelude.{◌≡◌, true, ◌+◌, ◌≤◌, length};
ghost use Rattle.coding.specs.Number.{number_at};
ghost use Rattle.saved_book.specs.Form.{saved_form, lists_start};
ghost use Rattle.saved_book.specs.Opened.{opened_head};

use super::lists;
use book::head::HeadWords;
use coding::number;
use saved_form::layout;

// A number as a word.
fn word_at(s: &[u8], at: usize) -> u64
    requires { at + 2 ≤ length s.now }
    ensures { result ≡ number_at 2 s.now at }
{
    u64::from(number::get_u16(s, at))
}

// Threshold, cursor, flag and key of the two marks, and the lengths of the four lists; `at` is where these begin in the bytes.
#[tactic(auto, using(crate::proofs::Levels::head_long))]
pub fn read_head(s: &[u8], at: usize) -> HeadWords
    requires { (saved_form s.now ≡ true) × (at ≡ lists_start s.now) }
    ensures { result ≡ opened_head s.now }
{
    let second = lists::list_end(s, at);
    let third = lists::list_end(s, second);
    let fourth = lists::list_end(s, third);
    [
        word_at(s, layout::THRESHOLD),
        word_at(s, layout::CURSOR),
        word_at(s, layout::FLAG1),
        number::get_u64(s, layout::KEY1),
        word_at(s, layout::FLAG2),
        number::get_u64(s, layout::KEY2),
        word_at(s, at),
        word_at(s, second),
        word_at(s, third),
        word_at(s, fourth),
    ]
}

// Are these bytes a table? Rule C for a place, rule D for the memory table. Nothing is assumed of the bytes.
ghost use Rattle.std.specs.Prelude.{◌≡◌, ◌≤◌, length, drop, is_some, IfSome};
ghost use Rattle.table.specs.Limits.{place_size, table_head, table_limit};
ghost use Rattle.table.specs.Entry.{entry_form};
ghost use Rattle.table.specs.Table.{entries, entries_at, entries_good, all_zero, table_good, is_table, is_memory};
ghost use Rattle.table.specs.Search.{greatest_key};

use super::{entry, limits, search};
use coding::key::Key;
use coding::number;

// May an entry of this kind have this length? Nearly all are values: a branch that is nearly always taken costs least.
pub fn entry_form(kind: u16, len: usize) -> bool
    ensures { result ≡ entry_form kind len }
{
    if kind == limits::VALUE {
        return (limits::ENTRY_HEAD <= len) & (len <= limits::ENTRY_LIMIT);
    }
    (kind == limits::DELETE_MARK) & (len == limits::ENTRY_HEAD)
}

// Are all bytes from `from` on zero? Each is looked at, without an end at the first that is not: so many are at a time.
fn rest_zero(s: &[u8], from: usize) -> bool
    ensures { result ≡ all_zero (drop from s.now) }
{
    let mut zero = true;
    for i in from..s.len() {
        zero &= s[i] == 0;
    }
    zero
}

// Are the n entries behind the table's head of the right form, keys rising, and do they end just at `end`? If so, the key of the last of
// them, which is the greatest.
fn judge_entries(s: &[u8], n: usize, end: usize) -> Option<Key>
    requires { (length s.now ≡ place_size) × (n ≤ table_limit) }
    ensures good { is_some result ≡ entries_good n s.now table_head 0 end }
    ensures greatest { IfSome result (λ k. k.value ≡ greatest_key (entries_at n s.now table_head)) }
{
    let mut at = limits::TABLE_HEAD;
    let mut last = Key::LEAST;
    for i in 0..n {
        let len = usize::from(entry::length_at(s, at));
        if !entry_form(entry::kind_at(s, at), len) {
            return None;
        }
        let key = entry::key_at(s, at);
        let rises = (i == 0) | (last < key);
        if !rises {
            return None;
        }
        at += len;
        last = key;
    }
    if at == end { Some(last) } else { None }
}

// Is this a table of `fewest` to 16 entries? If so, its greatest key.
fn judge_form(s: &[u8], fewest: usize) -> Option<Key>
    requires { length s.now ≡ place_size }
    ensures good { is_some result ≡ table_good fewest s.now }
    ensures greatest { IfSome result (λ k. k.value ≡ greatest_key (entries s.now)) }
{
    let end = usize::from(entry::length_at(s, 0));
    let kind = entry::kind_at(s, 0);
    let n = search::count(s);
    let zero = number::get_u16(s, 6);
    let headed = (kind == limits::TABLE)
        & ((fewest <= n) & ((n <= limits::TABLE_LIMIT) & (zero == 0)));
    if !headed {
        return None;
    }
    let greatest = judge_entries(s, n, end)?;
    if rest_zero(s, end) {
        Some(greatest)
    } else {
        None
    }
}

// Rule C of one place: is it a table? If so, its greatest key.
#[tactic(auto, unfolding(crate::specs::Table::is_table))]
pub fn judge(s: &[u8]) -> Option<Key>
    requires { length s.now ≡ place_size }
    ensures good { is_some result ≡ is_table s.now }
    ensures greatest { IfSome result (λ k. k.value ≡ greatest_key (entries s.now)) }
{
    judge_form(s, 1)
}

// Rule D: is this a memory table?
#[tactic(auto, unfolding(crate::specs::Table::is_memory))]
pub fn is_memory(s: &[u8]) -> bool
    requires { length s.now ≡ place_size }
    ensures { result ≡ is_memory s.now }
{
    judge_form(s, 0).is_some()
}

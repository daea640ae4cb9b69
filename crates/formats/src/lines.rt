// The lines that the program writes: plain words, then bytes in hexadecimal or a number.
ghost use Rattle.std.specs.Prelude.{◌≡◌, ◌+◌, ◌≤◌, length};
ghost use Rattle.table.specs.Table.{table_bytes};
ghost use Rattle.formats.specs.Examples.{the_two};

use super::examples;
use coding::key::Key;
use coding::{hex, number};
use std::io::{Print, Stdout};
use table::limits::PLACE_SIZE;
use table::search;
use table_builder::place;

// A line shows up to so many bytes, three characters each.
const ROW: usize = 16;

const TEXT: usize = 3 * ROW;

// Writes the bytes. Where that fails the lines that follow are written all the same.
fn put(out: Stdout, bytes: &[u8]) {
    let _ = out.write_all(bytes);
}

// Writes the number in decimal.
fn put_number(out: Stdout, n: u64) {
    let _ = out.print(n);
}

// A line of up to `ROW` bytes.
fn bytes_line(out: Stdout, words: &[u8], bytes: &[u8])
    requires { length bytes.now ≤ 16 }
{
    let mut text = [0u8; TEXT];
    hex::put_bytes(&mut text, bytes);
    let end = 3 * bytes.len();
    put(out, words);
    put(out, &text[..end]);
    put(out, b"\n");
}

// A line of the `ROW` bytes of a place from `at` on.
fn row_line(out: Stdout, words: &[u8], place: &[u8], at: usize)
    requires { at + 16 ≤ length place.now }
{
    bytes_line(out, words, &place[at..at + ROW]);
}

// A line that ends in a number.
fn number_line(out: Stdout, words: &[u8], n: u64) {
    put(out, words);
    put_number(out, n);
    put(out, b"\n");
}

// The key.
pub fn key(out: Stdout) {
    let mut bytes = [0u8; 8];
    number::put_u64(&mut bytes, 0, examples::key());
    bytes_line(out, b"key of line 3 at 1,250 mm:", &bytes);
}

// The two entries.
pub fn entries(out: Stdout) {
    let mut value = [0u8; 13];
    examples::value(&mut value);
    bytes_line(out, b"value \"A\" under key 5:    ", &value);
    let mut mark = [0u8; 12];
    examples::mark(&mut mark);
    bytes_line(out, b"delete mark under key 7:  ", &mark);
}

// The table of the two, and what is found in it.
pub fn table(out: Stdout) {
    let mut place = [0u8; PLACE_SIZE];
    examples::two(&mut place);
    rows(out, &place);
    finds(out, &place);
}

// The rows of the place that are not all zero, and one that is.
fn rows(out: Stdout, place: &[u8])
    requires { place.now ≡ table_bytes the_two }
{
    row_line(out, b"table of the two, 000:    ", place, 0);
    row_line(out, b"                  010:    ", place, 16);
    row_line(out, b"                  020:    ", place, 32);
}

// What is found in it.
fn finds(out: Stdout, place: &[u8])
    requires { place.now ≡ table_bytes the_two }
{
    find_line(out, place, 5);
    find_line(out, place, 6);
    find_line(out, place, 7);
    number_line(
        out,
        b"least key of the table:    ",
        search::least(place).value,
    );
    number_line(
        out,
        b"greatest key of the table: ",
        search::greatest(place).value,
    );
}

// Where a key stands in the table of the two.
fn find_line(out: Stdout, place: &[u8], key: u64)
    requires { place.now ≡ table_bytes the_two }
{
    put(out, b"key ");
    put_number(out, key);
    let Some(at) = search::find(place, Key { value: key }) else {
        put(out, b" is not in the table\n");
        return;
    };
    number_line(out, b" stands in the table at byte ", at as u64);
}

// The memory table with no entry.
pub fn memory(out: Stdout) {
    let mut place = [0u8; PLACE_SIZE];
    place::clear(&mut place);
    row_line(out, b"empty memory table, 000:  ", &place, 0);
}

// The tables that come out of a merge, built in a buffer one after the other.
//
// Nothing here changes the store. The entries of the table and of its links' slices are gathered once, sorted by key, and read where they
// stand when they are written.
ghost use Rattle.std.specs.Prelude.{◌≡◌, ◌*◌, ◌≤◌, ◌<◌, length, take, drop};
ghost use Rattle.std.proofs.lemmas.List.Edits.{sets};
ghost use Rattle.table.specs.Limits.{place_size, table_limit};
ghost use Rattle.table.specs.Table.{table_bytes};
ghost use Rattle.ldc.specs.Layout.{level_count};
ghost use Rattle.ldc.specs.Tidy.{cut};
ghost use Rattle.book.specs.Head.{head_words};
ghost use Rattle.read.specs.Look.{Levels};
ghost use Rattle.read.specs.Shown.{Tabled};
ghost use Rattle.compact_merge.specs.Merge.{merge_tables, merge_entries, bytes_out, tables_out_of};
ghost use Rattle.compact_merge.specs.Spots.{standing_in, Stand};

use super::sift;
use book::head::Head;
use book::limits::LINK_LIMIT;
use book::row::Row;
use coding::key::Key;
use read_gather::sources;
use table::limits;
use table_builder::{append, place};

// A merge makes at most so many tables: as many as it reads, which are the table and the slices of its links.
pub const MERGE_TABLES: usize = LINK_LIMIT + 1;

// They are built in a buffer of so many bytes.
pub const MERGE_BYTES: usize = MERGE_TABLES * limits::PLACE_SIZE;

// So many entries they have at most.
const MERGE_ENTRIES: usize = MERGE_TABLES * limits::TABLE_LIMIT;

// Makes the place a table of the entries at the spots from one on, 16 or fewer.
fn fill_table(to: &mut [u8], area: &[u8], spots: &[u64], from: usize, n: usize)
    requires { (length to.old ≡ place_size) × ((from ≤ n) × Stand area.now spots.now n) }
    ensures { to.new ≡ table_bytes (take table_limit (drop from (standing_in area spots n))) }
{
    place::clear(to);
    let end = n.min(from + limits::TABLE_LIMIT);
    for spot in &spots[from..end] {
        append::append_from(to, area, *spot as usize);
    }
}

// The tables of the entries at the first n spots, one after the other from the buffer's start on; how many they are.
fn write_tables(area: &[u8], spots: &[u64], n: usize, out: &mut [u8]) -> usize
    requires { (n ≤ merge_entries) × (Stand area.now spots.now n × (length out.old ≡ merge_tables * place_size)) }
    ensures { (result ≡ length (cut (standing_in area spots n)))
        × (out.new ≡ sets out.old 0 (bytes_out (cut (standing_in area spots n)))) }
{
    let tables = n.div_ceil(limits::TABLE_LIMIT);
    for k in 0..tables {
        let from = k * limits::TABLE_LIMIT;
        let start = k * limits::PLACE_SIZE;
        let end = start + limits::PLACE_SIZE;
        fill_table(&mut out[start..end], area, spots, from, n);
    }
    tables
}

// The tables that come out of the merge of p on level n, one after the other from the buffer's start on; how many they are.
pub fn merge_into(
    area: &[u8],
    cards: &[Row],
    lists: &[u16],
    head: Head,
    n: usize,
    p: usize,
    out: &mut [u8],
) -> usize
    requires { Levels area.now cards.now lists.now (head_words head)
        × ((n < level_count) × (Tabled area.now p × (length out.old ≡ merge_tables * place_size))) }
    ensures { (result ≡ length (tables_out_of area cards lists head n p))
        × (out.new ≡ sets out.old 0 (bytes_out (tables_out_of area cards lists head n p))) }
{
    let mut keys = [0; MERGE_ENTRIES];
    let mut spots = [0; MERGE_ENTRIES];
    let used = sources::in_sources(
        area,
        cards,
        p,
        Key::LEAST,
        Key::GREATEST,
        &mut keys,
        &mut spots,
        0,
    );
    let left = sift::sift(area, cards, lists, head, n, &mut spots, used);
    write_tables(area, &spots, left, out)
}

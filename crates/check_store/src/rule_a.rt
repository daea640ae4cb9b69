// Rule A: a threshold from 1 to as many links as a row has room for, and a cursor that names a place.
ghost use Rattle.std.specs.Prelude.{◌≡◌, ◌&&◌, ltb, get_or};
ghost use Rattle.ldc.specs.Rules.{threshold_good};
ghost use Rattle.ldc.specs.Layout.{threshold_in, cursor_in};

use book::head::{CURSOR, HeadWords, THRESHOLD};
use book::limits::{LEAST_THRESHOLD, LINK_LIMIT};

pub fn kept(head: &HeadWords, places: usize) -> bool
    ensures { result ≡ threshold_good (threshold_in head.now) && ltb (cursor_in head.now) places }
{
    (LEAST_THRESHOLD <= head[THRESHOLD])
        & (head[THRESHOLD] <= LINK_LIMIT as u64)
        & (head[CURSOR] < places as u64)
}

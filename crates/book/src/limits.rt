// The numbers that bound a store, each said once; the contracts tie them to the definition's Layout.

// An area has at least and at most so many places.
pub const FEWEST_PLACES: usize = 16;

pub const MOST_PLACES: usize = 4096;

// So many level lists.
pub const LEVELS: usize = 4;

// The levels above this one have a capacity.
pub const LAST_LEVEL: usize = LEVELS - 1;

// A row has room for so many links; a threshold is at least 1 and at most as great.
pub const LINK_LIMIT: usize = 8;

pub const LEAST_THRESHOLD: u64 = 1;

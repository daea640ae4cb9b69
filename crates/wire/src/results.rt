// The numbers that say how a request or a call ended (document 01, "Refused runs and requests"), each said once.

// ---- results of requests

pub const DONE: u16 = 0;

pub const UNKNOWN_KIND: u16 = 16;

pub const WRONG_LENGTH: u16 = 17;

// Put or delete of a new key, the memory table is full.
pub const MEMORY_FULL: u16 = 18;

// Scan with low above high.
pub const BAD_RANGE: u16 = 19;

// Free places fewer than the flush or merge writes.
pub const NO_ROOM: u16 = 20;

// No value under this key.
pub const NO_VALUE: u16 = 64;

pub const NOTHING_TO_DO: u16 = 65;

// ---- numbers of calls: accepted, or refused

pub const ACCEPTED: u64 = 0;

pub const WRONG_SIZES: u64 = 1;

pub const BAD_THRESHOLD: u64 = 2;

pub const SHORT_ANSWER: u64 = 3;

pub const BROKEN_LIST: u64 = 4;

pub const UNSOUND: u64 = 5;

// No letter of a rule comes with any number but 5.
pub const NO_LETTER: u64 = 0;

// Opening: bytes not of the form of a saved book (document 02, note 4).
pub const NOT_A_BOOK: u64 = 21;

// Opening: an area with fewer places than saved.
pub const FEWER_PLACES: u64 = 22;

// ---- steps of a tidy, as its reply names them

pub const NO_STEP: u16 = 0;

pub const MOVED: u16 = 1;

pub const LINKED: u16 = 2;

pub const MERGED: u16 = 3;

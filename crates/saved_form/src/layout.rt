// Where the fields of a saved book stand, and how wide they are (document 02, note 4), each number said once; the contracts tie them to
// the definition's Form.

// The kind of a saved book.
pub const SAVED_KIND: u16 = 48;

// The bytes of the length of the whole, of a number, and of a key.
pub const LENGTH: usize = 4;

pub const NUMBER: usize = 2;

pub const KEY: usize = 8;

// ---- the head: length of the whole, kind, P, T, cursor, flag and key of the marks of levels 1 and 2

pub const WHOLE: usize = 0;

pub const KIND: usize = WHOLE + LENGTH;

pub const PLACES: usize = 6;

pub const THRESHOLD: usize = 8;

pub const CURSOR: usize = 10;

pub const FLAG1: usize = 12;

pub const KEY1: usize = FLAG1 + NUMBER;

pub const FLAG2: usize = 22;

pub const KEY2: usize = FLAG2 + NUMBER;

// Where the cards begin.
pub const CARDS: usize = 32;

// ---- a card: state and link count, then the links

pub const LINK_COUNT: usize = 2;

// The bytes before the links, and those of one link.
pub const CARD_HEAD: usize = 4;

pub const LINK: usize = 20;

// Where low, high and number stand from a link's start on; its place stands there.
pub const LOW: usize = 2;

pub const HIGH: usize = 10;

pub const LINK_NUMBER: usize = 18;

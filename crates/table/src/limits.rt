// The numbers of the formats, each said once; the contracts tie them to specs/Limits.

// The bytes of an entry before its value: length, kind, key.
pub const ENTRY_HEAD: usize = 12;

// A value has at most so many bytes.
pub const VALUE_LIMIT: usize = 51;

// An entry has at most so many bytes.
pub const ENTRY_LIMIT: usize = ENTRY_HEAD + VALUE_LIMIT;

// The bytes of a table before its entries: length in use, kind, entry count, zero.
pub const TABLE_HEAD: usize = 8;

// A table has at most so many entries.
pub const TABLE_LIMIT: usize = 16;

// A place has so many bytes.
pub const PLACE_SIZE: usize = 1024;

pub type PlaceBytes = [u8; PLACE_SIZE];

// The kind of an entry that holds a value.
pub const VALUE: u16 = 1;

// The kind of a delete mark.
pub const DELETE_MARK: u16 = 2;

// The kind of a table.
pub const TABLE: u16 = 32;

// The kinds of requests (document 01; document 02, note 6): numbers of two bytes, each said once.

pub const PUT: u16 = 1;

pub const DELETE: u16 = 2;

pub const LOOK_UP: u16 = 3;

pub const SCAN: u16 = 4;

pub const FLUSH: u16 = 5;

pub const TIDY: u16 = 6;

pub const REPORT: u16 = 7;

pub const PROBE: u16 = 8;

// The kinds that don't exist: 0, and all from this one to the last.
pub const NO_KIND: u16 = 0;

pub const FIRST_UNKNOWN: u16 = 9;

pub const LAST_UNKNOWN: u16 = 65535;

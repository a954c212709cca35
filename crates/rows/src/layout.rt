// How entries are laid out (specs/Tables).
use prelude::limits::MOST_MEMBERS;

// How many numbers an entry has in a table, and how many of them in the list that is handed out.
pub const WIDTH: usize = 8;

pub const LIST_WIDTH: usize = 6;

// The room of a table for one header, and for a recipient's three.
pub const HEADER_TABLE: usize = MOST_MEMBERS * WIDTH;

pub const RECIPIENT_TABLE: usize = 3 * HEADER_TABLE;

// Where an entry's numbers stand: origin, name, value, kind, which of some names it has, fingerprint.
pub const ORIGIN: usize = 0;

pub const NAME_START: usize = 1;

pub const NAME_SIZE: usize = 2;

pub const VALUE_START: usize = 3;

pub const VALUE_SIZE: usize = 4;

pub const KIND: usize = 5;

pub const NUMBER: usize = 6;

pub const PRINT: usize = 7;

// Kinds that a value's parameter or member may have to be (the others are numbers, `true`, `false` and `null`).
pub const OBJECT: u32 = 0;

pub const ARRAY: u32 = 1;

pub const STRING: u32 = 2;

// Document 01, 'Sizes' (specs/Limits): contracts have them by the definitions' names, and code by these.

// Octets of a message.
pub const LONGEST: usize = 16777216;

// Octets of a decoded protected header, and of the buffer that is lent for it.
pub const HEADER_ROOM: usize = 4096;

// Numbers of the list that is lent.
pub const LIST_ROOM: usize = 576;

// Levels of JSON nesting.
pub const LEVELS: u32 = 12;

// Members of an object whose names are compared.
pub const MOST_MEMBERS: usize = 32;

// Recipients of a message.
pub const MOST_RECIPIENTS: usize = 8;

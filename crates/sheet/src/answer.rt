// The numbers answered (document 01, "Numbers answered", and the requests of document 02). They are bytes
// and no enum, since the structs of the C interface and the lines of `calls` have them as they stand.
pub const DONE: u8 = 0;

// The state is not well formed.
pub const MALFORMED: u8 = 1;

// A register address above 7.
pub const BAD_ADDRESS: u8 = 2;

// SIN above 1, or modem pins above 15.
pub const BAD_LEVEL: u8 = 3;

// A forecast with work left and no clock.
pub const NO_CLOCK: u8 = 4;

// A forecast with bytes queued and the transmitter held.
pub const HELD_BACK: u8 = 5;

// A file with a bad mark or a nonzero pad.
pub const BAD_HEADER: u8 = 6;

// A version that is not known.
pub const UNKNOWN_VERSION: u8 = 7;

// A record that is none; a file that ends within its header or within a record.
pub const BAD_RECORD: u8 = 8;

// A clock or a rate outside its range.
pub const BAD_RATE: u8 = 9;

// A record for which no word is left.
pub const NO_ROOM: u8 = 16;

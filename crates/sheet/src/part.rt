// The parts of the state (document 02 b): which one is bad where a state is not well formed. Bytes and no
// enum, since the structs of the C interface have them beside the number answered.
pub const NONE: u8 = 0;

// IER, MCR, LCR, SCR, divisor and k.
pub const REGISTERS: u8 = 1;

// FIFO settings and input pins.
pub const SETTINGS: u8 = 2;

// Transmit queue and frame.
pub const TRANSMIT: u8 = 3;

// Receive queue and receiver.
pub const RECEIVE: u8 = 4;

// Latches, idle count, change bits and hold.
pub const LATCHES: u8 = 5;

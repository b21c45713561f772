// The limits of the state (document 01, "The state"): the most that each number may be.
pub const ADDRESS_MOST: u8 = 7;

pub const IER_MOST: u8 = 63;

pub const MCR_MOST: u8 = 63;

pub const DIVISOR_MOST: u32 = 65535;

pub const TRIGGER_MOST: u8 = 3;

pub const MODEM_MOST: u8 = 15;

pub const SIN_MOST: u8 = 1;

// L, the pulses left of a frame.
pub const LEFT_MOST: u32 = 192;

pub const FORMAT_MOST: u8 = 63;

// The numbers of six bits: IER and MCR keep the low six of a byte, a format is the low six of LCR.
pub const SIX_BITS: u8 = 64;

pub const IDLE_MOST: u32 = 769;

pub const CHANGES_MOST: u8 = 15;

// The places of a queue, and the last of them.
pub const PLACES: usize = 64;

pub const LAST_PLACE: usize = 63;

// The clock and the rate that a divisor is picked for (document 02 e).
pub const CLOCK_MOST: u32 = 16000000;

pub const RATE_MOST: u32 = 1000000;

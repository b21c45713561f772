// The registers' addresses and bits (SLLS191C, tables 1 to 3), named as serial headers name them.

// Addresses. 0 and 1 are the divisor latches when LCR7 is set.
pub const RBR: u8 = 0;

pub const THR: u8 = 0;

pub const DLL: u8 = 0;

pub const IER: u8 = 1;

pub const DLM: u8 = 1;

pub const IIR: u8 = 2;

pub const FCR: u8 = 2;

pub const LCR: u8 = 3;

pub const MCR: u8 = 4;

pub const LSR: u8 = 5;

pub const MSR: u8 = 6;

pub const SCR: u8 = 7;

// IER: the interrupts for received data, transmitter holding register empty, receiver line status
// and modem status.
pub const IER_RDI: u8 = 0x01;

pub const IER_THRI: u8 = 0x02;

pub const IER_RLSI: u8 = 0x04;

pub const IER_MSI: u8 = 0x08;

// IIR: the codes of those interrupts, of the character time-out and of none; FIFO on, and its size.
pub const IIR_MSI: u8 = 0x00;

pub const IIR_NO_INT: u8 = 0x01;

pub const IIR_THRI: u8 = 0x02;

pub const IIR_RDI: u8 = 0x04;

pub const IIR_RLSI: u8 = 0x06;

pub const IIR_RX_TIMEOUT: u8 = 0x0c;

pub const IIR_64BYTE_FIFO: u8 = 0x20;

pub const IIR_FIFO_ENABLED: u8 = 0xc0;

// FCR; of the trigger code, the lower bit.
pub const FCR_ENABLE_FIFO: u8 = 0x01;

pub const FCR_CLEAR_RCVR: u8 = 0x02;

pub const FCR_CLEAR_XMIT: u8 = 0x04;

pub const FCR_DMA_SELECT: u8 = 0x08;

pub const FCR_64BYTE: u8 = 0x20;

pub const FCR_TRIGGER: u8 = 0x40;

// LCR: stop bits, parity enabled, even, stick; break; divisor latches.
pub const LCR_STOP: u8 = 0x04;

pub const LCR_PARITY: u8 = 0x08;

pub const LCR_EPAR: u8 = 0x10;

pub const LCR_SPAR: u8 = 0x20;

pub const LCR_SBC: u8 = 0x40;

pub const LCR_DLAB: u8 = 0x80;

// MCR: the modem outputs, loopback, autoflow.
pub const MCR_DTR: u8 = 0x01;

pub const MCR_RTS: u8 = 0x02;

pub const MCR_OUT1: u8 = 0x04;

pub const MCR_OUT2: u8 = 0x08;

pub const MCR_LOOP: u8 = 0x10;

pub const MCR_AFE: u8 = 0x20;

// The modem inputs, as the pins and the change bits of MSR have them.
pub const CTS: u8 = 0x01;

pub const DSR: u8 = 0x02;

pub const RI: u8 = 0x04;

pub const DCD: u8 = 0x08;

// A record: its kind, its fields, and whether it is good.
ghost use Rattle.std.specs.Prelude.{◌≡◌, ◌<◌};
ghost use Rattle.recorder.specs.Record.{kind_of, count as «count_of», address as «address-of», byte as «byte_of», sin as «sin-of», modem as «modem-of», room_of, good as «good_of», with_byte};

// Where the kind begins: bit 28.
const KIND: u32 = 268435456;

// The kinds.
#[derive(Clone, Copy, PartialEq, Eq)]
pub enum Kind {
    Ticks,
    Read,
    Write,
    Sin,
    Modem,
    Reset,
}

impl Kind {
    // The kind of a record, if it is a known one.
    pub fn of(w: u32) -> Option<Kind>
        ensures { result ≡ kind_of w }
    {
        match w / KIND {
            0 => Some(Kind::Ticks),
            1 => Some(Kind::Read),
            2 => Some(Kind::Write),
            3 => Some(Kind::Sin),
            4 => Some(Kind::Modem),
            5 => Some(Kind::Reset),
            _ => None,
        }
    }

    // What the bits below the kind stay below in a good record.
    fn room(self) -> u32
        ensures { result ≡ room_of self }
    {
        match self {
            Kind::Ticks => 65536,
            Kind::Read => 2048,
            Kind::Write => 2048,
            Kind::Sin => 2,
            Kind::Modem => 16,
            Kind::Reset => 1,
        }
    }
}

// The count of ticks.
pub fn count(w: u32) -> u32
    ensures { result ≡ «count_of» w }
{
    w % 65536
}

// The register's address.
pub fn address(w: u32) -> u8
    ensures { result ≡ «address-of» w }
{
    (w / 256 % 8) as u8
}

// The byte seen by a read, or written.
pub fn byte(w: u32) -> u8
    ensures { result ≡ «byte_of» w }
{
    (w % 256) as u8
}

// The level of SIN.
pub fn sin(w: u32) -> u8
    ensures { result ≡ «sin-of» w }
{
    (w % 2) as u8
}

// The modem pins.
pub fn modem(w: u32) -> u8
    ensures { result ≡ «modem-of» w }
{
    (w % 16) as u8
}

// Whether the kind is known and no stray bit is set.
pub fn good(w: u32) -> bool
    ensures { result ≡ «good_of» w }
{
    match Kind::of(w) {
        Some(kind) => w % KIND < kind.room(),
        None => false,
    }
}

// The record with another byte in bits 7..0.
pub fn with_byte(w: u32, b: u8) -> u32
    ensures { (result ≡ with_byte w b) × (b < 256) }
{
    w / 256 * 256 + b as u32
}

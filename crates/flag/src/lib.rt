// Flags and tests: a flag of the state is the number 0 or 1, a register bit is one digit of its byte.
//
// The contracts cite `specs/Flag.antt`, which every crate above uses.
#![tactic(auto)]

ghost use Rattle.std.specs.Prelude.{◌≡◌, [], ◌∷◌, ◌<◌, ◌/◌, ◌%◌, eqb};
ghost use Rattle.flag.specs.Flag.{byte_of};

// Whether the bit of x that the power of two `mask` names is set.
pub fn has(x: u8, mask: u8) -> bool
    requires { 0 < mask }
    ensures { result ≡ eqb (x / mask % 2) 1 }
{
    x / mask % 2 == 1
}

// The number with these four bits, bit 0 first.
pub fn nibble(b0: bool, b1: bool, b2: bool, b3: bool) -> u8
    ensures { (result ≡ byte_of (b0 ∷ b1 ∷ b2 ∷ b3 ∷ [])) × (result < 16) }
{
    u8::from(b0) + 2 * (u8::from(b1) + 2 * (u8::from(b2) + 2 * u8::from(b3)))
}

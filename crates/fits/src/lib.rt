// Which numbers fit their places' types: the lowest part of a state of which some do not.
#![tactic(auto)]

ghost use Rattle.std.specs.Prelude.{◌≡◌, ◌≤◌, length, eqb};
ghost use Rattle.flag.specs.Flag.{all_of};
ghost use Rattle.numbers.specs.Numbers.{is_byte, bytes_in, registers_fit, settings_fit, transmit_fits, receive_fits, latches_fit, fits, unfit_part};

use numbers::COUNT;
use sheet::part;

// Whether every number is a byte.
fn all_bytes(n: &[u32]) -> bool
    ensures { result ≡ all_of is_byte n.now }
{
    n.iter().all(|&x| x <= 255)
}

// Whether the numbers at the places a to b are bytes.
fn bytes_in(n: &[u32], a: usize, b: usize) -> bool
    requires le_a { 1 ≤ a }
    requires a_le_b { a ≤ b }
    requires b_in_bounds { b ≤ length n.now }
    ensures { result ≡ bytes_in a b n.now }
{
    let from = a - 1;
    all_bytes(&n[from..b])
}

// Whether the numbers of part 1 fit.
fn registers_fit(n: &[u32; COUNT]) -> bool
    ensures { result ≡ registers_fit n.now }
{
    bytes_in(n, 1, 4)
}

// Whether those of part 2 fit.
fn settings_fit(n: &[u32; COUNT]) -> bool
    ensures { result ≡ settings_fit n.now }
{
    bytes_in(n, 7, 12)
}

// Whether those of part 3 fit.
fn transmit_fits(n: &[u32; COUNT]) -> bool
    ensures { result ≡ transmit_fits n.now }
{
    bytes_in(n, 14, 77) && bytes_in(n, 79, 80)
}

// Whether those of part 4 fit.
fn receive_fits(n: &[u32; COUNT]) -> bool
    ensures { result ≡ receive_fits n.now }
{
    bytes_in(n, 82, 338) && bytes_in(n, 340, 342) && bytes_in(n, 349, 351)
}

// Whether those of part 5 fit.
fn latches_fit(n: &[u32; COUNT]) -> bool
    ensures { result ≡ latches_fit n.now }
{
    bytes_in(n, 343, 345) && bytes_in(n, 347, 348)
}

// The lowest part of the state with a number that does not fit its place's type; 0 exactly where every
// number fits. A byte and no Option, as `ranges::part_of`.
pub fn unfit_part(n: &[u32; COUNT]) -> u8
    ensures lowest { result ≡ unfit_part n.now }
    ensures none { fits n.now ≡ eqb result 0 }
{
    if !registers_fit(n) {
        return part::REGISTERS;
    }
    if !settings_fit(n) {
        return part::SETTINGS;
    }
    if !transmit_fits(n) {
        return part::TRANSMIT;
    }
    if !receive_fits(n) {
        return part::RECEIVE;
    }
    if !latches_fit(n) {
        return part::LATCHES;
    }
    part::NONE
}

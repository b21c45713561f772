// Where the samples of a received character fall.
ghost use Rattle.std.specs.Prelude.{◌≡◌, ◌≤◌};
ghost use Rattle.device.specs.Receiver.{stop_position, samples_taken};

// The position of the first stop sample, which ends a character.
pub fn stop_position(format: u8) -> u32
    ensures { (result ≡ stop_position format) × (result ≤ 168) }
{
    8 + 16 * (1 + frame::data_bits(format) + frame::parity_bits(format))
}

// The data and parity samples taken up to a position.
pub fn samples_taken(position: u32) -> u32
    ensures { result ≡ samples_taken position }
{
    if position < 8 {
        return 0;
    }
    (position - 8) / 16
}

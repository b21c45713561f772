// Replays the captures 000, 001, .. of the folder that it runs in, and writes a line for each.
#![tactic(auto)]

ghost use Rattle.std.specs.Prelude.{◌≤◌, length};

const MOST: u32 = 1000;

// A digit's character.
fn glyph(d: u32) -> u8 {
    b'0' + (d % 10) as u8
}

// The name of a capture: its number in three digits.
fn name(n: u32) -> [u8; 3] {
    [glyph(n / 100), glyph(n / 10), glyph(n)]
}

// Replays the capture of this name, and answers whether there is one.
fn replayed(rt: HostRuntime, path: &[u8]) -> bool
    requires { length path.now ≤ 4096 }
{
    let Ok(mut file) = input::opened(rt, path) else {
        return false;
    };
    replay_file::replay(rt, &mut file, false, path);
    true
}

fn main(rt: HostRuntime) {
    for n in 0..MOST {
        if !replayed(rt, &name(n)) {
            return;
        }
    }
}

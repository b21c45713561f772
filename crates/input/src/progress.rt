// How far the work on a capture is, on standard error where that is a terminal.
use std::io;
use std::io::{IsTerminal, Write};
use std::time::Clock;

// The second in which this was told last, whether to tell at all, and the records that were told. A flag
// and no Option of the rest, which every call would take apart.
#[derive(Clone, Copy)]
pub struct Watch {
    second: u64,
    tells: bool,
    records: usize,
}

impl Watch {
    // A watch that tells nothing.
    pub fn silent() -> Watch {
        Watch {
            second: 0,
            tells: false,
            records: 0,
        }
    }

    // A watch that begins now, and tells where standard error is a terminal.
    pub fn start(rt: HostRuntime) -> Watch {
        Watch {
            second: second(rt),
            tells: rt.stderr().is_terminal(),
            records: 0,
        }
    }

    // Tells how many records the program has so far, where another second has begun and they are
    // more than were told.
    pub fn tell(&mut self, rt: HostRuntime, program: &[u8], records: usize) {
        if !self.tells || records <= self.records {
            return;
        }
        let now = second(rt);
        if now != self.second && write_records(rt, program, records).is_ok() {
            self.second = now;
            self.records = records;
        }
    }

    // Clears what was told.
    pub fn stop(self, rt: HostRuntime) {
        if 0 < self.records {
            let _cleared = rt.stderr().write_all(b"\r\x1b[K").is_ok();
        }
    }
}

// The second that it is.
fn second(rt: HostRuntime) -> u64 {
    rt.since_1970().map_or(0, |now| now.as_secs())
}

// Writes how many records the program has so far.
fn write_records(rt: HostRuntime, program: &[u8], records: usize) -> io::Result<()> {
    let mut out = rt.stderr();
    out.write_all(b"\r")?;
    out.write_all(program)?;
    write!(out, ": {records} records")
}

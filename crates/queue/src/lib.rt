// The two queues of the device: bytes to transmit, and received entries (a byte with its error flags).
//
// Each is a struct by value: an array of 64 places and the count in use, oldest at index 0, places
// beyond the count zero. The contracts cite `specs/Queue.antt`; `proofs/Contents.antt` has the facts
// about what is queued, over lists, once for both. The tests of every place have no early way out, so
// that the compiler can look at many places at once. `clear`, `put`, `take` and the test of the rest stand
// once for each queue: the C interface names the fields of both structs, and a generic struct can have no
// array of its parameter.
#![tactic(auto)]

pub mod bytes;
pub mod entries;

ghost use Rattle.std.specs.Prelude.{◌≡◌, cond, not, ◌&&◌, ◌<◌, ◌≤◌, leb, ltb, eqb};
ghost use Rattle.queue.specs.Queue.{count_put, shifted};

use sheet::limits;

// The transmit queue.
#[repr(C)]
#[derive(Clone, Copy)]
pub struct ByteQueue {
    pub bytes: [u8; limits::PLACES],
    pub count: u32,
}

// A received character with its error flags, each 0 or 1.
#[repr(C)]
#[derive(Clone, Copy)]
pub struct Entry {
    pub byte: u8,
    pub pe: u8,
    pub fe: u8,
    pub bi: u8,
}

// PE, FE and BI, each 0 or 1.
#[repr(C)]
#[derive(Clone, Copy)]
pub struct Errors {
    pub pe: u8,
    pub fe: u8,
    pub bi: u8,
}

// The receive queue.
#[repr(C)]
#[derive(Clone, Copy)]
pub struct EntryQueue {
    pub entries: [Entry; limits::PLACES],
    pub count: u32,
}

// Whether a queue of this capacity keeps its places at a put: it is full, and has more than one.
fn keeps(count: u32, capacity: u32) -> bool
    ensures { result ≡ (leb capacity count && not (eqb capacity 1)) }
{
    capacity <= count && capacity != 1
}

// Where the next one goes: behind the last one, or to the first place of a full queue.
fn next_place(count: u32, capacity: u32) -> usize
    requires { capacity ≤ 64 }
    ensures { (result ≡ cond (ltb count capacity) count 0) × (result < 64) }
{
    if count < capacity { count as usize } else { 0 }
}

// The count after a put.
#[tactic(auto, unfolding(crate::specs::Queue::count_put))]
fn count_after(count: u32, capacity: u32) -> u32
    requires { capacity ≤ 64 }
    ensures { result ≡ count_put capacity count }
{
    if count < capacity { count + 1 } else { count }
}

// The places one down, the oldest gone and the last one empty.
fn shift<T: Copy>(places: &mut [T; limits::PLACES], empty: T)
    ensures { places.new ≡ shifted empty places.old }
{
    places.copy_within(1.., 0);
    places[limits::LAST_PLACE] = empty;
}

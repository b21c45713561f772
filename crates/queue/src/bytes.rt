// The queue of bytes.
ghost use Rattle.std.specs.Prelude.{◌≡◌, ◌<◌, ◌≤◌};
ghost use Rattle.queue.specs.Queue.{put_byte, take_byte, no_bytes, byte_rest};

use crate::{ByteQueue, count_after, keeps, next_place, shift};
use sheet::limits;

// The queue with no bytes.
#[tactic(auto, unfolding(crate::specs::Queue::no_bytes))]
pub fn clear() -> ByteQueue
    ensures { result ≡ no_bytes }
{
    ByteQueue {
        bytes: [0u8; limits::PLACES],
        count: 0,
    }
}

// The queue of this capacity with b behind the last byte. A full one keeps its bytes, but a queue
// of one place has its byte replaced. There is one store, at a computed place: with a second one at
// place 0 the compiler copies the queue in two parts.
#[tactic(auto, unfolding(crate::specs::Queue::put_byte, crate::specs::Queue::places_put, crate::specs::Queue::count_put))]
pub fn put(q: ByteQueue, capacity: u32, b: u8) -> ByteQueue
    requires { capacity ≤ 64 }
    ensures { result ≡ put_byte capacity q b }
{
    let mut next = q;
    let count = next.count;
    if keeps(count, capacity) {
        return next;
    }
    let at = next_place(count, capacity);
    next.bytes[at] = b;
    next.count = count_after(count, capacity);
    next
}

// The queue without its oldest byte.
#[tactic(auto, unfolding(crate::specs::Queue::take_byte))]
pub fn take(q: ByteQueue) -> ByteQueue
    requires { 0 < q.count }
    ensures { result ≡ take_byte q }
{
    let mut bytes = q.bytes;
    shift(&mut bytes, 0);
    ByteQueue {
        bytes,
        count: q.count - 1,
    }
}

// Whether every place from `count` on is zero. With `skip` and `all` it takes twice as long.
pub fn rest_is_zero(q: ByteQueue) -> bool
    ensures { result ≡ byte_rest q }
{
    let mut zero = true;
    for i in (q.count as usize)..limits::PLACES {
        zero &= q.bytes[i] == 0;
    }
    zero
}

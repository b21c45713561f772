// The queue of received entries.
ghost use Rattle.std.specs.Prelude.{◌≡◌, ◌<◌, ◌≤◌};
ghost use Rattle.queue.specs.Queue.{put_entry, take_entry, no_entries, no_entry, zero_entry, entry_rest, no_errors, errors_of, errors_within, entries_within, any_error, entry_errors};

use crate::{Entry, EntryQueue, Errors, count_after, keeps, next_place, shift};
use sheet::limits;

// The entry of a place not in use. (Of a derived Default the check knows the fields, each apart.)
pub fn none() -> Entry
    ensures { result ≡ no_entry }
{
    Entry {
        byte: 0,
        pe: 0,
        fe: 0,
        bi: 0,
    }
}

// The queue with no entries.
#[tactic(auto, unfolding(crate::specs::Queue::no_entries))]
pub fn clear() -> EntryQueue
    ensures { result ≡ no_entries }
{
    let e = none();
    EntryQueue {
        entries: [e; limits::PLACES],
        count: 0,
    }
}

// Whether the entry is that of a place not in use. By its fields: with a derived `==` the test of all
// places takes five times as long.
fn is_zero(e: Entry) -> bool
    ensures { result ≡ zero_entry e }
{
    e.byte == 0 && e.pe == 0 && e.fe == 0 && e.bi == 0
}

// Whether every place from `count` on is zero. All places are gone over, so that the compiler tests
// several at once and copies none.
pub fn rest_is_zero(q: EntryQueue) -> bool
    ensures { result ≡ entry_rest q }
{
    let count = q.count;
    let mut zero = true;
    for (i, e) in q.entries.iter().enumerate() {
        zero &= (i as u32) < count || is_zero(*e);
    }
    zero
}

// PE, FE and BI of the entry. (`Errors::from` would not say which of its fields they are.)
pub fn errors_of(e: Entry) -> Errors
    ensures { result ≡ errors_of e }
{
    Errors {
        pe: e.pe,
        fe: e.fe,
        bi: e.bi,
    }
}

// No error.
pub fn no_errors() -> Errors
    ensures { result ≡ no_errors }
{
    Errors {
        pe: 0,
        fe: 0,
        bi: 0,
    }
}

// Whether PE, FE and BI are each at most n.
pub fn errors_within(e: Errors, n: u8) -> bool
    ensures { result ≡ errors_within n e }
{
    e.pe <= n && e.fe <= n && e.bi <= n
}

// Whether PE, FE and BI of every entry are each at most n. With `all` it takes three times as long.
pub fn entries_within(q: EntryQueue, n: u8) -> bool
    ensures { result ≡ entries_within n q }
{
    let mut within = true;
    for e in &q.entries {
        within &= errors_within(errors_of(*e), n);
    }
    within
}

// Whether PE, FE or BI is set.
pub fn any_set(e: Errors) -> bool
    ensures { result ≡ any_error e }
{
    e.pe == 1 || e.fe == 1 || e.bi == 1
}

// The queue of this capacity with e behind the last entry. A full one keeps its entries, but a
// queue of one place has its entry replaced.
#[tactic(auto, unfolding(crate::specs::Queue::put_entry, crate::specs::Queue::places_put, crate::specs::Queue::count_put))]
pub fn put(q: EntryQueue, capacity: u32, e: Entry) -> EntryQueue
    requires { capacity ≤ 64 }
    ensures { result ≡ put_entry capacity q e }
{
    let count = q.count;
    if keeps(count, capacity) {
        return q;
    }
    let mut next = q;
    let at = next_place(count, capacity);
    next.entries[at] = e;
    next.count = count_after(count, capacity);
    next
}

// Whether some entry in the queue has an error. With `any` it takes twice as long.
pub fn any_error(q: EntryQueue) -> bool
    ensures { result ≡ entry_errors q }
{
    let n = (q.count as usize).min(limits::PLACES);
    let mut error = false;
    for e in &q.entries[..n] {
        error |= any_set(errors_of(*e));
    }
    error
}

// The queue without its oldest entry.
#[tactic(auto, unfolding(crate::specs::Queue::take_entry))]
pub fn take(q: EntryQueue) -> EntryQueue
    requires { 0 < q.count }
    ensures { result ≡ take_entry q }
{
    let mut entries = q.entries;
    shift(&mut entries, none());
    EntryQueue {
        entries,
        count: q.count - 1,
    }
}

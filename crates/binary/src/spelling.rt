// An event as the bytes that the binary form writes: the byte of its kind, and its numbers in groups.
ghost use Rattle.std.specs.Prelude.{◌≡◌, ◌+◌, ◌≤◌, length};
ghost use Rattle.groups.specs.Groups.{groups_of};
ghost use Rattle.groups.specs.Puts.{put_all};
ghost use Rattle.rows.specs.Rows.{plain_of};
ghost use Rattle.rows.specs.Events.{insert, retraction, plain_event};
ghost use Rattle.binary.specs.Writing.{numbers_of, Small, all_groups, spelled, event_bytes};

use crate::kind::EventKind;
use groups::{groups_len, put_groups};
use rows::event::Event;
use rows::payload::Payload;
use rows::row::Row;

fn numbers_len(numbers: &[u32]) -> usize
    requires { length numbers.now ≤ 6 }
    ensures value { result ≡ length (all_groups numbers.now) }
    ensures few { result ≤ 30 }
{
    numbers.iter().map(|n| groups_len(*n)).sum()
}

// The slice and a place in it stand side by side from here on: a struct that held the slice by `&mut` would have to say of each
// call what it is lent.
fn put_number(out: &mut [u8], at: usize, n: u32) -> usize
    requires { at + length (groups_of n) ≤ length out.old }
    ensures place { result ≡ at + length (groups_of n) }
    ensures after { out.new ≡ put_all out.old at (groups_of n) }
{
    put_groups(out, at, n).unwrap()
}

fn put_numbers(out: &mut [u8], at: usize, numbers: &[u32]) -> usize
    requires { at + length (all_groups numbers.now) ≤ length out.old }
    ensures place { result ≡ at + length (all_groups numbers.now) }
    ensures after { out.new ≡ put_all out.old at (all_groups numbers.now) }
{
    // A plain loop: a chain's closure would have to change the slice that it writes into.
    let mut place = at;
    for n in numbers {
        place = put_number(out, place, *n);
    }
    place
}

fn put_spelled(out: &mut [u8], at: usize, kind: EventKind, numbers: &[u32]) -> usize
    requires { at + length (spelled kind numbers.now) ≤ length out.old }
    ensures place { result ≡ at + length (spelled kind numbers.now) }
    ensures after { out.new ≡ put_all out.old at (spelled kind numbers.now) }
{
    out[at] = kind as u8;
    put_numbers(out, at + 1, numbers)
}

// The numbers of an insert, in the order of its fields. That they are numbers of 32 bits is said by each function that makes
// some: a plain array of numbers tells a proof nothing of its elements.
fn inserted<P: Payload>(row: Row<P>) -> [u32; 5]
    ensures value { result ≡ numbers_of (insert (plain_of P.Payload.pair row)) }
    ensures small { Small (numbers_of (insert (plain_of P.Payload.pair row))) }
{
    let (key, value) = (row.payload.key(), row.payload.value());
    [row.id, row.span.start(), row.span.end(), key, value]
}

// The numbers of a retraction, in the order of its fields.
fn retracted<P: Payload>(row: Row<P>, new_end: u32) -> [u32; 6]
    ensures value { result ≡ numbers_of (retraction (plain_of P.Payload.pair row) new_end) }
    ensures small { Small (numbers_of (retraction (plain_of P.Payload.pair row) new_end)) }
{
    let [id, start, end, key, value] = inserted(row);
    [id, start, end, new_end, key, value]
}

// How many bytes an event takes.
pub(crate) fn event_len<P: Payload>(event: Event<P>) -> usize
    ensures { result ≡ length (event_bytes (plain_event P.Payload.pair event)) }
{
    1 + match event {
        Event::Insert(row) => numbers_len(&inserted(row)),
        Event::Retraction { row, new_end } => numbers_len(&retracted(row, new_end)),
        Event::Cti(time) => numbers_len(&[time]),
    }
}

// Writes an event from the place `at` on, and tells the place after it.
pub(crate) fn put_event<P: Payload>(out: &mut [u8], at: usize, event: Event<P>) -> usize
    requires { at + length (event_bytes (plain_event P.Payload.pair event)) ≤ length out.old }
    ensures place { result ≡ at + length (event_bytes (plain_event P.Payload.pair event)) }
    ensures after { out.new ≡ put_all out.old at (event_bytes (plain_event P.Payload.pair event)) }
    ensures small { Small (numbers_of (plain_event P.Payload.pair event)) }
{
    match event {
        Event::Insert(row) => put_spelled(out, at, EventKind::Insert, &inserted(row)),
        Event::Retraction { row, new_end } => {
            put_spelled(out, at, EventKind::Retraction, &retracted(row, new_end))
        }
        Event::Cti(time) => put_spelled(out, at, EventKind::Cti, &[time]),
    }
}

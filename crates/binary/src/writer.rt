// Writing events in binary.
ghost use Rattle.std.specs.Prelude.{◌≡◌, ◌≤◌, length, take, if◌then◌else◌, Ok, Err, MatchResult, nat_le};
ghost use Rattle.refusals.specs.declared.refusal.Refusal.TheVariants.{BadTime};
ghost use Rattle.groups.specs.Puts.{put_all};
ghost use Rattle.sources.specs.Listing.{listed_stream};
ghost use Rattle.binary.specs.Writing.{all_timely, AllSmall, file_bytes, written};
ghost use Rattle.binary.specs.Canonical.{Spells};

use crate::spelling::{event_len, put_event};
use files::reader::LONGEST;
use refusals::refusal::Refusal;
use rows::event::Event;
use rows::payload::Payload;

fn judge_all<P: Payload>(events: &[Event<P>]) -> Result<(), Refusal>
    ensures { result ≡ (if all_timely P.Payload.pair events.now then Ok tt else Err BadTime) }
{
    // A plain loop: of a `try_for_each` a proof knows the events by their places, and the law goes down the list.
    for event in events {
        event.judge_times()?;
    }
    Ok(())
}

// Whether the events take at most `room` bytes.
fn fit<P: Payload>(events: &[Event<P>], room: usize) -> bool
    ensures { result ≡ nat_le (length (file_bytes P.Payload.pair events.now)) room }
{
    events
        .iter()
        .try_fold(0usize, |sum, event| {
            // Once the sum is past the room, no more lengths are reckoned.
            if sum > room {
                None
            } else {
                sum.checked_add(event_len(*event))
            }
        })
        .is_some_and(|sum| sum <= room)
}

fn put_events<P: Payload>(events: &[Event<P>], out: &mut [u8]) -> usize
    requires { length (file_bytes P.Payload.pair events.now) ≤ length out.old }
    ensures place { result ≡ length (file_bytes P.Payload.pair events.now) }
    ensures after { out.new ≡ put_all out.old 0 (file_bytes P.Payload.pair events.now) }
    ensures small { AllSmall P.Payload.pair events.now }
{
    // A plain loop: a chain's closure would have to change the slice that it writes into.
    let mut place = 0;
    for event in events {
        place = put_event(out, place, *event);
    }
    place
}

// Writes events from the front of the slice and tells how many bytes they are: the only bytes that are read as these events.
// BadTime where an event's times are not lawful, else OutFull where places lack or the file would be longer than 65,536 bytes;
// then nothing is written.
pub fn write<P: Payload>(events: &[Event<P>], out: &mut [u8]) -> Result<usize, Refusal>
    ensures value { (result, out.new) ≡ written P.Payload.pair events.now out.old }
    ensures exact { MatchResult result
        (λ n. Spells P.Payload.kind (listed_stream P.Payload.pair events.now 0) (take n out.new))
        (λ _. Unit {0}) }
{
    judge_all(events)?;
    if !fit(events, out.len().min(LONGEST)) {
        return Err(Refusal::OutFull);
    }
    Ok(put_events(events, out))
}

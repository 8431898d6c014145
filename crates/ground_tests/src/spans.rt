// Spans, retractions and sync times.
use kinds::tally::Tally;
use refusals::refusal::Refusal;
use rows::event::Event;
use rows::payload::Payload;
use rows::row::Row;
use rows::span::Span;
use std::test::Fail;

const LAST: u32 = 4_000_000_000;

const FOREVER: u32 = 4_294_967_295;

#[test]
fn spans_are_made_of_lawful_times(rt: HostRuntime) -> Result<(), Fail> {
    let lawful = [
        (0, 1),
        (5, 6),
        (0, LAST),
        (3_999_999_999, LAST),
        (0, FOREVER),
        (LAST, FOREVER),
    ];
    for (start, end) in lawful {
        let span = Span::new(start, end)?;
        assert_eq!(rt; (span.start(), span.end()), (start, end));
    }
    let unlawful = [
        (0, 0),
        (6, 5),
        (LAST, LAST),
        (LAST, 3_999_999_999),
        (0, 4_000_000_001),
        (0, 4_294_967_294),
        (4_000_000_001, FOREVER),
        (FOREVER, FOREVER),
    ];
    for (start, end) in unlawful {
        assert_eq!(rt; Span::new(start, end), Err(Refusal::BadTime));
    }
    Ok(())
}

#[test]
fn retractions_leave_a_shorter_a_longer_or_no_span(rt: HostRuntime) -> Result<(), Fail> {
    let left = [
        (10, 50, 20, 10, 20),
        (10, 50, 11, 10, 11),
        (10, 50, 51, 10, 51),
        (10, 50, LAST, 10, LAST),
        (10, 50, FOREVER, 10, FOREVER),
        (10, FOREVER, 50, 10, 50),
    ];
    for (start, end, new_end, left_start, left_end) in left {
        let span = Span::new(start, end)?;
        assert!(rt; span.takes_end(new_end));
        assert_eq!(rt;
            span.retracted(new_end),
            Ok(Some(Span::new(left_start, left_end)?))
        );
    }
    let taken_away = [(10, 50), (0, 1), (10, FOREVER), (LAST, FOREVER)];
    for (start, end) in taken_away {
        let span = Span::new(start, end)?;
        assert!(rt; span.takes_end(start));
        assert_eq!(rt; span.retracted(start), Ok(None));
    }
    let refused = [
        (10, 50, 50),
        (10, FOREVER, FOREVER),
        (10, 50, 9),
        (10, 50, 0),
        (10, 50, 4_000_000_001),
        (10, 50, 4_294_967_294),
    ];
    for (start, end, new_end) in refused {
        let span = Span::new(start, end)?;
        assert!(rt; !span.takes_end(new_end));
        assert_eq!(rt; span.retracted(new_end), Err(Refusal::BadTime));
    }
    Ok(())
}

// An event's sync time, and whether its times are lawful.
#[test]
fn events_have_sync_times(rt: HostRuntime) -> Result<(), Fail> {
    let row = Row {
        id: 7,
        span: Span::new(10, 50)?,
        payload: Tally::make(12, 3)?,
    };
    let cases = [
        (Event::Insert(row), 10, true),
        (Event::Retraction { row, new_end: 80 }, 50, true),
        (Event::Retraction { row, new_end: 20 }, 20, true),
        (Event::Retraction { row, new_end: 10 }, 10, true),
        (
            Event::Retraction {
                row,
                new_end: FOREVER,
            },
            50,
            true,
        ),
        (Event::Retraction { row, new_end: 50 }, 50, false),
        (Event::Retraction { row, new_end: 9 }, 9, false),
        (
            Event::Retraction {
                row,
                new_end: 4_000_000_001,
            },
            50,
            false,
        ),
        (Event::Cti(0), 0, true),
        (Event::Cti(LAST), LAST, true),
        (Event::Cti(4_000_000_001), 4_000_000_001, false),
        (Event::Cti(FOREVER), FOREVER, false),
    ];
    for (event, time, lawful) in cases {
        assert_eq!(rt; event.sync(), time);
        assert_eq!(rt; event.judge_times().is_ok(), lawful);
    }
    Ok(())
}

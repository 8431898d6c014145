// Weights, tallies and readings, and rows with them.
use kinds::reading::Reading;
use kinds::tally::Tally;
use refusals::refusal::Refusal;
use rows::payload::Payload;
use rows::row::{PlainRow, Row};
use rows::span::Span;
use std::test::Fail;
use weights::grams_of;

// 12 grams a count, and one more for each of the counts from 1,536 to 3,071 below it.
fn expected_grams(count: u32) -> u64 {
    let count = u64::from(count);
    12 * count + count.saturating_sub(1_536).min(1_536)
}

#[test]
fn every_count_has_its_weight(rt: HostRuntime) -> Result<(), Fail> {
    for count in 0..4_096 {
        let Some(grams) = grams_of(count) else {
            return Err(Fail::new("a count has no weight"));
        };
        assert_eq!(rt; u64::from(grams), expected_grams(count));
    }
    for count in [4_096, 65_535, u32::MAX] {
        assert_eq!(rt; grams_of(count), None);
    }
    Ok(())
}

// Key and value, least and most.
#[test]
fn tallies_and_readings_tell_least_and_most(rt: HostRuntime) -> Result<(), Fail> {
    assert_eq!(rt; Tally::top(), 99);
    assert_eq!(rt; Reading::top(), 4_095);
    for (key, pieces) in [(0, 0), (12, 3), (9_999, 99)] {
        let tally = Tally::make(key, pieces)?;
        assert_eq!(rt; (tally.key(), tally.value()), (key, pieces));
        assert_eq!(rt; (tally.least(), tally.most()), (pieces, pieces));
    }
    let readings = [
        (0, 0, 0, 0),
        (12, 1, 12, 12),
        (12, 1_000, 12_000, 12_000),
        (12, 1_536, 18_432, 18_432),
        (12, 1_537, 18_445, 18_445),
        (12, 3_072, 38_400, 38_400),
        (9_999, 4_094, 50_664, 50_664),
        (9_999, 4_095, 50_676, 4_294_967_295),
    ];
    for (key, count, least, most) in readings {
        let reading = Reading::make(key, count)?;
        assert_eq!(rt; (reading.key(), reading.value()), (key, count));
        assert_eq!(rt; (reading.least(), reading.most()), (least, most));
    }
    Ok(())
}

#[test]
fn payloads_out_of_range_are_refused(rt: HostRuntime) {
    for (key, value) in [
        (10_000, 0),
        (0, 100),
        (u32::MAX, 99),
        (9_999, u32::MAX),
        (10_000, 100),
    ] {
        assert_eq!(rt; Tally::make(key, value), Err(Refusal::BadPayload));
    }
    for (key, value) in [
        (10_000, 0),
        (0, 4_096),
        (u32::MAX, 4_095),
        (9_999, u32::MAX),
        (10_000, 4_096),
    ] {
        assert_eq!(rt; Reading::make(key, value), Err(Refusal::BadPayload));
    }
}

// A plain row keeps the numbers of its payload, and is made back of its own kind only where they are in range.
#[test]
fn rows_go_to_plain_and_back(rt: HostRuntime) -> Result<(), Fail> {
    let span = Span::new(10, 50)?;
    let row = Row {
        id: u32::MAX,
        span,
        payload: Reading::make(12, 100)?,
    };
    let plain = row.plain();
    assert_eq!(rt;
        plain,
        PlainRow {
            id: u32::MAX,
            span,
            key: 12,
            value: 100
        }
    );
    assert_eq!(rt; plain.typed::<Reading>(), Ok(row));
    assert_eq!(rt; plain.typed::<Tally>(), Err(Refusal::BadPayload));
    Ok(())
}

// The number of each refusal, and the text of faults.
use refusals::fault::{Fault, Side};
use refusals::refusal::Refusal;
use std::test::Fail;

#[test]
fn refusals_have_their_numbers(rt: HostRuntime) {
    let all = [
        Refusal::TooLong,
        Refusal::CutOff,
        Refusal::BadByte,
        Refusal::BadNumber,
        Refusal::BadPayload,
        Refusal::BadTime,
        Refusal::OutOfTime,
        Refusal::CtiViolated,
        Refusal::IdInUse,
        Refusal::NoSuchRow,
        Refusal::OtherRow,
        Refusal::StoreFull,
        Refusal::NotYet,
        Refusal::WindowsFull,
        Refusal::LinesFull,
        Refusal::BadWidth,
        Refusal::BadRule,
        Refusal::OutFull,
    ];
    for (before, refusal) in all.iter().enumerate() {
        assert_eq!(rt; usize::from(refusal.number()), before + 1);
    }
}

#[test]
fn faults_are_printed(rt: HostRuntime) -> Result<(), Fail> {
    let cases = [
        (Fault::bare(Refusal::OutFull), "F 18 - - - -"),
        (Fault::at_event(Refusal::TooLong, 0, 1), "F 1 - 0 1 -"),
        (
            Fault::at_event(Refusal::CtiViolated, 2, 70)
                .on_side(Side::Right)
                .with_cti(900),
            "F 8 R 2 70 900",
        ),
        (
            Fault::bare(Refusal::CutOff).on_side(Side::Left),
            "F 2 L - - -",
        ),
    ];
    for (fault, text) in cases {
        assert_eq!(rt; format!(in rt.alloc(); "{fault}")?.as_str(), text);
    }
    Ok(())
}

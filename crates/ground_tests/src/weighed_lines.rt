// Lines of shelf numbers, and whole inputs.
use refusals::fault::Fault;
use refusals::refusal::Refusal;
use std::test::Fail;
use weighing::input::weigh_all;
use weighing::line::weigh_line;

#[test]
fn lines_are_weighed(rt: HostRuntime) -> Result<(), Fail> {
    let cases = [
        ("0\n", "0 0 0", ""),
        ("1\n2\n", "1 12 12", "2\n"),
        ("1000\n", "1000 12000 12000", ""),
        ("1536\nx", "1536 18432 18432", "x"),
        ("3072\n", "3072 38400 38400", ""),
        ("4094\n", "4094 50664 50664", ""),
        ("4095\n\n", "4095 50676 *", "\n"),
    ];
    for (text, printed, rest) in cases {
        let (weighed, left) = weigh_line(text.as_bytes())?;
        assert_eq!(rt; format!(in rt.alloc(); "{weighed}")?.as_str(), printed);
        assert_eq!(rt; left, rest.as_bytes());
    }
    Ok(())
}

#[test]
fn lines_are_refused(rt: HostRuntime) -> Result<(), Fail> {
    let cases = [
        ("", Refusal::CutOff),
        ("12", Refusal::CutOff),
        ("4096", Refusal::CutOff),
        ("\n", Refusal::BadByte),
        ("x\n", Refusal::BadByte),
        ("12 \n", Refusal::BadByte),
        ("12\r\n", Refusal::BadByte),
        ("4096 \n", Refusal::BadByte),
        ("012\n", Refusal::BadNumber),
        ("4294967296", Refusal::BadNumber),
        ("4096\n", Refusal::BadPayload),
        ("4294967295\n", Refusal::BadPayload),
    ];
    for (text, refusal) in cases {
        match weigh_line(text.as_bytes()) {
            Ok(_) => return Err(Fail::new("a line that is to be refused is weighed")),
            Err(met) => assert_eq!(rt; met, refusal),
        }
    }
    Ok(())
}

#[test]
fn inputs_are_weighed_up_to_the_first_fault(rt: HostRuntime) -> Result<(), Fail> {
    let cases = [
        ("", 0, None),
        ("7\n8\n9\n", 3, None),
        ("7\n8\n9", 2, Some(Fault::at_event(Refusal::CutOff, 0, 3))),
        ("7\n\n9\n", 1, Some(Fault::at_event(Refusal::BadByte, 0, 2))),
        (
            "4096\n8\n",
            0,
            Some(Fault::at_event(Refusal::BadPayload, 0, 1)),
        ),
        (
            "7\n08\n9\n",
            1,
            Some(Fault::at_event(Refusal::BadNumber, 0, 2)),
        ),
    ];
    for (text, count, fault) in cases {
        let report = weigh_all(rt.alloc(), text.as_bytes())?;
        assert_eq!(rt; report.weighed.len(), count);
        assert_eq!(rt; report.fault, fault);
    }
    Ok(())
}

#[test]
fn an_input_may_have_65536_bytes(rt: HostRuntime) -> Result<(), Fail> {
    let mut text = String::new(rt.alloc());
    for _ in 0..32_768 {
        text.push_str("5\n")?;
    }
    let report = weigh_all(rt.alloc(), text.as_bytes())?;
    assert_eq!(rt; report.weighed.len(), 32_768);
    assert_eq!(rt; report.fault, None);
    text.push_str("5")?;
    let longer = weigh_all(rt.alloc(), text.as_bytes())?;
    assert_eq!(rt; longer.weighed.len(), 0);
    assert_eq!(rt; longer.fault, Some(Fault::at_event(Refusal::TooLong, 0, 1)));
    Ok(())
}

// Decimal numbers at the front of some bytes.
use decimals::{decimal, decimal_fault};
use refusals::refusal::Refusal;

#[test]
fn numbers_are_read(rt: HostRuntime) {
    let cases = [
        ("0", 0, ""),
        ("7 8", 7, " 8"),
        ("10\n", 10, "\n"),
        ("4095x", 4_095, "x"),
        ("4294967295", 4_294_967_295, ""),
        ("4294967295-", 4_294_967_295, "-"),
    ];
    for (text, number, rest) in cases {
        assert_eq!(rt; decimal_fault(text.as_bytes()), None);
        let (read, left) = decimal(text.as_bytes());
        assert_eq!(rt; read, number);
        assert_eq!(rt; left, rest.as_bytes());
    }
}

#[test]
fn other_texts_are_refused(rt: HostRuntime) {
    let cases = [
        ("", Refusal::CutOff),
        ("x", Refusal::BadByte),
        (" 1", Refusal::BadByte),
        ("-1", Refusal::BadByte),
        ("/", Refusal::BadByte),
        (":", Refusal::BadByte),
        ("00", Refusal::BadNumber),
        ("01", Refusal::BadNumber),
        ("0123x", Refusal::BadNumber),
        ("4294967296", Refusal::BadNumber),
        ("42949672950", Refusal::BadNumber),
        ("99999999999999999999999999", Refusal::BadNumber),
    ];
    for (text, refusal) in cases {
        assert_eq!(rt; decimal_fault(text.as_bytes()), Some(refusal));
    }
}

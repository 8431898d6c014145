// The two forms and the writer on small files.
use crate::outcomes::{cut, replaced, told};
use crate::tables::{
    BINARY, BINARY_CUT, BINARY_REPLACED, BINARY_TELLING, TEXT, TEXT_CUT, TEXT_REPLACED,
    TEXT_TELLING,
};
use binary::form::Binary;
use binary::writer::write;
use kinds::reading::Reading;
use packing::file::pack;
use refusals::fault::{Fault, Side};
use refusals::refusal::Refusal;
use rows::event::Event;
use std::test::Fail;
use text::form::Text;

#[test]
fn cut_at_every_byte(rt: HostRuntime) {
    assert!(rt; cut::<Text, Reading>(&TEXT, &TEXT_CUT));
    assert!(rt; cut::<Binary, Reading>(&BINARY, &BINARY_CUT));
}

#[test]
fn each_byte_replaced(rt: HostRuntime) {
    let mut text = TEXT;
    assert!(rt; replaced::<Text, Reading>(&mut text, &TEXT_TELLING, &TEXT_REPLACED));
    let mut binary = BINARY;
    assert!(rt; replaced::<Binary, Reading>(&mut binary, &BINARY_TELLING, &BINARY_REPLACED));
}

#[test]
fn numbers_before_what_follows(rt: HostRuntime) {
    assert_eq!(rt; told::<Text, Reading>(b"C 99999999999"), Err((4, 1)));
    assert_eq!(rt; told::<Text, Reading>(b"C 12"), Err((2, 1)));
    assert_eq!(rt; told::<Text, Reading>(b"C 12x"), Err((3, 1)));
    assert_eq!(rt; told::<Text, Reading>(b"C 012"), Err((4, 1)));
    assert_eq!(rt; told::<Text, Reading>(b"C "), Err((2, 1)));
    assert_eq!(rt; told::<Text, Reading>(b"C *\n"), Err((3, 1)));
    assert_eq!(rt;
        told::<Text, Reading>(b"C 4000000000\nC 4000000001\n"),
        Err((6, 2))
    );
    assert_eq!(rt; told::<Text, Reading>(b"I 4294967295 15 * 7 4095\n"), Ok(1));
    assert_eq!(rt;
        told::<Text, Reading>(b"I 1 15 4294967295 7 4095\n"),
        Err((6, 1))
    );
    assert_eq!(rt;
        told::<Text, Reading>(b"I 1 15 4294967295 7 4096\n"),
        Err((5, 1))
    );
}

#[test]
fn longest_file(rt: HostRuntime) {
    let ctis = [3u8; 65_537];
    assert_eq!(rt; told::<Binary, Reading>(&ctis[0..65_536]), Ok(32_768));
    assert_eq!(rt; told::<Binary, Reading>(&ctis[0..65_535]), Err((2, 32_768)));
    assert_eq!(rt; told::<Binary, Reading>(&ctis), Err((1, 1)));
    assert_eq!(rt; told::<Text, Reading>(&ctis), Err((1, 1)));
}

#[test]
fn written_and_refused(rt: HostRuntime) {
    let events: [Event<Reading>; 2] = [Event::Cti(300), Event::Cti(40)];
    let mut out = [9u8; 6];
    assert_eq!(rt; write(&events, &mut out), Ok(5));
    assert!(rt; out == [3, 172, 2, 3, 40, 9]);
    let mut short = [9u8; 4];
    assert_eq!(rt; write(&events, &mut short), Err(Refusal::OutFull));
    assert!(rt; short == [9, 9, 9, 9]);
    let late: [Event<Reading>; 2] = [Event::Cti(300), Event::Cti(4_000_000_001)];
    assert_eq!(rt; write(&late, &mut out), Err(Refusal::BadTime));
    assert!(rt; out == [3, 172, 2, 3, 40, 9]);
}

#[test]
fn text_is_packed(rt: HostRuntime) -> Result<(), Fail> {
    let mut out = [0u8; BINARY.len()];
    match pack::<Reading>(rt.alloc(), Side::Right, &TEXT, &mut out)? {
        Ok(packed) => {
            assert_eq!(rt; packed.events, 3);
            assert_eq!(rt; packed.bytes, BINARY.len());
            assert!(rt; out == BINARY);
            Ok(())
        }
        Err(_) => Err(Fail::new("the text is refused")),
    }
}

#[test]
fn refused_text_is_not_packed(rt: HostRuntime) -> Result<(), Fail> {
    let mut out = [9u8; 8];
    match pack::<Reading>(rt.alloc(), Side::Right, b"C 40\nC 12x", &mut out)? {
        Ok(_) => Err(Fail::new("the text is packed")),
        Err(fault) => {
            assert_eq!(rt;
                fault,
                Fault::at_event(Refusal::BadByte, 0, 2).on_side(Side::Right)
            );
            assert!(rt; out == [9, 9, 9, 9, 9, 9, 9, 9]);
            Ok(())
        }
    }
}

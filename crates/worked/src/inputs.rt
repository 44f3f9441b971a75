//! The bytes of design E, listed and settled: text buffers that just suffice, and that are one byte too short.

use crate::reading::{LINES_OF_E, too_short};
use bench::inputs::list_input;
use bench::programmed::list_program;
use std::test::Fail;

/// The words of design E as bytes.
const BYTES_OF_E: [u8; 32] =
    *b"\x10\0\0\x02\x20\0\0\0\x30\0\0\x40\x30\0\0\x01\x20\0\0\x21\x30\0\0\x20\x40\0\0\0\x50\0\0\x08";

/// The lines of its array program, settled.
const PROGRAM_OF_E: [u8; 99] =
    *b"80000082\n90000080\n90000041\n90000020\nA0002000\nB0000080\nB0000041\nA0000021\nB0000020\nC0000000\nD000000B\n";

#[test]
fn the_bytes_of_design_e_list(rt: HostRuntime) -> Result<(), Fail> {
    let mut text = [7; 73];
    let answer = list_input(&BYTES_OF_E, &mut text[0..71]);
    assert_eq!(rt; answer.err(), Some(too_short(71, 72)));
    assert!(rt; text == [7; 73]);
    assert_eq!(rt; list_input(&BYTES_OF_E, &mut text[0..72])?, 72);
    assert!(rt; &text[0..72] == LINES_OF_E.as_slice());
    assert_eq!(rt; text[72], 7);
    Ok(())
}

#[test]
fn the_bytes_of_design_e_settle(rt: HostRuntime) -> Result<(), Fail> {
    let mut text = [7; 100];
    let answer = list_program(&BYTES_OF_E, &mut text[0..98]);
    assert_eq!(rt; answer.err(), Some(too_short(98, 99)));
    assert!(rt; text == [7; 100]);
    assert_eq!(rt; list_program(&BYTES_OF_E, &mut text[0..99])?, 99);
    assert!(rt; &text[0..99] == PROGRAM_OF_E.as_slice());
    assert_eq!(rt; text[99], 7);
    Ok(())
}

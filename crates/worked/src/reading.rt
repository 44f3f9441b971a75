//! Design E read, written and listed, and one refusal by each question of reading and writing.

use crate::buffers::shorter_buffers_stay;
use bench::listing::list_design;
use bench::rewriting::rewrite;
use bench::writer::write_design;
use examples::designs::DESIGN_E;
use std::test::Fail;
use words::faults::{
    BenchQuestion, DesignQuestion, Fault, MachineQuestion, Question, WordsQuestion,
};
use words::input::InputWords;
use words::reader::read_design;

/// The lines of design E.
pub(crate) const LINES_OF_E: [u8; 72] =
    *b"10000002\n20000000\n30000040\n30000001\n20000021\n30000020\n40000000\n50000008\n";

/// What a call answers that refuses by a question.
pub(crate) fn by<Q: Question>(question: Q, place: usize, other: usize) -> Option<Fault> {
    Some(question.refused(place, other))
}

#[test]
fn design_e_reads(rt: HostRuntime) -> Result<(), Fail> {
    let design = read_design(&DESIGN_E)?;
    assert_eq!(rt; design.count(), 2);
    assert_eq!(rt; design.operation(0), Some(0));
    assert_eq!(rt; design.operation(1), Some(1));
    assert_eq!(rt; design.operation(2), None);
    assert_eq!(rt; design.feed(0, 0), Some(1));
    assert_eq!(rt; design.feed(0, 1), Some(0));
    assert_eq!(rt; design.feed(0, 32), None);
    assert_eq!(rt; design.feed(1, 0), None);
    assert_eq!(rt; design.feed(1, 32), Some(0));
    assert_eq!(rt; design.output().node, 0);
    assert_eq!(rt; design.output().delay, 0);
    assert_eq!(rt; design.size(), 8);
    Ok(())
}

#[test]
fn design_e_writes_back(rt: HostRuntime) -> Result<(), Fail> {
    let design = read_design(&DESIGN_E)?;
    let mut words = [7; 9];
    assert_eq!(rt; write_design(&design, &mut words)?, 8);
    assert!(rt;
        words
            == [
                0x10000002, 0x20000000, 0x30000040, 0x30000001, 0x20000021, 0x30000020, 0x40000000,
                0x50000008, 7,
            ]
    );
    Ok(())
}

#[test]
fn short_buffers_stay(rt: HostRuntime) -> Result<(), Fail> {
    let design = read_design(&DESIGN_E)?;
    let mut words = [7; 7];
    let fault = BenchQuestion::Buffer.refused(7, 8);
    assert!(rt; write_design(&design, &mut words) == Err(fault));
    assert!(rt; words == [7; 7]);
    Ok(())
}

pub(crate) fn too_short(place: usize, other: usize) -> Fault {
    BenchQuestion::Buffer.refused(place, other)
}

#[test]
fn word_buffers_of_every_length(rt: HostRuntime) -> Result<(), Fail> {
    let design = read_design(&DESIGN_E)?;
    shorter_buffers_stay(
        [7; 9],
        8,
        |words| write_design(&design, words).err(),
        |length| too_short(length, 8),
    )?;
    let mut words = [7; 9];
    assert_eq!(rt; write_design(&design, &mut words[0..8])?, 8);
    assert!(rt; &words[0..8] == DESIGN_E.as_slice());
    assert_eq!(rt; words[8], 7);
    Ok(())
}

#[test]
fn text_buffers_of_every_length(rt: HostRuntime) -> Result<(), Fail> {
    let design = read_design(&DESIGN_E)?;
    shorter_buffers_stay(
        [7; 73],
        72,
        |text| list_design(&design, text).err(),
        |length| too_short(length, 72),
    )?;
    for length in 72..74 {
        let mut text = [7; 73];
        assert_eq!(rt; list_design(&design, &mut text[0..length])?, 72);
        assert!(rt; &text[0..72] == LINES_OF_E.as_slice());
        assert_eq!(rt; text[72], 7);
    }
    Ok(())
}

#[test]
fn copies_of_every_length(rt: HostRuntime) -> Result<(), Fail> {
    shorter_buffers_stay(
        [7; 9],
        8,
        |copy| rewrite(&DESIGN_E, copy).err(),
        |length| too_short(length, 8),
    )?;
    for length in 8..10 {
        let mut copy = [7; 9];
        let again = rewrite(&DESIGN_E, &mut copy[0..length])?;
        assert_eq!(rt; again.size(), 8);
        assert_eq!(rt; again.feed(0, 0), Some(1));
        assert!(rt; &copy[0..8] == DESIGN_E.as_slice());
        assert_eq!(rt; copy[8], 7);
    }
    Ok(())
}

#[test]
fn one_node_lists(rt: HostRuntime) -> Result<(), Fail> {
    let design = read_design(&[0x10000001, 0x20001FE0, 0x40003FC0, 0x50000004])?;
    let mut text = [b'-'; 40];
    assert_eq!(rt; list_design(&design, &mut text)?, 36);
    assert!(rt; text == *b"10000001\n20001FE0\n40003FC0\n50000004\n----");
    Ok(())
}

#[test]
fn each_question_refuses(rt: HostRuntime) {
    assert_eq!(rt; read_design(&[]).err(), by(WordsQuestion::Word, 0, 0));
    assert_eq!(rt;
        read_design(&[0x20000000]).err(),
        by(WordsQuestion::Kind, 0, 0)
    );
    assert_eq!(rt;
        read_design(&[0x10000000]).err(),
        by(WordsQuestion::Range, 0, 0)
    );
    assert_eq!(rt;
        read_design(&[0x10000002, 0x20000001]).err(),
        by(WordsQuestion::Order, 1, 0)
    );
    assert_eq!(rt;
        read_design(&[0x10000001, 0x20000000, 0x40000000, 0x50000005]).err(),
        by(WordsQuestion::End, 3, 0)
    );
}

#[test]
fn questions_refuse_further_on(rt: HostRuntime) {
    assert_eq!(rt;
        read_design(&[0x10000001, 0x20000000]).err(),
        by(WordsQuestion::Word, 2, 0)
    );
    assert_eq!(rt;
        read_design(&[0x10000001, 0x30000020]).err(),
        by(WordsQuestion::Kind, 1, 0)
    );
    assert_eq!(rt;
        read_design(&[0x10000021]).err(),
        by(WordsQuestion::Range, 0, 0)
    );
    assert_eq!(rt;
        read_design(&[0x10000001, 0x20000001]).err(),
        by(WordsQuestion::Range, 1, 0)
    );
    assert_eq!(rt;
        read_design(&[0x10000001, 0x20000000, 0x30000020, 0x30000000]).err(),
        by(WordsQuestion::Order, 3, 0)
    );
    assert_eq!(rt;
        read_design(&[0x10000001, 0x20000000, 0x40000000, 0x50000004, 0]).err(),
        by(WordsQuestion::End, 3, 0)
    );
}

#[test]
fn left_over_bytes_refuse(rt: HostRuntime) -> Result<(), Fail> {
    let input = InputWords::try_from(b"\x10\x00\x00\x01".as_slice())?;
    assert!(rt; input.as_slice() == [0x10000001].as_slice());
    let left_over = InputWords::try_from(b"\x10\x00\x00\x01\x20".as_slice());
    assert_eq!(rt; left_over.err(), by(WordsQuestion::Word, 1, 0));
    Ok(())
}

#[test]
fn questions_are_numbered(rt: HostRuntime) {
    assert_eq!(rt; WordsQuestion::Word.number(), 1);
    assert_eq!(rt; WordsQuestion::Kind.number(), 2);
    assert_eq!(rt; WordsQuestion::Range.number(), 3);
    assert_eq!(rt; WordsQuestion::Order.number(), 4);
    assert_eq!(rt; WordsQuestion::End.number(), 5);
    assert_eq!(rt; DesignQuestion::CycleBuffer.number(), 6);
    assert_eq!(rt; DesignQuestion::WellDefined.number(), 7);
    assert_eq!(rt; BenchQuestion::Row.number(), 8);
    assert_eq!(rt; BenchQuestion::Shift.number(), 9);
    assert_eq!(rt; BenchQuestion::Lag.number(), 10);
    assert_eq!(rt; BenchQuestion::Delay.number(), 11);
    assert_eq!(rt; BenchQuestion::Factor.number(), 12);
    assert_eq!(rt; BenchQuestion::Slowdown.number(), 13);
    assert_eq!(rt; BenchQuestion::Buffer.number(), 14);
    assert_eq!(rt; MachineQuestion::Tap.number(), 15);
    assert_eq!(rt; MachineQuestion::Line.number(), 16);
    assert_eq!(rt; MachineQuestion::RestRow.number(), 17);
    assert_eq!(rt; MachineQuestion::Registers.number(), 18);
    assert_eq!(rt; MachineQuestion::Cycle.number(), 19);
    assert_eq!(rt; MachineQuestion::Times.number(), 20);
    assert_eq!(rt; MachineQuestion::History.number(), 21);
    assert_eq!(rt; MachineQuestion::Outputs.number(), 22);
}

//! The array program of design E read, and refusals by each question of reading a program.

use crate::reading::by;
use examples::designs::DESIGN_E;
use std::test::Fail;
use words::faults::WordsQuestion;
use words::program_reader::read_program;
use words::program_table::Tap;

const PROGRAM_E: [u32; 11] = [
    0x80000082, 0x90000080, 0x90000041, 0x90000020, 0xA0002000, 0xB0000080, 0xB0000041, 0xA0000021,
    0xB0000020, 0xC0000000, 0xD000000B,
];

#[test]
fn program_e_reads(rt: HostRuntime) -> Result<(), Fail> {
    let program = read_program(&PROGRAM_E)?;
    assert_eq!(rt; program.count(), 2);
    assert_eq!(rt; program.factor(), 2);
    assert!(rt; program.lines() == [2, 1, 0].as_slice());
    assert_eq!(rt; program.cells().len(), 2);
    let output = Tap {
        source: 0,
        delay: 0,
    };
    assert_eq!(rt; program.output(), output);
    Ok(())
}

#[test]
fn cells_of_program_e_read(rt: HostRuntime) -> Result<(), Fail> {
    let program = read_program(&PROGRAM_E)?;
    for (index, cell) in program.cells().iter().enumerate() {
        assert_eq!(rt; usize::from(cell.node), index);
        assert_eq!(rt; usize::from(cell.operation), index);
        assert_eq!(rt; usize::from(cell.lag), 1 - index.min(1));
        assert_eq!(rt; cell.taps.len(), 2 - index.min(1));
    }
    Ok(())
}

#[test]
fn each_question_of_programs_refuses(rt: HostRuntime) {
    assert_eq!(rt; read_program(&[]).err(), by(WordsQuestion::Word, 0, 0));
    assert_eq!(rt;
        read_program(&DESIGN_E).err(),
        by(WordsQuestion::Kind, 0, 0)
    );
    assert_eq!(rt;
        read_program(&[0x80000002]).err(),
        by(WordsQuestion::Range, 0, 0)
    );
    assert_eq!(rt;
        read_program(&[0x80001042]).err(),
        by(WordsQuestion::Range, 0, 0)
    );
    assert_eq!(rt;
        read_program(&[0x80000082, 0x90000041]).err(),
        by(WordsQuestion::Order, 1, 0)
    );
    assert_eq!(rt;
        read_program(&[
            0x80000041, 0x90000000, 0x90000020, 0xA0000000, 0xC0000000, 0xD0000007
        ])
        .err(),
        by(WordsQuestion::End, 5, 0)
    );
}

#[test]
fn questions_of_programs_refuse_further_on(rt: HostRuntime) {
    assert_eq!(rt;
        read_program(&PROGRAM_E[..10]).err(),
        by(WordsQuestion::Word, 10, 0)
    );
    assert_eq!(rt;
        read_program(&[0x80000082, 0xA0000000]).err(),
        by(WordsQuestion::Kind, 1, 0)
    );
    assert_eq!(rt;
        read_program(&[0x80000041, 0x90000000, 0x90000020, 0xA2000000]).err(),
        by(WordsQuestion::Range, 3, 0)
    );
    assert_eq!(rt;
        read_program(&[
            0x80000082, 0x90000080, 0x90000041, 0x90000020, 0xA0002000, 0xA0000000
        ])
        .err(),
        by(WordsQuestion::Order, 5, 0)
    );
    assert_eq!(rt;
        read_program(&[
            0x80000041, 0x90000000, 0x90000020, 0xA0000000, 0xB0000000, 0xB0000040
        ])
        .err(),
        by(WordsQuestion::Order, 5, 0)
    );
    assert_eq!(rt;
        read_program(&[
            0x80000041, 0x90000000, 0x90000020, 0xA0000000, 0xC0000000, 0xD0000006, 0
        ])
        .err(),
        by(WordsQuestion::End, 5, 0)
    );
}

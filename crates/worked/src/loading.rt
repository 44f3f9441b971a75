//! The array program of design E loaded and started, and one refusal by each question of that.

use crate::reading::by;
use machine::machine::Machine;
use std::test::Fail;
use words::faults::{Fault, MachineQuestion, Question, WordsQuestion};

/// The array program of design E, settled.
const PROGRAM_E: [u32; 11] = [
    0x80000082, 0x90000080, 0x90000041, 0x90000020, 0xA0002000, 0xB0000080, 0xB0000041, 0xA0000021,
    0xB0000020, 0xC0000000, 0xD000000B,
];

/// What loading the program of design E answers that has other words at two places, where they are refused.
fn refused(place: usize, word: u32, other_place: usize, other_word: u32) -> Option<Fault> {
    let mut words = PROGRAM_E;
    if let Some(changed) = words.get_mut(place) {
        *changed = word;
    }
    if let Some(changed) = words.get_mut(other_place) {
        *changed = other_word;
    }
    Machine::load(&words).err()
}

#[test]
fn the_program_of_design_e_loads(rt: HostRuntime) -> Result<(), Fail> {
    let machine = Machine::load(&PROGRAM_E)?;
    assert_eq!(rt; machine.cycle(), 0);
    assert_eq!(rt; machine.registers(), 5);
    assert_eq!(rt; machine.program().count(), 2);
    assert_eq!(rt; machine.program().factor(), 2);
    Ok(())
}

#[test]
fn programs_are_refused(rt: HostRuntime) {
    let end = 0xD000000B;
    assert_eq!(rt; refused(4, 0xA0002020, 10, end), None);
    assert_eq!(rt;
        refused(0, 0x10000002, 10, end),
        by(WordsQuestion::Kind, 0, 0)
    );
    assert_eq!(rt;
        refused(6, 0xB0000001, 10, end),
        by(MachineQuestion::Tap, 6, 0)
    );
    assert_eq!(rt;
        refused(5, 0xB0000000, 10, end),
        by(MachineQuestion::Tap, 5, 0)
    );
    assert_eq!(rt;
        refused(2, 0x90000001, 10, end),
        by(MachineQuestion::Line, 2, 0)
    );
    assert_eq!(rt;
        refused(3, 0x90000060, 10, end),
        by(MachineQuestion::Line, 3, 0)
    );
    assert_eq!(rt;
        refused(3, 0x90000060, 6, 0xB0000001),
        by(MachineQuestion::Tap, 6, 0)
    );
}

#[test]
fn design_e_starts(rt: HostRuntime) -> Result<(), Fail> {
    let mut machine = Machine::load(&PROGRAM_E)?;
    let mut registers = [1; 6];
    machine.start(&[7, 8, 9], &mut registers)?;
    assert!(rt; registers == [7, 7, 8, 7, 8, 1]);
    let answer = machine.start(&[7, 8], &mut registers);
    assert_eq!(rt; answer.err(), by(MachineQuestion::RestRow, 2, 3));
    let answer = machine.start(&[0, 0, 0], &mut registers[..4]);
    assert_eq!(rt; answer.err(), by(MachineQuestion::Registers, 4, 5));
    assert!(rt; registers == [7, 7, 8, 7, 8, 1]);
    Ok(())
}

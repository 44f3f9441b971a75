//! A library of a maker's own, simulated.

ghost use Rattle.worked.specs.Peaks.{peak_meaning};

use crate::settling::opened;
use cells::library::CellLibrary;
use examples::designs::DESIGN_E;
use machine::simulator::simulate;
use std::test::Fail;

/// Every operation takes the greatest operand. The library counts its operands.
#[derive(Drop)]
pub struct PeakCells {
    pub operands: u64,
}

impl CellLibrary for PeakCells {
    type Elem = u16;

    type Acc = u16;

    ghost meaning = { λ _. peak_meaning };

    fn first(&mut self, _operation: u8) -> u16 {
        0
    }

    fn next(&mut self, _operation: u8, _source: u8, sum: u16, operand: u16) -> u16 {
        self.operands = self.operands.wrapping_add(1);
        sum.max(operand)
    }

    fn element(&mut self, _operation: u8, sum: u16) -> u16 {
        sum
    }
}

#[test]
fn peaks_of_design_e(rt: HostRuntime) -> Result<(), Fail> {
    let bench = opened(&DESIGN_E)?;
    let mut library = PeakCells { operands: 0 };
    let mut history = [0; 8];
    let mut outputs = [0; 4];
    simulate(
        &bench,
        &mut library,
        &[0, 0, 0],
        &[3, 9, 4, 1],
        &mut history,
        &mut outputs,
    )?;
    assert!(rt; outputs == [3, 9, 9, 9]);
    assert_eq!(rt; library.operands, 12);
    Ok(())
}

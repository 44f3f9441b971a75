//! Compare cells: the greatest or the least of unsigned 16-bit numbers.

ghost use Rattle.cells.specs.Choices.{compare_meaning, is_even, Short, Chosen};
ghost use Rattle.std.specs.Prelude.{◌≡◌};
ghost use Rattle.cells.specs.Meaning.{applied, Sourced};

use crate::apply::apply;
use crate::library::CellLibrary;

/// An even operation takes the greatest operand, 0 if there is none; an odd one the least, 65,535 if there is none.
#[derive(Clone, Copy, Debug, PartialEq, Eq)]
pub struct CompareCells;

/// Whether an operation takes the greatest operand.
fn takes_greatest(operation: u8) -> bool
    ensures { result ≡ is_even operation }
{
    operation % 2 == 0
}

impl CellLibrary for CompareCells {
    type Elem = u16;

    type Acc = u16;

    ghost meaning = { λ _. compare_meaning };

    fn first(&mut self, operation: u8) -> u16 {
        if takes_greatest(operation) {
            u16::MIN
        } else {
            u16::MAX
        }
    }

    fn next(&mut self, operation: u8, _source: u8, sum: u16, operand: u16) -> u16 {
        if takes_greatest(operation) {
            sum.max(operand)
        } else {
            sum.min(operand)
        }
    }

    fn element(&mut self, _operation: u8, sum: u16) -> u16 {
        sum
    }
}

impl CompareCells {
    /// The value of an operation: an operand that bounds all others.
    pub fn value(&mut self, operation: u8, operands: &[(u8, u16)]) -> u16
        ensures applied { Sourced operands.now → result ≡ applied compare_meaning operation operands.now }
        ensures chosen { Sourced operands.now → Short operands.now → Chosen (is_even operation) operands.now result }
    {
        apply(self, operation, operands)
    }
}

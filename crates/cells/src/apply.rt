//! An operation on a list of operands.

ghost use Rattle.std.specs.Prelude.{◌≡◌};
ghost use Rattle.cells.specs.Meaning.{applied, Sourced};

use crate::library::CellLibrary;

/// Applies an operation to operands, each with its source, in order.
pub fn apply<L: CellLibrary>(library: &mut L, operation: u8, operands: &[(u8, L::Elem)]) -> L::Elem
    ensures value { Sourced operands.now → result ≡ applied (L.meaning library.old) operation operands.now }
    ensures same { L.meaning library.new ≡ L.meaning library.old }
{
    let mut sum = library.first(operation);
    for &(source, operand) in operands {
        sum = library.next(operation, source, sum, operand);
    }
    library.element(operation, sum)
}

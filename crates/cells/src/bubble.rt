//! The bubble layer: a library over any other whose elements may be absent.

ghost use Rattle.std.specs.Prelude.{◌≡◌};
ghost use Rattle.cells.specs.Bubbles.{bubble_meaning, bubbled};
ghost use Rattle.cells.specs.Meaning.{applied, Sourced};

use crate::apply::apply;
use crate::library::CellLibrary;

/// A node is present exactly when all its operands are, with the value that the library below gives.
#[derive(Clone, Debug, Drop, PartialEq)]
pub struct Bubble<L> {
    pub below: L,
}

impl<L: CellLibrary> CellLibrary for Bubble<L> {
    type Elem = Option<L::Elem>;

    type Acc = Option<L::Acc>;

    ghost meaning = { λ s. bubble_meaning (L.meaning s.below) };

    fn first(&mut self, operation: u8) -> Option<L::Acc> {
        Some(self.below.first(operation))
    }

    fn next(
        &mut self,
        operation: u8,
        source: u8,
        sum: Option<L::Acc>,
        operand: Option<L::Elem>,
    ) -> Option<L::Acc> {
        Some(self.below.next(operation, source, sum?, operand?))
    }

    fn element(&mut self, operation: u8, sum: Option<L::Acc>) -> Option<L::Elem> {
        Some(self.below.element(operation, sum?))
    }
}

impl<L: CellLibrary> Bubble<L> {
    /// The value of an operation: present exactly when all operands are, with the value below.
    pub fn value(&mut self, operation: u8, operands: &[(u8, Option<L::Elem>)]) -> Option<L::Elem>
        ensures applied { Sourced operands.now → result ≡ applied (bubble_meaning (L.meaning self.old.below)) operation operands.now }
        ensures bubbled { Sourced operands.now → result ≡ bubbled (L.meaning self.old.below) operation operands.now }
        ensures same { bubble_meaning (L.meaning self.new.below) ≡ bubble_meaning (L.meaning self.old.below) }
    {
        apply(self, operation, operands)
    }
}

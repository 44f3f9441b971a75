//! Float cells: sums of 32-bit floats.

ghost use Rattle.std.specs.Prelude.{◌≡◌};
ghost use Rattle.cells.specs.Meaning.{applied, Sourced};
ghost use Rattle.cells.specs.Sums.{float_arithmetic, float_meaning};

use crate::apply::apply;
use crate::summing::{Summand, SummingCells};

/// The product is rounded, and then the sum.
impl Summand for f32 {
    ghost arithmetic = { float_arithmetic };

    fn zero() -> f32 {
        0.0
    }

    fn plus(self, other: f32) -> f32 {
        self + other
    }

    fn times(self, weight: f32) -> f32 {
        self * weight
    }
}

/// An operation sums its operands from +0, the one of its weighted source first multiplied by its weight.
pub type FloatCells = SummingCells<f32>;

impl FloatCells {
    /// The value of an operation: the sum of its operands in their order, each step rounded.
    pub fn value(&mut self, operation: u8, operands: &[(u8, f32)]) -> f32
        ensures applied { Sourced operands.now → result ≡ applied (float_meaning self.old.weights.table) operation operands.now }
        ensures same { float_meaning self.new.weights.table ≡ float_meaning self.old.weights.table }
    {
        apply(self, operation, operands)
    }
}

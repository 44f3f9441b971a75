//! Cells that sum numbers, whatever the numbers are.

ghost use Rattle.std.specs.Prelude.{◌≡◌};
ghost use Rattle.cells.specs.Arithmetic.{Arithmetic};
ghost use Rattle.cells.specs.Sums.{summing_meaning};

use crate::library::CellLibrary;
use crate::weights::Weights;

/// A number that can be summed and weighted.
pub trait Summand: Copy {
    ghost arithmetic: { Arithmetic Self };

    /// What a sum begins with.
    fn zero() -> Self
        ensures { result ≡ arithmetic.start };

    fn plus(self, other: Self) -> Self
        ensures { result ≡ arithmetic.plus self other };

    fn times(self, weight: Self) -> Self
        ensures { result ≡ arithmetic.times self weight };
}

/// An operation sums its operands from zero, the one of its weighted source first multiplied by its weight.
#[derive(Debug, Drop, PartialEq)]
pub struct SummingCells<N> {
    pub weights: Weights<N>,
}

impl<N: Summand> CellLibrary for SummingCells<N> {
    type Elem = N;

    type Acc = N;

    ghost meaning = { λ s. summing_meaning N.arithmetic s.weights.table };

    fn first(&mut self, _operation: u8) -> N {
        N::zero()
    }

    fn next(&mut self, operation: u8, source: u8, sum: N, operand: N) -> N {
        let weight = self.weights.get(operation);
        if source == weight.source {
            sum.plus(operand.times(weight.factor))
        } else {
            sum.plus(operand)
        }
    }

    fn element(&mut self, _operation: u8, sum: N) -> N {
        sum
    }
}

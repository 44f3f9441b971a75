//! Whole cells: sums of signed 32-bit numbers that wrap.

ghost use Rattle.std.specs.Prelude.{◌≡◌, slice_index_or};
ghost use Rattle.std.specs.Int.{int_wrap, w32};
ghost use Rattle.cells.specs.Meaning.{applied, Sourced};
ghost use Rattle.cells.specs.Sums.{whole_arithmetic, whole_meaning, whole_blank, exact};

use crate::apply::apply;
use crate::summing::{Summand, SummingCells};

impl Summand for i32 {
    ghost arithmetic = { whole_arithmetic };

    fn zero() -> i32 {
        0
    }

    fn plus(self, other: i32) -> i32 {
        self.wrapping_add(other)
    }

    fn times(self, weight: i32) -> i32 {
        self.wrapping_mul(weight)
    }
}

/// An operation sums its operands modulo 2^32, the one of its weighted source first multiplied by its weight.
pub type WholeCells = SummingCells<i32>;

impl WholeCells {
    /// The value of an operation: the exact sum in the integers, wrapped once.
    pub fn value(&mut self, operation: u8, operands: &[(u8, i32)]) -> i32
        ensures applied { Sourced operands.now → result ≡ applied (whole_meaning self.old.weights.table) operation operands.now }
        ensures exact { Sourced operands.now → result ≡ int_wrap w32 (exact (slice_index_or self.old.weights.table operation whole_blank) operands.now) }
        ensures same { whole_meaning self.new.weights.table ≡ whole_meaning self.old.weights.table }
    {
        apply(self, operation, operands)
    }
}

//! The table of a library that sums: for each operation a weight, and the source whose operand it multiplies.

ghost use Rattle.std.specs.Prelude.{◌≡◌, length, replicate, slice_index_or, slice_set};
ghost use Rattle.cells.specs.declared.weights.Weight.{Weight};

/// How many operations there are.
pub const OPERATIONS: usize = 256;

/// A weight, and the source whose operand is multiplied by it.
#[derive(Clone, Copy, Debug, PartialEq)]
pub struct Weight<W> {
    pub factor: W,
    pub source: u8,
}

/// A weight for each operation.
#[derive(Debug, Drop, PartialEq)]
pub struct Weights<W> {
    table: [Weight<W>; OPERATIONS],
    ghost whole: { length table ≡ 256 },
}

impl<W: Copy> Weights<W> {
    /// The same weight for each operation.
    pub fn all(weight: Weight<W>) -> Weights<W>
        ensures { result.table ≡ replicate 256 weight }
    {
        Weights {
            table: [weight; OPERATIONS],
        }
    }

    /// The weight of an operation.
    pub fn get(&self, operation: u8) -> Weight<W>
        ensures { (other : Weight W) → result ≡ slice_index_or self.now.table operation other }
    {
        self.table[usize::from(operation)]
    }

    /// Sets the weight of an operation.
    pub fn set(&mut self, operation: u8, weight: Weight<W>)
        ensures { self.new.table ≡ slice_set self.old.table operation weight }
    {
        self.table[usize::from(operation)] = weight;
    }
}

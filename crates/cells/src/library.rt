//! The trait that every cell library keeps to.

ghost use Rattle.std.specs.Prelude.{◌≡◌, ◌≤◌};
ghost use Rattle.cells.specs.Meaning.{Meaning};

/// A library of cells. Its meaning is three fixed functions, and every call answers its function and leaves the meaning as it was; a library
/// may count or cache, but not change its answer.
pub trait CellLibrary {
    /// What travels along the wires.
    type Elem: Copy;

    /// What a cell gathers its operands in: its running sum.
    type Acc: Drop;

    ghost meaning: { Self → Meaning Self.Elem Self.Acc };

    /// The first running sum of an operation.
    fn first(&mut self, operation: u8) -> Self::Acc
        ensures value { result ≡ (meaning self.old).first operation }
        ensures same { meaning self.new ≡ meaning self.old };

    /// The running sum after an operand from one of the sources 0 to 32.
    fn next(&mut self, operation: u8, source: u8, sum: Self::Acc, operand: Self::Elem) -> Self::Acc
        ensures value { source ≤ 32 → result ≡ (meaning self.old).next operation source sum operand }
        ensures same { meaning self.new ≡ meaning self.old };

    /// The element that a final running sum makes.
    fn element(&mut self, operation: u8, sum: Self::Acc) -> Self::Elem
        ensures value { result ≡ (meaning self.old).element operation sum }
        ensures same { meaning self.new ≡ meaning self.old };
}

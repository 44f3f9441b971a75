//! What a machine is told: starts and steps.

/// A call that a machine is told to make: a start from a rest row, or a step on an input element.
#[derive(Clone, Copy, PartialEq, Eq, Debug)]
pub enum Event<'a, E> {
    Start { rest: &'a [E] },
    Step { input: E },
}

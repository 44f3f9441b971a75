//! What a tap hears at one time, of the rest row, the inputs and the history so far.

ghost use Rattle.std.specs.Prelude.{◌≡◌, ◌+◌, ◌*◌, ◌<◌, ◌≤◌, true, length};
ghost use Rattle.words.specs.Designs.{is_source};
ghost use Rattle.machine.specs.Buffers.{rest_place, heard_in};

use words::graph::INPUT;
use words::program_table::Tap;

/// A time of a simulation of `count` nodes, with the rest row and the inputs. The history is lent beside it, since it changes while the nodes
/// of one time fire.
#[derive(Drop)]
pub(crate) struct Moment<'a, E> {
    pub(crate) count: usize,
    pub(crate) rest: &'a [E],
    pub(crate) inputs: &'a [E],
    pub(crate) time: usize,
    ghost few: { count ≤ 32 },
    ghost short: { length inputs.now ≤ 65536 },
    ghost rests: { length rest.now ≡ count + 1 },
    ghost within: { time < length inputs.now },
}

/// Where the rest row of `count` nodes has a source's value: the nodes in order, then the input.
pub(crate) fn rest_place(count: usize, source: usize) -> usize
    ensures { result ≡ rest_place count source }
{
    if source == INPUT { count } else { source }
}

impl<'a, E: Copy> Moment<'a, E> {
    /// What a tap hears: the value that long before, or the rest value where that is before time 0.
    pub(crate) fn hears(&self, history: &[E], tap: Tap) -> E
        requires source { is_source self.now.count tap.source ≡ true }
        requires history { self.now.count * length self.now.inputs.now ≤ length history.now }
        ensures { (d : E) → result ≡ heard_in self.now.count self.now.rest.now self.now.inputs.now history.now d self.now.time tap.source tap.delay }
    {
        let source = usize::from(tap.source);
        let delay = usize::from(tap.delay);
        if self.time < delay {
            return self.rest[rest_place(self.count, source)];
        }
        let then = self.time - delay;
        if source == INPUT {
            self.inputs[then]
        } else {
            history[then * self.count + source]
        }
    }
}

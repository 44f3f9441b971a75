//! The words of an input.

ghost use Rattle.std.specs.Prelude.{◌≡◌, ◌≤◌, take};

use crate::graph::{MAX_NODES, SOURCES};

/// How many words an input gives at the most: one more than the longest design has, which is a head, its nodes each with a feed from
/// every source, an output and an end.
pub const MAX_WORDS: usize = 3 + MAX_NODES * (1 + SOURCES) + 1;

/// The words that an input's bytes make.
#[derive(Clone, Copy)]
pub struct InputWords {
    pub(crate) words: [u32; MAX_WORDS],
    pub(crate) count: usize,
    ghost few: { count ≤ 1092 },
}

impl InputWords {
    /// The words, in order.
    pub fn as_slice(&self) -> &[u32]
        ensures { result.now ≡ take self.now.count self.now.words }
    {
        &self.words[..self.count]
    }
}

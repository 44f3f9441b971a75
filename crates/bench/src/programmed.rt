//! An input's bytes to the listing of its design's array program, settled.

ghost use Rattle.std.specs.Prelude.{◌≤◌, length, IfOk};
ghost use Rattle.bench.specs.Answer.{Programmed};

use crate::bench::Bench;
use crate::inputs::read_bytes;
use crate::listing::LINE;
use crate::program::MAX_PROGRAM_WORDS;
use words::faults::Fault;
use words::graph::MAX_NODES;

/// How many bytes the longest listing of an array program has.
pub const MAX_PROGRAM_TEXT: usize = MAX_PROGRAM_WORDS * LINE;

/// Settles the design in an input's bytes and lists its array program to the front of `text`; how many bytes there are.
pub fn list_program(bytes: &[u8], text: &mut [u8]) -> Result<usize, Fault>
    ensures answered { Programmed bytes.now text.old text.new result }
    ensures within { IfOk result (λ n. n ≤ length text.new) }
{
    let design = read_bytes(bytes)?;
    let mut bench = Bench::open(&design, &mut [0; MAX_NODES])?;
    bench.settle()?;
    bench.list(text)
}

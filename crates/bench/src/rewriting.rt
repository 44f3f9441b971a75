//! Words to a design and back.

ghost use Rattle.bench.specs.Rewriting.{Rewritten};

use crate::writer::write_design;
use words::design::Design;
use words::faults::Fault;
use words::reader::read_design;

/// Reads a design from its words, writes it to the front of `copy`, and reads it again from there.
pub fn rewrite(words: &[u32], copy: &mut [u32]) -> Result<Design, Fault>
    ensures { Rewritten words.now copy.old copy.new result }
{
    let design = read_design(words)?;
    let count = write_design(&design, copy)?;
    read_design(&copy[..count])
}

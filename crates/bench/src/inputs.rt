//! An input's bytes to its design, and to the listing of its words.

ghost use Rattle.std.specs.Prelude.{◌≤◌, length, IfOk};
ghost use Rattle.bench.specs.Answer.{Answered, Designed};

use crate::listing::{LINE, list_design};
use crate::writer::MAX_DESIGN_WORDS;
use words::design::Design;
use words::faults::Fault;
use words::input::InputWords;
use words::reader::read_design;

/// How many bytes the longest listing of a design has.
pub const MAX_TEXT: usize = MAX_DESIGN_WORDS * LINE;

/// Reads the design in an input's bytes.
pub(crate) fn read_bytes(bytes: &[u8]) -> Result<Design, Fault>
    ensures { Designed bytes.now result }
{
    let input = InputWords::try_from(bytes)?;
    read_design(input.as_slice())
}

/// Lists the words of the design in an input's bytes to the front of `text`, and answers how many bytes there are.
pub fn list_input(bytes: &[u8], text: &mut [u8]) -> Result<usize, Fault>
    ensures answered { Answered bytes.now text.old text.new result }
    ensures within { IfOk result (λ n. n ≤ length text.new) }
{
    let design = read_bytes(bytes)?;
    list_design(&design, text)
}

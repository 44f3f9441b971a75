//! The words of a case, and its design.

ghost use Rattle.std.specs.Prelude.{IfOk};
ghost use Rattle.words.specs.Encoding.{encoded};
ghost use Rattle.cases.specs.Designs.{Spells};

use crate::rows::parse_row;
use anyhow::Context;
use std::alloc::Global;
use words::design::Design;
use words::reader::read_design;

/// Reads words in hexadecimal, parted by spaces.
pub fn parse_words(alloc: Global, text: &str) -> anyhow::Result<Vec<u32>>
    ensures { IfOk result (λ words. Spells text.now words.items) }
{
    parse_row(alloc, text, |word| u32::from_str_radix(word, 16))
}

/// Reads a design from its words.
pub fn parse_design(alloc: Global, text: &str) -> anyhow::Result<Design>
    ensures { IfOk result (λ design. Spells text.now (encoded design.graph)) }
{
    let words = parse_words(alloc, text)?;
    read_design(&words)
        .ok()
        .context("a line begins with no design")
}

//! Listing words as lines of text.

ghost use Rattle.std.specs.Prelude.{◌≡◌, ◌+◌, ◌<◌, ◌≤◌, length};
ghost use Rattle.words.specs.Encoding.{encoded};
ghost use Rattle.bench.specs.Buffers.{Written};
ghost use Rattle.bench.specs.Listing.{digit, line_of, listed};

use crate::writer::design_words;
use std::array;
use words::design::Design;
use words::faults::{BenchQuestion, Fault, Question};

/// How many bytes a word's line has: eight digits and the line's end.
pub(crate) const LINE: usize = 9;

/// The byte of a hexadecimal digit.
fn digit_of(value: u32) -> u8
    requires { value < 16 }
    ensures { result ≡ digit value }
{
    char::from_digit(value, 16).unwrap().to_ascii_uppercase() as u8
}

/// A word's line.
fn line_of(word: u32) -> [u8; LINE]
    ensures { result ≡ line_of word }
{
    array::from_fn(|k| {
        if k < 8 {
            digit_of((word >> (28 - 4 * k)) % 16)
        } else {
            b'\n'
        }
    })
}

/// Lists words to the front of `text`, and answers how many bytes there are: question 14.
pub(crate) fn list_words(words: &[u32], text: &mut [u8]) -> Result<usize, Fault>
    requires { length words.now ≤ 2048 }
    ensures { Written (listed words.now) text.old text.new result }
{
    let needed = words.len() * LINE;
    if text.len() < needed {
        return Err(BenchQuestion::Buffer.refused(text.len(), needed));
    }
    for (k, word) in words.iter().enumerate() {
        text[k * LINE..(k + 1) * LINE].copy_from_slice(&line_of(*word));
    }
    Ok(needed)
}

/// Lists a design's words to the front of `text`, and answers how many bytes there are.
pub fn list_design(design: &Design, text: &mut [u8]) -> Result<usize, Fault>
    ensures { Written (listed (encoded design.now.graph)) text.old text.new result }
{
    let words = design_words(design);
    list_words(words.as_slice(), text)
}

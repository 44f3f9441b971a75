//! Reading words in turn, whatever the format.

ghost use Rattle.std.specs.Prelude.{◌≡◌, ◌<◌, [], List, length, None, ℕ};
ghost use Rattle.words.specs.Formats.{Format, refused_in};
ghost use Rattle.words.specs.Readings.{BeginsOne, BegunIn, EndsIn, FinishedIn, ReadIn, ReadsIn};

use crate::faults::{Fault, WordsQuestion};

/// A reader of one format, which is seen as the words so far.
pub(crate) trait Reading: Drop + Sized {
    /// The kinds of its words.
    type Kind;

    /// The plain data that it reads.
    type Table;

    /// What it makes of them in the end.
    type Whole;

    ghost format: { Format Self.Kind };

    ghost in_range: { Self.Table → Type 0 };

    ghost encoded: { Self.Table → List ℕ };

    ghost table: { Self.Whole → Self.Table };

    ghost words: { Self → List ℕ };

    /// Reads the head word.
    fn begin(word: u32) -> Result<Self, WordsQuestion>
        ensures { BegunIn in_range encoded format words word result };

    /// Reads the word with that index among `given` words; whether it is the end.
    fn read(&mut self, word: u32, index: usize, given: usize) -> Result<bool, WordsQuestion>
        requires index { index ≡ length (words self.old) }
        requires some { 0 < index }
        requires given { index < given }
        ensures { ReadIn in_range encoded format (words self.old) (words self.new) word given result };

    /// What was read, once the end was read as the last of `given` words.
    fn finish(self, given: usize) -> Self::Whole
        requires { (w : ℕ) × EndsIn format (words self) w given }
        ensures { FinishedIn in_range encoded format (words self) given (table result) };
}

/// Reads the words in turn up to the end word.
pub(crate) fn read_words<R: Reading>(words: &[u32]) -> Result<R::Whole, Fault>
    ensures { ((t : R.Table) → R.in_range t → refused_in R.format (R.encoded t) ≡ None) → BeginsOne R.in_range R.encoded [] → ReadsIn R.in_range R.encoded R.format R.table words.now result }
{
    let (head, rest) = words.split_first().ok_or(WordsQuestion::Word.at(0))?;
    let mut reader = R::begin(*head).map_err(|question| question.at(0))?;
    for (read, word) in rest.iter().enumerate() {
        let index = read + 1;
        let ended = reader
            .read(*word, index, words.len())
            .map_err(|question| question.at(index))?;
        if ended {
            return Ok(reader.finish(words.len()));
        }
    }
    Err(WordsQuestion::Word.at(words.len()))
}

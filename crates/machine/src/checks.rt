//! What loading asks of a program's words after 1 to 5: questions 15 and 16.

ghost use Rattle.std.specs.Prelude.{◌≡◌, ℕ, ◌+◌, ◌<◌, ◌≤◌, List, [], length, take, slice_index};
ghost use Rattle.words.specs.ProgramKinds.{program_kind_of, is_program_kind};
ghost use Rattle.bench.specs.Refusals.{unless};
ghost use Rattle.machine.specs.Loading.{place_of, number_of, can_hear, earlier_in, is_late_tap, tap_fault, Names, delay_at, greatest_delay, is_wrong_line, line_fault};

use crate::named::Named;
use words::faults::{Fault, MachineQuestion, Question};
use words::graph::{INPUT, MAX_NODES};
use words::kinds::{ProgramKind, field_of};

/// The source or the node of a line, a tap or an output.
fn place_of(word: u32) -> usize
    ensures { result ≡ place_of word }
{
    field_of(word, 0, 6) as usize
}

/// The length of a line, the delay of a tap or an output.
fn number_of(word: u32) -> u16
    ensures { result ≡ number_of word }
{
    field_of(word, 6, 12) as u16
}

/// Whether a word is of that kind.
fn is_kind(word: u32, kind: ProgramKind) -> bool
    ensures { result ≡ is_program_kind kind (program_kind_of word) }
{
    ProgramKind::try_from(word) == Ok(kind)
}

impl Named {
    /// Before the first word.
    fn none() -> Named
        ensures { Names [] result }
    {
        Named {
            all: [false; MAX_NODES],
            earlier: [false; MAX_NODES],
        }
    }

    /// Takes the next word: a cell is named.
    fn take(&mut self, word: u32)
        ensures { (words : List ℕ) (k : ℕ) → k < length words → slice_index words k ≡ word → Names (take k words) self.old → Names (take (k + 1) words) self.new }
    {
        if is_kind(word, ProgramKind::Cell) {
            let all = self.all;
            self.earlier = all;
            self.all[field_of(word, 0, 5) as usize] = true;
        }
    }

    /// Whether a tap has a delay, or reads the input or an earlier cell.
    fn can_hear(&self, tap: u32) -> bool
        ensures { (before : List ℕ) → Names before self.now → result ≡ can_hear (earlier_in before) tap }
    {
        let source = place_of(tap);
        number_of(tap) > 0 || source == INPUT || self.earlier.get(source) == Some(&true)
    }

    /// Whether a word is a tap that cannot hear its source.
    fn is_late(&self, word: u32) -> bool
        ensures { (before : List ℕ) → Names before self.now → result ≡ is_late_tap before word }
    {
        is_kind(word, ProgramKind::Tap) && !self.can_hear(word)
    }
}

/// Question 15: each tap of delay 0 from a node reads an earlier cell.
pub(crate) fn check_taps(words: &[u32]) -> Result<(), Fault>
    ensures { result ≡ unless (tap_fault words.now) tt }
{
    let mut named = Named::none();
    for (index, word) in words.iter().enumerate() {
        if named.is_late(*word) {
            return Err(MachineQuestion::Tap.refused(index, 0));
        }
        named.take(*word);
    }
    Ok(())
}

/// The delay at which a word reads a source, 0 where it does not.
fn delay_at(word: u32, source: usize) -> u16
    ensures { result ≡ delay_at source word }
{
    match ProgramKind::try_from(word) {
        Ok(ProgramKind::Tap | ProgramKind::Output) if place_of(word) == source => number_of(word),
        _ => 0,
    }
}

/// The greatest delay at which a tap or the output reads a source, or 0.
#[tactic(auto, unfolding(crate::specs::Loading::greatest_delay))]
fn greatest_delay(words: &[u32], source: usize) -> u16
    ensures { result ≡ greatest_delay words.now source }
{
    words
        .iter()
        .map(|word| delay_at(*word, source))
        .fold(0, u16::max)
}

/// Whether a word is a line whose length is not the greatest delay at which its source is read.
fn is_wrong_line(words: &[u32], word: u32) -> bool
    ensures { result ≡ is_wrong_line words.now word }
{
    is_kind(word, ProgramKind::Line) && number_of(word) != greatest_delay(words, place_of(word))
}

/// Question 16: each line is as long as the greatest delay at which a tap or the output reads its source.
pub(crate) fn check_lines(words: &[u32]) -> Result<(), Fault>
    ensures { result ≡ unless (line_fault words.now) tt }
{
    for (index, word) in words.iter().enumerate() {
        if is_wrong_line(words, *word) {
            return Err(MachineQuestion::Line.refused(index, 0));
        }
    }
    Ok(())
}

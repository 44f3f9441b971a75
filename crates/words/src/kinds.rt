//! A word's fields, the kinds of design words and of program words, and a word with its kind.

ghost use Rattle.std.specs.Prelude.{◌≡◌, ◌-◌, ◌<◌, ◌≤◌, ◌==◌, ℕ, Some, Option};
ghost use Rattle.words.specs.Fields.{field, kind_number};
ghost use Rattle.words.specs.Kinds.{kind_numbered, kind_of, known, named_bits};
ghost use Rattle.words.specs.ProgramKinds.{program_numbered, program_kind_of, program_named_bits};
ghost use Rattle.words.specs.Refusals.{known_kind};

use crate::faults::WordsQuestion;

/// The kinds of design words, by bits 31 to 28.
#[derive(Clone, Copy, PartialEq, Eq, Debug)]
pub enum Kind {
    Head = 1,
    Node = 2,
    Feed = 3,
    Output = 4,
    End = 5,
}

/// The kinds of program words, by bits 31 to 28.
#[derive(Clone, Copy, PartialEq, Eq, Debug)]
pub enum ProgramKind {
    Head = 8,
    Line = 9,
    Cell = 10,
    Tap = 11,
    Output = 12,
    End = 13,
}

/// The number in the `bits` bits of a word from bit `low` on.
pub fn field_of(word: u32, low: u32, bits: u32) -> u32
    ensures { result ≡ field low bits word }
{
    if low >= u32::BITS {
        return 0;
    }
    let high = word >> low;
    if bits >= u32::BITS {
        return high;
    }
    high & ((1 << bits) - 1)
}

impl TryFrom<u32> for Kind {
    type Error = WordsQuestion;

    ghost try_from_gives = { λ word r. r ≡ known (kind_of word) };

    /// The kind of a word, which may stand nowhere if no design word has its number.
    fn try_from(word: u32) -> Result<Kind, WordsQuestion> {
        match field_of(word, 28, 4) {
            1 => Ok(Kind::Head),
            2 => Ok(Kind::Node),
            3 => Ok(Kind::Feed),
            4 => Ok(Kind::Output),
            5 => Ok(Kind::End),
            _ => Err(WordsQuestion::Kind),
        }
    }
}

impl TryFrom<u32> for ProgramKind {
    type Error = WordsQuestion;

    ghost try_from_gives = { λ word r. r ≡ known_kind (program_kind_of word) };

    /// The kind of a word, which may stand nowhere if no program word has its number.
    fn try_from(word: u32) -> Result<ProgramKind, WordsQuestion> {
        match field_of(word, 28, 4) {
            8 => Ok(ProgramKind::Head),
            9 => Ok(ProgramKind::Line),
            10 => Ok(ProgramKind::Cell),
            11 => Ok(ProgramKind::Tap),
            12 => Ok(ProgramKind::Output),
            13 => Ok(ProgramKind::End),
            _ => Err(WordsQuestion::Kind),
        }
    }
}

/// A kind of the words of one format.
pub(crate) trait FormatKind: Copy {
    ghost numbered: { ℕ → Option Self };

    ghost named: { Option Self → ℕ };

    /// The kind of a word, which may stand nowhere if no word of the format has its number.
    fn of(word: u32) -> Result<Self, WordsQuestion>
        ensures { result ≡ known_kind (numbered (kind_number word)) };

    /// How many bits at the low end of a word of this kind are named.
    fn named_bits(self) -> u32
        ensures named { result ≡ named (Some self) }
        ensures few { result ≤ 28 };
}

impl FormatKind for Kind {
    ghost numbered = { kind_numbered };

    ghost named = { named_bits };

    fn of(word: u32) -> Result<Kind, WordsQuestion> {
        Kind::try_from(word)
    }

    fn named_bits(self) -> u32 {
        match self {
            Kind::Head => 6,
            Kind::Node => 13,
            Kind::Feed | Kind::Output => 14,
            Kind::End => 11,
        }
    }
}

impl FormatKind for ProgramKind {
    ghost numbered = { program_numbered };

    ghost named = { program_named_bits };

    fn of(word: u32) -> Result<ProgramKind, WordsQuestion> {
        ProgramKind::try_from(word)
    }

    fn named_bits(self) -> u32 {
        match self {
            ProgramKind::Head => 13,
            ProgramKind::Line | ProgramKind::Tap | ProgramKind::Output => 18,
            ProgramKind::Cell => 25,
            ProgramKind::End => 11,
        }
    }
}

/// A word and its kind.
#[derive(Drop)]
pub(crate) struct Word<K: FormatKind> {
    pub(crate) kind: K,
    word: u32,
    ghost kinded: { K.numbered (kind_number word) ≡ Some kind },
}

/// A word of a design.
pub(crate) type DesignWord = Word<Kind>;

/// A word of an array program.
pub(crate) type ProgramWord = Word<ProgramKind>;

impl<K: FormatKind> TryFrom<u32> for Word<K> {
    type Error = WordsQuestion;

    ghost use Rattle.std.specs.Prelude.{Err, MatchResult};

    ghost try_from_gives = { λ w r. MatchResult r (λ word. word.word ≡ w) (λ question. known_kind (K.numbered (kind_number w)) ≡ Err question) };

    /// A word by its kind, which may stand nowhere if no word of the format has its number.
    fn try_from(word: u32) -> Result<Word<K>, WordsQuestion> {
        let kind = K::of(word)?;
        Ok(Word { kind, word })
    }
}

impl<K: FormatKind> Word<K> {
    /// The number in its `bits` bits from bit `low` on.
    pub(crate) fn field(&self, low: u32, bits: u32) -> u32
        requires { (low < 32) × (bits < 32) }
        ensures { result ≡ field low bits self.now.word }
    {
        field_of(self.word, low, bits)
    }

    /// Whether its unnamed bits are zero.
    pub(crate) fn is_clear(&self) -> bool
        ensures { result ≡ (field (K.named (Some self.now.kind)) (28 - K.named (Some self.now.kind)) self.now.word == 0) }
    {
        let named = self.kind.named_bits();
        self.field(named, 28 - named) == 0
    }
}

//! Words from their fields.

ghost use Rattle.std.specs.Prelude.{◌≡◌, ℕ, ◌+◌, ◌*◌, ◌^◌, ◌<◌, Some};
ghost use Rattle.words.specs.Fields.{word_of, place_word};
ghost use Rattle.words.specs.Kinds.{number_of};
ghost use Rattle.words.specs.ProgramKinds.{program_number_of};

use words::kinds::Kind;
pub(crate) use words::kinds::ProgramKind;

/// A kind of words. Its number stands in bits 31 to 28, above the fields.
pub(crate) trait WordKind: Copy {
    ghost number: { Self → ℕ };

    fn number(self) -> u32
        ensures number { result ≡ number self }
        ensures fits { result < 2 ^ 4 };

    /// A word of this kind whose fields make up that number.
    fn word(self, fields: u32) -> u32
        requires { fields < 2 ^ 28 }
        ensures { result ≡ word_of (number self) fields }
    {
        (self.number() << 28) + fields
    }

    /// A word that counts.
    fn count_word(self, count: usize) -> u32
        requires { count < 2 ^ 11 }
        ensures { result ≡ word_of (number self) count }
    {
        self.word(count as u32)
    }

    /// A word with a place, a node or a source, and a number that belongs to it.
    fn place_word(self, place: usize, held: u32) -> u32
        requires { (place < 64) × (held < 2 ^ 12) }
        ensures { result ≡ place_word (number self) place held }
    {
        self.word((held << 6) + place as u32)
    }

    /// A word with a node, its operation and its lag.
    fn operation_word(self, node: usize, operation: u8, lag: u16) -> u32
        requires { (node < 32) × (lag < 2 ^ 12) }
        ensures { result ≡ word_of (number self) (lag * 2 ^ 13 + operation * 2 ^ 5 + node) }
    {
        self.word((u32::from(lag) << 13) + (u32::from(operation) << 5) + node as u32)
    }
}

impl WordKind for Kind {
    ghost number = { λ kind. number_of (Some kind) };

    fn number(self) -> u32 {
        self as u32
    }
}

impl WordKind for ProgramKind {
    ghost number = { λ kind. program_number_of (Some kind) };

    fn number(self) -> u32 {
        self as u32
    }
}

//! Refusals: which layer put the question that was answered no, that question, and two places.

ghost use Rattle.std.specs.Prelude.{◌≡◌, ℕ, List, Some};
ghost use Rattle.words.specs.Lines.{line, spelled, words_layer, design_layer, bench_layer, machine_layer};
ghost use Rattle.words.specs.Numbers.{words_number, design_number, bench_number, machine_number};
ghost use Rattle.words.specs.Refusals.{words_fault, design_fault, bench_fault, machine_fault};
ghost use Rattle.words.specs.declared.faults.Fault.{Fault};
ghost use Rattle.words.specs.declared.faults.Fault.TheVariants.{Words};

use std::error::Error;
use std::fmt;

/// The word reader's questions.
#[derive(Clone, Copy, PartialEq, Eq, Debug)]
pub enum WordsQuestion {
    /// Is there a word here?
    Word = 1,
    /// May its kind stand here?
    Kind = 2,
    /// Are unnamed bits zero and all fields in range?
    Range = 3,
    /// Is a node or line the next in order, a cell new, a feed or tap above the last one of its node or cell?
    Order = 4,
    /// At the end word, is its count right and is it the last given?
    End = 5,
}

/// The questions at the opening of a design.
#[derive(Clone, Copy, PartialEq, Eq, Debug)]
pub enum DesignQuestion {
    /// Has the cycle buffer n numbers?
    CycleBuffer = 6,
    /// Is the design well-defined?
    WellDefined = 7,
}

/// The bench's questions.
#[derive(Clone, Copy, PartialEq, Eq, Debug)]
pub enum BenchQuestion {
    /// Are there n shifts?
    Row = 8,
    /// Is each shift from -4,095 to 4,095?
    Shift = 9,
    /// Is each lag to come from 0 to 4,095?
    Lag = 10,
    /// Is each delay to come from 0 to 4,095?
    Delay = 11,
    /// Is the factor from 1 to 64?
    Factor = 12,
    /// Is K times the factor at most 64?
    Slowdown = 13,
    /// Is the buffer long enough?
    Buffer = 14,
}

/// The machine's and the simulator's questions.
#[derive(Clone, Copy, PartialEq, Eq, Debug)]
pub enum MachineQuestion {
    /// Does each tap of delay 0 from a node read an earlier cell?
    Tap = 15,
    /// Is each line length as defined?
    Line = 16,
    /// Has the rest row n + 1 elements?
    RestRow = 17,
    /// Are there enough registers?
    Registers = 18,
    /// Is the cycle low enough?
    Cycle = 19,
    /// Are there few enough times?
    Times = 20,
    /// Has the history a place for each node at each time?
    History = 21,
    /// Has the output row a place for each time?
    Outputs = 22,
}

/// A layer's own record of a refusal: its question, and two places.
#[derive(Clone, Copy, PartialEq, Eq, Debug)]
pub struct Refusal<Q> {
    pub question: Q,
    pub place: usize,
    pub other: usize,
}

/// A refusal by the word reader.
pub type WordsFault = Refusal<WordsQuestion>;

/// A refusal at the opening of a design.
pub type DesignFault = Refusal<DesignQuestion>;

/// A refusal by the bench.
pub type BenchFault = Refusal<BenchQuestion>;

/// A refusal by the machine or the simulator.
pub type MachineFault = Refusal<MachineQuestion>;

/// A refusal, by the layer that put the question.
#[derive(Clone, Copy, PartialEq, Eq, Debug)]
pub enum Fault {
    Words(WordsFault),
    Design(DesignFault),
    Bench(BenchFault),
    Machine(MachineFault),
}

/// A layer's questions.
pub trait Question: Copy {
    ghost number: { Self → ℕ };

    ghost layer: { Self → List ℕ };

    ghost fault: { Self → ℕ → ℕ → Fault };

    /// The question's number.
    fn number(self) -> u8
        ensures { result ≡ number self };

    /// The layer's name.
    fn layer(self) -> &'static str
        ensures { result.now ≡ layer self };

    /// The refusal by this question, with its two places.
    fn refused(self, place: usize, other: usize) -> Fault
        ensures { result ≡ fault self place other };
}

impl Question for WordsQuestion {
    ghost number = { words_number };

    ghost layer = { λ _. words_layer };

    ghost fault = { λ question place other. Words (record { question = question; place = place; other = other }) };

    fn number(self) -> u8 {
        self as u8
    }

    fn layer(self) -> &'static str {
        "words"
    }

    fn refused(self, place: usize, other: usize) -> Fault {
        Fault::Words(Refusal {
            question: self,
            place,
            other,
        })
    }
}

impl WordsQuestion {
    /// The refusal of the word at an index.
    pub(crate) fn at(self, index: usize) -> Fault
        ensures { result ≡ words_fault self index }
    {
        self.refused(index, 0)
    }
}

impl Question for DesignQuestion {
    ghost number = { design_number };

    ghost layer = { λ _. design_layer };

    ghost fault = { design_fault };

    fn number(self) -> u8 {
        self as u8
    }

    fn layer(self) -> &'static str {
        "design"
    }

    fn refused(self, place: usize, other: usize) -> Fault {
        Fault::Design(Refusal {
            question: self,
            place,
            other,
        })
    }
}

impl Question for BenchQuestion {
    ghost number = { bench_number };

    ghost layer = { λ _. bench_layer };

    ghost fault = { bench_fault };

    fn number(self) -> u8 {
        self as u8
    }

    fn layer(self) -> &'static str {
        "bench"
    }

    fn refused(self, place: usize, other: usize) -> Fault {
        Fault::Bench(Refusal {
            question: self,
            place,
            other,
        })
    }
}

impl Question for MachineQuestion {
    ghost number = { machine_number };

    ghost layer = { λ _. machine_layer };

    ghost fault = { machine_fault };

    fn number(self) -> u8 {
        self as u8
    }

    fn layer(self) -> &'static str {
        "machine"
    }

    fn refused(self, place: usize, other: usize) -> Fault {
        Fault::Machine(Refusal {
            question: self,
            place,
            other,
        })
    }
}

impl<Q: Question> fmt::Display for Refusal<Q> {
    ghost output = { λ r. Some (spelled (Q.number r.question) (Q.layer r.question) r.place r.other) };

    fn fmt<W: fmt::Write>(&self, f: &mut fmt::Formatter<W>) -> fmt::Result {
        let Refusal {
            question,
            place,
            other,
        } = *self;
        let number = question.number();
        let layer = question.layer();
        write!(f, "refused {number} {layer} {place} {other}")
    }
}

impl fmt::Display for Fault {
    ghost output = { λ f. Some (line f) };

    fn fmt<W: fmt::Write>(&self, f: &mut fmt::Formatter<W>) -> fmt::Result {
        match self {
            Fault::Words(refusal) => write!(f, "{refusal}"),
            Fault::Design(refusal) => write!(f, "{refusal}"),
            Fault::Bench(refusal) => write!(f, "{refusal}"),
            Fault::Machine(refusal) => write!(f, "{refusal}"),
        }
    }
}

impl Error for Fault {}

//! Reading program words: the questions at each word in turn.

ghost use Rattle.std.specs.Prelude.{◌≡◌, ◌<◌, eqb, length};
ghost use Rattle.std.specs.Set.{is_member};
ghost use Rattle.words.specs.Designs.{is_source};
ghost use Rattle.words.specs.ProgramTables.{ProgramInRange};
ghost use Rattle.words.specs.ProgramEncoding.{line_source, encoded_program};
ghost use Rattle.words.specs.ProgramQuestions.{program_format};
ghost use Rattle.words.specs.ProgramDrafts.{nodes_of, program_headed};
ghost use Rattle.words.specs.ProgramTaking.{ProgramTaken, ProgramEnded};
ghost use Rattle.words.specs.ProgramReading.{ProgramReads, ProgramReadsBack};

use crate::faults::{Fault, WordsQuestion};
use crate::graph::{INPUT, MAX_NODES};
use crate::kinds::{ProgramKind, ProgramWord};
use crate::program::Program;
use crate::program_draft::ProgramDraft;
use crate::program_table::{Cell, MAX_FACTOR, ProgramTable, Tap};
use crate::reading::{Reading, read_words};
use arrayvec::ArrayVec;
use std::marker::Model;

/// A program whose words are being read. It is seen as the words so far.
#[derive(Drop)]
struct ProgramReader {
    draft: ProgramDraft,
}

impl Model for ProgramReader {
    ghost use Rattle.std.specs.Prelude.{ℕ, List};

    ghost Value = { List ℕ };

    ghost use Rattle.words.specs.ProgramDrafts.{program_drafted, ProgramSound};

    ghost view = { λ r. program_drafted r.draft };

    ghost invariant = { λ r. ProgramSound r.draft };
}

impl ProgramDraft {
    /// A program of `count` nodes, slowed by `factor`, of which no line was read yet.
    fn headed(count: usize, factor: u32) -> ProgramDraft
        ensures { result ≡ program_headed count factor }
    {
        ProgramDraft {
            table: ProgramTable {
                count,
                factor,
                lines: ArrayVec::new(),
                cells: ArrayVec::new(),
                output: Tap {
                    source: 0,
                    delay: 0,
                },
            },
            least: 0,
            complete: false,
        }
    }
}

impl ProgramTable {
    /// Whether a number is one of the nodes or the input.
    fn has_source(&self, source: usize) -> bool
        ensures { result ≡ is_source self.now.count source }
    {
        source < self.count || source == INPUT
    }

    /// Whose line comes next.
    fn next_line(&self) -> usize
        ensures { result ≡ line_source self.now.count (length self.now.lines.items) }
    {
        let laid = self.lines.len();
        if laid == self.count { INPUT } else { laid }
    }

    /// Whether a node has its cell.
    fn has_cell(&self, node: usize) -> bool
        ensures { result ≡ is_member eqb (nodes_of self.now.cells.items) node }
    {
        self.cells.iter().any(|cell| node == usize::from(cell.node))
    }
}

impl ProgramReader {
    /// Takes a line word.
    fn line(&mut self, word: ProgramWord) -> Result<(), WordsQuestion>
        requires { word.kind ≡ ProgramKind.Line }
        ensures { ProgramTaken self.old self.new word.word result }
    {
        let table = &mut self.draft.table;
        if table.lines.len() > table.count {
            return Err(WordsQuestion::Kind);
        }
        let source = word.field(0, 6) as usize;
        if !word.is_clear() || !table.has_source(source) {
            return Err(WordsQuestion::Range);
        }
        if source != table.next_line() {
            return Err(WordsQuestion::Order);
        }
        table.lines.push(word.field(6, 12) as u16);
        Ok(())
    }

    /// Takes a cell word.
    fn cell(&mut self, word: ProgramWord) -> Result<(), WordsQuestion>
        requires { word.kind ≡ ProgramKind.Cell }
        ensures { ProgramTaken self.old self.new word.word result }
    {
        let draft = &mut self.draft;
        if draft.table.lines.len() != draft.table.count + 1
            || draft.table.cells.len() >= draft.table.count
        {
            return Err(WordsQuestion::Kind);
        }
        let node = word.field(0, 5) as usize;
        if !word.is_clear() || node >= draft.table.count {
            return Err(WordsQuestion::Range);
        }
        if draft.table.has_cell(node) {
            return Err(WordsQuestion::Order);
        }
        draft.table.cells.push(Cell {
            node: node as u8,
            operation: word.field(5, 8) as u8,
            lag: word.field(13, 12) as u16,
            taps: ArrayVec::new(),
        });
        draft.least = 0;
        Ok(())
    }

    /// Takes a tap word.
    fn tap(&mut self, word: ProgramWord) -> Result<(), WordsQuestion>
        requires { word.kind ≡ ProgramKind.Tap }
        ensures { ProgramTaken self.old self.new word.word result }
    {
        let draft = &mut self.draft;
        if draft.table.cells.is_empty() || draft.complete {
            return Err(WordsQuestion::Kind);
        }
        let source = word.field(0, 6) as usize;
        if !word.is_clear() || !draft.table.has_source(source) {
            return Err(WordsQuestion::Range);
        }
        if source < draft.least {
            return Err(WordsQuestion::Order);
        }
        let last = draft.table.cells.len() - 1;
        draft.table.cells[last].taps.push(Tap {
            source: source as u8,
            delay: word.field(6, 12) as u16,
        });
        draft.least = source + 1;
        Ok(())
    }

    /// Takes the output word.
    fn output(&mut self, word: ProgramWord) -> Result<(), WordsQuestion>
        requires { word.kind ≡ ProgramKind.Output }
        ensures { ProgramTaken self.old self.new word.word result }
    {
        let draft = &mut self.draft;
        if draft.table.cells.len() != draft.table.count || draft.complete {
            return Err(WordsQuestion::Kind);
        }
        let node = word.field(0, 6) as usize;
        if !word.is_clear() || node >= draft.table.count {
            return Err(WordsQuestion::Range);
        }
        draft.table.output = Tap {
            source: node as u8,
            delay: word.field(6, 12) as u16,
        };
        draft.least = 0;
        draft.complete = true;
        Ok(())
    }

    /// Reads the end word, which has that index among `given` words.
    fn end(&self, word: ProgramWord, index: usize, given: usize) -> Result<(), WordsQuestion>
        requires kind { word.kind ≡ ProgramKind.End }
        requires index { index ≡ length self.now }
        requires given { index < given }
        ensures { ProgramEnded self.now word.word given result }
    {
        if !self.draft.complete {
            return Err(WordsQuestion::Kind);
        }
        if !word.is_clear() {
            return Err(WordsQuestion::Range);
        }
        let count = word.field(0, 11) as usize;
        if count != index + 1 || given != index + 1 {
            return Err(WordsQuestion::End);
        }
        Ok(())
    }
}

impl Reading for ProgramReader {
    type Kind = ProgramKind;

    type Table = ProgramTable;

    type Whole = Program;

    ghost format = { program_format };

    ghost in_range = { ProgramInRange };

    ghost encoded = { encoded_program };

    ghost table = { λ program. program.table };

    ghost words = { λ words. words };

    fn begin(word: u32) -> Result<ProgramReader, WordsQuestion> {
        let word = ProgramWord::try_from(word)?;
        if word.kind != ProgramKind::Head {
            return Err(WordsQuestion::Kind);
        }
        let count = word.field(0, 6) as usize;
        let factor = word.field(6, 7);
        if !word.is_clear() || count < 1 || count > MAX_NODES || factor < 1 || factor > MAX_FACTOR {
            return Err(WordsQuestion::Range);
        }
        Ok(ProgramReader {
            draft: ProgramDraft::headed(count, factor),
        })
    }

    fn read(&mut self, word: u32, index: usize, given: usize) -> Result<bool, WordsQuestion> {
        let word = ProgramWord::try_from(word)?;
        match word.kind {
            ProgramKind::Head => return Err(WordsQuestion::Kind),
            ProgramKind::Line => self.line(word)?,
            ProgramKind::Cell => self.cell(word)?,
            ProgramKind::Tap => self.tap(word)?,
            ProgramKind::Output => self.output(word)?,
            ProgramKind::End => {
                self.end(word, index, given)?;
                return Ok(true);
            }
        }
        Ok(false)
    }

    fn finish(self, _given: usize) -> Program {
        Program {
            table: self.draft.table,
        }
    }
}

/// Reads an array program from its words: the program, or the first question answered no.
pub fn read_program(words: &[u32]) -> Result<Program, Fault>
    ensures reads { ProgramReads words.now result }
    ensures reads_back { ProgramReadsBack words.now result }
{
    read_words::<ProgramReader>(words)
}

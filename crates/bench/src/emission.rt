//! Emitting the array program of a bench.

ghost use Rattle.std.specs.Prelude.{◌≡◌, ℕ, ◌+◌, ◌<◌, ◌≤◌, [], ◌∷◌, ◌++◌};
ghost use Rattle.arrayvec.specs.ArrayVec.{array_vec_len};
ghost use Rattle.words.specs.ProgramEncoding.{encoded_program};
ghost use Rattle.words.specs.ProgramTables.{ProgramInRange};
ghost use Rattle.words.specs.Programs.{line_word};
ghost use Rattle.bench.specs.Buffers.{Written};
ghost use Rattle.bench.specs.Cells.{ListsCells};
ghost use Rattle.bench.specs.Listing.{listed as text_of};
ghost use Rattle.bench.specs.Programs.{in_turn, line_length, line_at, taps, cell, cells, program, Reaches};
ghost use Rattle.bench.specs.Tables.{program_of};

use crate::bench::Bench;
use crate::encode::{ProgramKind, WordKind};
use crate::listing::list_words;
use crate::program::ProgramWords;
use crate::writer::write_words;
use words::faults::Fault;
use words::graph::{INPUT, SOURCES};

impl Bench {
    /// The greatest delay at which a tap or the output reads a source, or 0.
    fn line_length(&self, source: usize) -> u16
        ensures { result ≡ line_length self.now.design.graph self.now.retiming source }
    {
        let retimed = self.retimed();
        let mut length = if self.design.output().node == source {
            self.output_delay()
        } else {
            0
        };
        for (node, row) in self.design.nodes().iter().enumerate() {
            if let Some(delay) = row.feeds.get(source).copied().flatten() {
                length = length.max(retimed.delay_of(node, source, delay));
            }
        }
        length
    }

    /// The line of one source.
    fn put_line(&self, source: usize, program: &mut ProgramWords)
        requires source { source < 33 }
        requires room { array_vec_len program.old < 1124 }
        ensures { program.new.items ≡ program.old.items ++ line_word source (line_length self.now.design.graph self.now.retiming source) ∷ [] }
    {
        let length = u32::from(self.line_length(source));
        program.push(ProgramKind::Line.place_word(source, length));
    }

    /// The lines of the nodes in order, then the input's.
    fn put_lines(&self, program: &mut ProgramWords)
        requires { array_vec_len program.old + 33 ≤ 1124 }
        ensures { program.new.items ≡ program.old.items ++ in_turn (line_at self.now.design.graph self.now.retiming) (self.now.design.graph.count + 1) }
    {
        for node in 0..self.design.count() {
            self.put_line(node, program);
        }
        self.put_line(INPUT, program);
    }

    /// The taps of one node, by source.
    fn put_taps(&self, node: usize, program: &mut ProgramWords)
        requires { array_vec_len program.old + 33 ≤ 1124 }
        ensures { program.new.items ≡ program.old.items ++ taps self.now.design.graph self.now.retiming node 33 }
    {
        for source in 0..SOURCES {
            if let Some(delay) = self.delay(node, source) {
                program.push(ProgramKind::Tap.place_word(source, u32::from(delay)));
            }
        }
    }

    /// The cell of one node, then its taps.
    fn put_cell(&self, node: usize, program: &mut ProgramWords)
        requires room { array_vec_len program.old + 34 ≤ 1124 }
        requires node { node < self.now.design.graph.count }
        ensures { program.new.items ≡ program.old.items ++ cell self.now.design.graph self.now.retiming node }
    {
        let operation = self.design.operation(node).unwrap();
        let lag = self.retiming.records[node].lag;
        program.push(ProgramKind::Cell.operation_word(node, operation, lag));
        self.put_taps(node, program);
    }

    /// The cells in firing order.
    fn put_cells(&self, program: &mut ProgramWords)
        requires { array_vec_len program.old + 1088 ≤ 1124 }
        ensures { program.new.items ≡ program.old.items ++ cells self.now.design.graph self.now.retiming self.now.design.graph.count }
    {
        let order = self.order();
        for &node in order.nodes() {
            self.put_cell(usize::from(node), program);
        }
    }

    /// The words of the bench's program.
    fn program_words(&self) -> ProgramWords
        ensures { result.items ≡ program self.now.design.graph self.now.retiming }
    {
        let mut program = ProgramWords::new();
        let factor = self.retiming.factor;
        program.push(ProgramKind::Head.place_word(self.design.count(), factor));
        self.put_lines(&mut program);
        self.put_cells(&mut program);
        let output = self.design.output();
        let delay = u32::from(self.output_delay());
        program.push(ProgramKind::Output.place_word(output.node, delay));
        let count = program.len() + 1;
        program.push(ProgramKind::End.count_word(count));
        program
    }

    /// Writes the array program to the front of `words`, and answers how many words there are.
    pub fn emit(&self, words: &mut [u32]) -> Result<usize, Fault>
        ensures written { Written (program self.now.design.graph self.now.retiming) words.old words.new result }
        ensures lines { (j : ℕ) → Reaches self.now.design.graph self.now.retiming j (line_length self.now.design.graph self.now.retiming j) }
        ensures cells { ListsCells self.now.design.graph self.now.retiming (program self.now.design.graph self.now.retiming) }
        ensures table { program self.now.design.graph self.now.retiming ≡ encoded_program (program_of self.now.design.graph self.now.retiming) }
        ensures in_range { ProgramInRange (program_of self.now.design.graph self.now.retiming) }
    {
        let program = self.program_words();
        write_words(program.as_slice(), words)
    }

    /// Lists the array program to the front of `text`, and answers how many bytes there are.
    pub fn list(&self, text: &mut [u8]) -> Result<usize, Fault>
        ensures { Written (text_of (program self.now.design.graph self.now.retiming)) text.old text.new result }
    {
        let program = self.program_words();
        list_words(program.as_slice(), text)
    }
}

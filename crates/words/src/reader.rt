//! Reading design words: the questions at each word in turn.

ghost use Rattle.std.specs.Prelude.{◌≡◌, ◌<◌, length};
ghost use Rattle.words.specs.Designs.{InRange, is_source};
ghost use Rattle.words.specs.Encoding.{encoded};
ghost use Rattle.words.specs.Questions.{design_format};
ghost use Rattle.words.specs.Drafts.{headed};
ghost use Rattle.words.specs.Taking.{Taken, Ended};
ghost use Rattle.words.specs.Reading.{Reads, ReadsBack};

use crate::design::Design;
use crate::draft::Draft;
use crate::faults::{Fault, WordsQuestion};
use crate::graph::{Graph, INPUT, MAX_NODES, Node, Output, SOURCES};
use crate::kinds::{DesignWord, Kind};
use crate::reading::{Reading, read_words};
use std::marker::Model;

/// A design whose words are being read. It is seen as the words so far.
#[derive(Drop)]
struct Reader {
    draft: Draft,
}

impl Model for Reader {
    ghost use Rattle.std.specs.Prelude.{ℕ, List};

    ghost Value = { List ℕ };

    ghost use Rattle.words.specs.Drafts.{drafted, Sound};

    ghost view = { λ r. drafted r.draft };

    ghost invariant = { λ r. Sound r.draft };
}

impl Draft {
    /// A design of `count` nodes, of which none was read yet.
    fn headed(count: usize) -> Draft
        ensures { result ≡ headed count }
    {
        Draft {
            graph: Graph {
                count,
                nodes: [Node {
                    operation: 0,
                    feeds: [None; SOURCES],
                }; MAX_NODES],
                output: Output { node: 0, delay: 0 },
            },
            seen: 0,
            least: 0,
            output: None,
        }
    }
}

impl Graph {
    /// Whether a number is one of the nodes or the input.
    fn has_source(&self, source: usize) -> bool
        ensures { result ≡ is_source self.now.count source }
    {
        source < self.count || source == INPUT
    }
}

impl Reader {
    /// Takes a node word.
    fn node(&mut self, word: DesignWord) -> Result<(), WordsQuestion>
        requires { word.kind ≡ Kind.Node }
        ensures { Taken self.old self.new word.word result }
    {
        let draft = &mut self.draft;
        if draft.seen >= draft.graph.count {
            return Err(WordsQuestion::Kind);
        }
        let number = word.field(0, 5) as usize;
        if !word.is_clear() || number >= draft.graph.count {
            return Err(WordsQuestion::Range);
        }
        if number != draft.seen {
            return Err(WordsQuestion::Order);
        }
        draft.graph.nodes[draft.seen].operation = word.field(5, 8) as u8;
        draft.seen += 1;
        draft.least = 0;
        Ok(())
    }

    /// Takes a feed word.
    fn feed(&mut self, word: DesignWord) -> Result<(), WordsQuestion>
        requires { word.kind ≡ Kind.Feed }
        ensures { Taken self.old self.new word.word result }
    {
        let draft = &mut self.draft;
        if draft.seen == 0 || draft.output.is_some() {
            return Err(WordsQuestion::Kind);
        }
        let source = word.field(0, 6) as usize;
        if !word.is_clear() || !draft.graph.has_source(source) {
            return Err(WordsQuestion::Range);
        }
        if source < draft.least {
            return Err(WordsQuestion::Order);
        }
        draft.graph.nodes[draft.seen - 1].feeds[source] = Some(word.field(6, 8) as u8);
        draft.least = source + 1;
        Ok(())
    }

    /// Takes the output word.
    fn output(&mut self, word: DesignWord) -> Result<(), WordsQuestion>
        requires { word.kind ≡ Kind.Output }
        ensures { Taken self.old self.new word.word result }
    {
        let draft = &mut self.draft;
        if draft.seen != draft.graph.count || draft.output.is_some() {
            return Err(WordsQuestion::Kind);
        }
        let node = word.field(0, 6) as usize;
        if !word.is_clear() || node >= draft.graph.count {
            return Err(WordsQuestion::Range);
        }
        let delay = word.field(6, 8) as u8;
        draft.least = 0;
        draft.output = Some(Output { node, delay });
        Ok(())
    }

    /// Reads the end word, which has that index among `given` words.
    fn end(&self, word: DesignWord, index: usize, given: usize) -> Result<(), WordsQuestion>
        requires kind { word.kind ≡ Kind.End }
        requires index { index ≡ length self.now }
        requires given { index < given }
        ensures { Ended self.now word.word given result }
    {
        if self.draft.output.is_none() {
            return Err(WordsQuestion::Kind);
        }
        if !word.is_clear() {
            return Err(WordsQuestion::Range);
        }
        let count = word.field(0, 11) as usize;
        if count != index + 1 || given != index + 1 {
            return Err(WordsQuestion::End);
        }
        Ok(())
    }
}

impl Reading for Reader {
    type Kind = Kind;

    type Table = Graph;

    type Whole = Design;

    ghost format = { design_format };

    ghost in_range = { InRange };

    ghost encoded = { encoded };

    ghost table = { λ design. design.graph };

    ghost words = { λ words. words };

    fn begin(word: u32) -> Result<Reader, WordsQuestion> {
        let word = DesignWord::try_from(word)?;
        if word.kind != Kind::Head {
            return Err(WordsQuestion::Kind);
        }
        let count = word.field(0, 6) as usize;
        if !word.is_clear() || count < 1 || count > MAX_NODES {
            return Err(WordsQuestion::Range);
        }
        Ok(Reader {
            draft: Draft::headed(count),
        })
    }

    fn read(&mut self, word: u32, index: usize, given: usize) -> Result<bool, WordsQuestion> {
        let word = DesignWord::try_from(word)?;
        match word.kind {
            Kind::Head => return Err(WordsQuestion::Kind),
            Kind::Node => self.node(word)?,
            Kind::Feed => self.feed(word)?,
            Kind::Output => self.output(word)?,
            Kind::End => {
                self.end(word, index, given)?;
                return Ok(true);
            }
        }
        Ok(false)
    }

    fn finish(self, given: usize) -> Design {
        let Draft { graph, output, .. } = self.draft;
        Design {
            graph: Graph {
                output: output.unwrap_or(graph.output),
                ..graph
            },
            size: given,
        }
    }
}

/// Reads a design from its words: the design, or the first question answered no.
pub fn read_design(words: &[u32]) -> Result<Design, Fault>
    ensures reads { Reads words.now result }
    ensures reads_back { ReadsBack words.now result }
{
    read_words::<Reader>(words)
}

//! Writing a design as words.

ghost use Rattle.std.specs.Prelude.{◌≡◌, ◌+◌, ◌<◌, ◌≤◌, ◌∷◌, ◌++◌, length, if◌then◌else◌, nat_lt, Ok, Err};
ghost use Rattle.arrayvec.specs.ArrayVec.{array_vec_len};
ghost use Rattle.words.specs.Encoding.{encoded, node_word, feed_words};
ghost use Rattle.bench.specs.Buffers.{Written};
ghost use Rattle.bench.specs.Refusals.{too_short};

use crate::encode::WordKind;
use arrayvec::ArrayVec;
use words::design::Design;
use words::faults::{BenchQuestion, Fault, Question};
use words::graph::{MAX_NODES, Node, SOURCES};
use words::kinds::Kind;

/// The longest design's words: a head, 32 nodes with 33 feeds each, the output and the end.
pub(crate) const MAX_DESIGN_WORDS: usize = 1 + MAX_NODES * (1 + SOURCES) + 2;

/// The words of a design, as far as they are made.
pub(crate) type DesignWords = ArrayVec<u32, MAX_DESIGN_WORDS>;

/// Question 14, of the words that a buffer has and those that are needed.
fn ask_room(words: usize, needed: usize) -> Result<(), Fault>
    ensures { result ≡ (if nat_lt words needed then Err (too_short words needed) else Ok tt) }
{
    if words < needed {
        return Err(BenchQuestion::Buffer.refused(words, needed));
    }
    Ok(())
}

/// Writes words to the front of a buffer, and answers how many there are: question 14.
pub(crate) fn write_words(from: &[u32], words: &mut [u32]) -> Result<usize, Fault>
    ensures { Written from.now words.old words.new result }
{
    let needed = from.len();
    ask_room(words.len(), needed)?;
    words[..needed].copy_from_slice(from);
    Ok(needed)
}

/// A node, then its feeds.
fn put_node(number: usize, node: &Node, words: &mut DesignWords)
    requires number { number < 32 }
    requires row { length node.now.feeds ≡ 33 }
    requires room { array_vec_len words.old + 34 ≤ 1091 }
    ensures { words.new.items ≡ words.old.items ++ (node_word number node.now.operation ∷ feed_words 0 node.now.feeds) }
{
    words.push(Kind::Node.operation_word(number, node.operation, 0));
    for (source, feed) in node.feeds.iter().enumerate() {
        if let Some(delay) = *feed {
            words.push(Kind::Feed.place_word(source, u32::from(delay)));
        }
    }
}

/// The words of a design.
pub(crate) fn design_words(design: &Design) -> DesignWords
    ensures { result.items ≡ encoded design.now.graph }
{
    let mut words = DesignWords::new();
    words.push(Kind::Head.count_word(design.count()));
    for (number, node) in design.nodes().iter().enumerate() {
        put_node(number, node, &mut words);
    }
    let output = design.output();
    words.push(Kind::Output.place_word(output.node, u32::from(output.delay)));
    words.push(Kind::End.count_word(design.size()));
    words
}

/// Writes a design's words to the front of `words`, and answers how many there are. A buffer that is too short is refused before any is made.
pub fn write_design(design: &Design, words: &mut [u32]) -> Result<usize, Fault>
    ensures { Written (encoded design.now.graph) words.old words.new result }
{
    ask_room(words.len(), design.size())?;
    let written = design_words(design);
    write_words(written.as_slice(), words)
}

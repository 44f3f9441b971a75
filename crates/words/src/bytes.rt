//! Bytes to words.

ghost use Rattle.std.specs.Prelude.{◌≡◌, ◌≤◌, length, map, take};
ghost use Rattle.words.specs.Bytes.{Packs, word_at};

use crate::faults::{Fault, WordsQuestion};
use crate::input::{InputWords, MAX_WORDS};

/// How many bytes of an input are taken at the most.
pub const MAX_BYTES: usize = 4 * MAX_WORDS;

/// The word of a pack, its first byte the highest.
fn word_of(pack: &[u8; 4]) -> u32
    ensures { result ≡ word_at pack.now 0 }
{
    let [a, b, c, d] = *pack;
    u32::from_be_bytes([a, b, c, d])
}

/// Fills the front of `words` with the words of packs.
fn fill(packs: &[[u8; 4]], words: &mut [u32])
    requires { length packs.now ≤ length words.old }
    ensures { take (length packs.now) words.new ≡ map (λ pack. word_at pack 0) packs.now }
{
    for (k, pack) in packs.iter().enumerate() {
        words[k] = word_of(pack);
    }
}

impl TryFrom<&[u8]> for InputWords {
    type Error = Fault;

    ghost try_from_gives = { λ bytes r. Packs bytes.now r };

    /// The words of an input's first 4,368 bytes, or the refusal of one to three bytes left over.
    fn try_from(bytes: &[u8]) -> Result<InputWords, Fault> {
        let (packs, left_over) = bytes[..bytes.len().min(MAX_BYTES)].as_chunks::<4>();
        if !left_over.is_empty() {
            return Err(WordsQuestion::Word.at(packs.len()));
        }
        let mut words = [0; MAX_WORDS];
        fill(packs, &mut words);
        Ok(InputWords {
            words,
            count: packs.len(),
        })
    }
}

//! The words of the shared table, on which one operation is made at a time.

ghost use Rattle.std.specs.Prelude.{◌≡◌, ◌-◌, ◌<◌, ◌≤◌, ◌++◌, List, ℕ, length, replicate, OnOk, IfOk};
ghost use Rattle.ds_map.specs.Words.{first_control_words, first_words, words as words_of};
ghost use Rattle.ds_step.specs.Word.{words_after, answer_on};

use crate::WordOp;
use crate::operation::{answered, written};
use ds_map::{Limits, word_of};
use std::alloc::{AllocError, Global};
use std::marker::Model;

/// How many words stand before those of the pages.
const CONTROL_WORDS: u32 = 384;

/// Words on which operations are made, one after another.
pub trait Words {
    // the words, by their numbers
    ghost held: { Self → List ℕ };

    /// Makes an operation on its word, and answers what the operation answers.
    fn apply(&mut self, op: WordOp) -> u64
        requires { op.word < length (held self.old) }
        ensures answer { result ≡ answer_on (held self.old) op }
        ensures change { held self.new ≡ words_after (held self.old) op };
}

/// The words of the shared table in memory of their own. Contracts see the list of the words.
#[derive(Debug, Drop)]
pub struct VecWords {
    words: Vec<u64>,
}

impl Model for VecWords {
    ghost use Rattle.std.specs.Prelude.{List, ℕ};

    ghost Value = { List ℕ };

    ghost view = { λ w. w.words.items };
}

impl Words for VecWords {
    ghost held = { λ words. words };

    fn apply(&mut self, op: WordOp) -> u64 {
        let word = op.word as usize;
        let old = self.words[word];
        self.words[word] = written(op, old);
        answered(op.kind, old)
    }
}

impl VecWords {
    /// The words at the start of a run within these limits, with this image of the globals, of at most 4,096 words.
    pub fn new(alloc: Global, limits: &Limits, image: &[u64]) -> Result<VecWords, AllocError>
        requires { length image.now ≤ 4096 }
        ensures first { IfOk result (λ words. words ≡ first_words limits.now image.now) }
        ensures len { IfOk result (λ words. length words ≡ words_of limits.now) }
    {
        let first = word_of(limits, 0);
        let len = limits.words();
        let mut words = control_words(alloc, len as usize)?;
        push_zeros(&mut words, first - CONTROL_WORDS)?;
        words.extend_from_slice(image)?;
        push_zeros(&mut words, len - first - image.len() as u32)?;
        Ok(VecWords { words })
    }
}

/// The control words at the start, with room for so many words.
fn control_words(alloc: Global, room: usize) -> Result<Vec<u64>, AllocError>
    ensures { IfOk result (λ words. words.items ≡ first_control_words) }
{
    let mut words = Vec::with_capacity(alloc, room)?;
    push_zeros(&mut words, CONTROL_WORDS)?;
    words[1] = 1;
    words[16] = 1;
    Ok(words)
}

/// Adds so many words that are 0.
fn push_zeros(words: &mut Vec<u64>, count: u32) -> Result<(), AllocError>
    ensures { OnOk result (words.new.items ≡ words.old.items ++ replicate count 0) }
{
    for _ in 0..count {
        words.push(0)?;
    }
    Ok(())
}

#[cfg(test)]
mod tests {
    use super::*;
    use crate::OpKind;
    use std::test::Fail;

    #[test]
    fn first_words_and_an_operation(rt: HostRuntime) -> Result<(), Fail> {
        let limits = Limits::default_limits();
        let mut words = VecWords::new(rt.alloc(), &limits, &[7])?;
        let kind = OpKind::Cas;
        let word = 3_211_904;
        let (a, b) = (7, 9);
        assert_eq!(rt; words.apply(WordOp { kind, word, a, b }), 7);
        assert_eq!(rt; words.apply(WordOp { kind, word, a, b }), 9);
        Ok(())
    }
}

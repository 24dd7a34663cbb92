//! Words in hexadecimal.

ghost use Rattle.std.specs.Prelude.{Some};
ghost use Rattle.ia_meaning.specs.StateText.{word_text};

use std::fmt;

/// A word of 64 bits, as it is printed.
#[derive(Clone, Copy, Debug)]
pub struct WordText {
    /// The word.
    pub word: u64,
}

impl fmt::Display for WordText {
    ghost output = { λ shown. Some (word_text shown.word) };

    /// 16 hexadecimal digits.
    #[tactic(auto, using(crate::proofs::Words::padded_word))]
    fn fmt<W: fmt::Write>(&self, f: &mut fmt::Formatter<W>) -> fmt::Result {
        let word = self.word;
        write!(f, "{word:016x}")
    }
}

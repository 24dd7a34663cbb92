//! The buffers of lines.

ghost use Rattle.std.specs.Prelude.{◌≡◌, ◌<◌, ◌≤◌, ◌++◌, ◌∷◌, [], List, length, take};
ghost use Rattle.asm_lexemes.specs.declared.limits.TheConstants.{LINE_LIMIT};
ghost use Rattle.asm_lexemes.specs.declared.tokens.Token.{Token as TokenOf};

use asm_lexemes::limits::LINE_LIMIT;
use asm_lexemes::{LexemeList, Token};
use std::marker::Model;

/// The tokens of a line or of a part of it, in places that the next line uses again; of these, so many count. Contracts
/// see those that count.
#[derive(Debug, Drop)]
pub(crate) struct Tokens {
    places: [Token; LINE_LIMIT],
    count: usize,
}

impl Model for Tokens {
    ghost Value = { List TokenOf };

    ghost view = { λ t. take t.count t.places };

    ghost invariant = { λ t. t.count ≤ LINE_LIMIT };
}

impl Tokens {
    /// None.
    fn new() -> Self
        ensures { result ≡ [] }
    {
        Tokens {
            places: [Token::OtherMark; LINE_LIMIT],
            count: 0,
        }
    }

    /// Leaves none.
    pub fn clear(&mut self)
        ensures { self.new ≡ [] }
    {
        self.count = 0;
    }

    /// Puts one more, where there is room.
    #[inline(always)]
    pub fn push(&mut self, token: Token)
        requires { length self.old < LINE_LIMIT }
        ensures { self.new ≡ self.old ++ token ∷ [] }
    {
        self.places[self.count] = token;
        self.count += 1;
    }

    /// The tokens, in order.
    pub fn as_slice(&self) -> &[Token]
        ensures { result.now ≡ self.now }
    {
        &self.places[..self.count]
    }
}

/// Room for the lexemes and the tokens of one line, which one line after the other may use. What is in it
/// before a line is read has no effect on what the line says.
#[derive(Debug, Drop)]
pub struct LineBuffers {
    pub(crate) lexemes: LexemeList,
    pub(crate) tokens: Tokens,
}

impl LineBuffers {
    /// Empty buffers.
    pub fn new() -> Self {
        LineBuffers {
            lexemes: LexemeList::new(),
            tokens: Tokens::new(),
        }
    }
}

//! What a lexeme may be read as.

use ia_insn::{Ar, Br, Gr, Pr};

/// What a lexeme may be read as.
#[derive(Clone, Copy, Debug, PartialEq, Eq)]
pub enum Token {
    /// A general register: `r0` to `r127`, `gp`, `sp`, `tp` and `ret0` to `ret3`.
    Gr(Gr),
    /// A predicate register, `p0` to `p63`.
    Pr(Pr),
    /// A branch register: `b0` to `b7` and `rp`.
    Br(Br),
    /// An application register: `ar.unat`, `ar.pfs`, `ar.lc` and `ar.ec`.
    Ar(Ar),
    /// `pr`, all predicates.
    Predicates,
    /// `pr.rot`, the rotating predicates.
    RotatingPredicates,
    /// `ip`, the address of the bundle.
    Ip,
    /// A number below 2^64, and whether a `-` stands before it.
    Number {
        /// Whether a `-` stands before it.
        negative: bool,
        /// The number without its `-`.
        magnitude: u64,
    },
    /// A number of 2^64 and above.
    TooLarge,
    /// A lexeme that begins like a number and is none, as `0x`, `1x` or `12q`.
    Malformed,
    /// A name of at most 63 bytes that begins with a letter and is no register.
    Name,
    /// A name of 64 bytes and more that begins with a letter.
    LongName,
    /// A name of at most 63 bytes that begins with `_`, `.` or `$`.
    Symbol,
    /// A name of 64 bytes and more that begins with `_`, `.` or `$`.
    LongSymbol,
    /// `"mutex"`
    Mutex,
    /// Any other quoted lexeme.
    Quoted,
    /// `=`
    Equals,
    /// `,`
    Comma,
    /// `[`
    OpenBracket,
    /// `]`
    CloseBracket,
    /// `(`
    OpenParenthesis,
    /// `)`
    CloseParenthesis,
    /// `{`
    OpenBrace,
    /// `}`
    CloseBrace,
    /// `:`
    Colon,
    /// `;;`
    Stop,
    /// Any other mark.
    OtherMark,
}

impl Default for Token {
    ghost use Rattle.std.specs.Prelude.{◌≡◌};
    ghost use Rattle.asm_lexemes.specs.declared.tokens.Token.TheVariants as token;

    ghost is_default = { λ t. t ≡ token.OtherMark };

    /// A mark.
    fn default() -> Self {
        Token::OtherMark
    }
}

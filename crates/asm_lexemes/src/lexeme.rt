//! A lexeme of a line.

ghost use Rattle.std.specs.Prelude.{◌≡◌, ◌≤◌, length, slice_range};

/// The four kinds of lexemes.
#[derive(Clone, Copy, Debug, PartialEq, Eq)]
pub enum LexemeKind {
    /// A longest run of letters, digits, `_`, `.` and `$` that begins with no digit.
    Name,
    /// A longest run of the same bytes that begins with a digit, and a `-` directly before it.
    Number,
    /// A run from a `"` to the next one on the line, whatever stands between the two.
    Quoted,
    /// `;;`, or any other single byte that is no space and no tab: a `"` too where no other follows it.
    Mark,
}

/// A lexeme is the bytes of its line from `start` to before `end`.
#[derive(Clone, Copy, Debug, PartialEq, Eq)]
pub struct Lexeme {
    /// What kind of lexeme it is.
    pub kind: LexemeKind,
    /// The position of its first byte.
    pub start: usize,
    /// The position after its last byte.
    pub end: usize,
}

impl Default for Lexeme {
    ghost use Rattle.std.specs.Prelude.{◌≡◌};
    ghost use Rattle.asm_lexemes.specs.declared.lexeme.LexemeKind.TheVariants as kind;

    ghost is_default = { λ w. (w.kind ≡ kind.Mark) × (w.start ≡ 0) × (w.end ≡ 0) };

    /// A mark of no bytes.
    fn default() -> Self {
        Lexeme {
            kind: LexemeKind::Mark,
            start: 0,
            end: 0,
        }
    }
}

impl Lexeme {
    /// Its bytes in the line that it is a lexeme of.
    pub fn text<'a>(&self, line: &'a [u8]) -> &'a [u8]
        requires { (self.now.start ≤ self.now.end) × (self.now.end ≤ length line.now) }
        ensures { result.now ≡ slice_range line.now self.now.start self.now.end }
    {
        &line[self.start..self.end]
    }
}

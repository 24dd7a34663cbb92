//! Why a text is no program.

ghost use Rattle.std.specs.Prelude.{◌≡◌, Some};
ghost use Rattle.asm_build.specs.declared.reason.TextError.TheVariants.{Fault, Memory};
ghost use Rattle.asm_build.specs.Reasons.{reason_of, reason_text};

use asm_lexemes::LineFault;
use std::alloc::{AllocError, AllocFailed};
use std::fmt;
use thiserror::Error;

/// What is wrong with a line of a text. [`Reason::Char`] to [`Reason::Form`] are those of a line by itself
/// ([`LineFault`]); the others are of what stands before or after it.
#[derive(Clone, Copy, Debug, PartialEq, Eq)]
pub enum Reason {
    /// A byte is neither a tab nor one of 0x20 to 0x7e.
    Char,
    /// The leading word, or the template's name after `{`, is none of the tables.
    Name,
    /// A register is wanted.
    Register,
    /// A number is wanted.
    Number,
    /// A number is outside its field.
    Range,
    /// Anything else that the leading word doesn't allow, or an instruction that isn't of the profile.
    Form,
    /// A slot past the last of its bundle; or, at `}`, there are too few or no template has these stops.
    Template,
    /// The instruction doesn't fit its slot.
    SlotKind,
    /// A label again.
    Twice,
    /// No label that fits has the name.
    NoLabel,
    /// A line over [`LINE_LIMIT`](asm_lexemes::limits::LINE_LIMIT) bytes, or a bundle, data, a declared entry or a
    /// declared relation past its [limit](ia_program::limits).
    Limit,
    /// A slot past [`RUN_LIMIT`](ia_program::limits::RUN_LIMIT) others of its run.
    LongRun,
    /// A line that may not stand there; or, after the last line, a bundle is open or a label of the text
    /// has no bundle.
    Misplaced,
    /// After the last line: there is no bundle.
    Empty,
    /// A line declares relations, and the next bundle isn't an entry, or there is none.
    Relation,
}

impl fmt::Display for Reason {
    ghost output = { λ reason. Some (reason_text reason) };

    /// The reason in words, as `slot kind`.
    fn fmt<W: fmt::Write>(&self, f: &mut fmt::Formatter<W>) -> fmt::Result {
        match self {
            Reason::Char => write!(f, "char"),
            Reason::Name => write!(f, "name"),
            Reason::Register => write!(f, "register"),
            Reason::Number => write!(f, "number"),
            Reason::Range => write!(f, "range"),
            Reason::Form => write!(f, "form"),
            Reason::Template => write!(f, "template"),
            Reason::SlotKind => write!(f, "slot kind"),
            Reason::Twice => write!(f, "twice"),
            Reason::NoLabel => write!(f, "no label"),
            Reason::Limit => write!(f, "limit"),
            Reason::LongRun => write!(f, "long run"),
            Reason::Misplaced => write!(f, "misplaced"),
            Reason::Empty => write!(f, "empty"),
            Reason::Relation => write!(f, "relation"),
        }
    }
}

/// Why a text is no program: its first fault.
#[derive(Clone, Copy, Debug, PartialEq, Eq, Error)]
pub enum TextError {
    /// A line is wrong.
    #[error("line {line}: {reason}")]
    Fault {
        /// Its number, from 1. One past the last line's is the end of the text.
        line: u32,
        /// What is wrong with it.
        reason: Reason,
    },
    /// Memory ran out. It may come in place of any other answer.
    #[error("out of memory")]
    Memory,
}

impl From<AllocError> for TextError {
    ghost from_gives = { λ _ error. error ≡ Memory };

    fn from(_: AllocError) -> Self {
        TextError::Memory
    }
}

impl<T: Drop> From<AllocFailed<T>> for TextError {
    ghost from_gives = { λ _ error. error ≡ Memory };

    fn from(_: AllocFailed<T>) -> Self {
        TextError::Memory
    }
}

/// The fault of a line.
pub fn fault(line: u32, reason: Reason) -> TextError
    ensures { result ≡ Fault line reason }
{
    TextError::Fault { line, reason }
}

/// The reason for which a line is refused by itself.
pub fn reason_of(fault: LineFault) -> Reason
    ensures { result ≡ reason_of fault }
{
    match fault {
        LineFault::Char => Reason::Char,
        LineFault::Name => Reason::Name,
        LineFault::Register => Reason::Register,
        LineFault::Number => Reason::Number,
        LineFault::Range => Reason::Range,
        LineFault::Form => Reason::Form,
    }
}

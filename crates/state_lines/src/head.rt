//! The first lines: how the run ended, its groups, and the state of the register stack.

ghost use Rattle.std.specs.Prelude.{◌≡◌, ◌++◌, OnOk, OnErr, Some, codes, decimal, string_bytes};
ghost use Rattle.ia_meaning.specs.StateText.{line, end_text, frame_text, range_text};

use ia_meaning::{FrameShape, Rse};
use ia_program::End;
use std::alloc::AllocError;
use std::fmt;

/// How a run ended, as it is printed.
#[derive(Clone, Copy, Debug)]
struct EndText {
    end: End,
}

impl fmt::Display for EndText {
    ghost output = { λ shown. Some (end_text shown.end) };

    /// The kind of the end, its number or fault if it has one, and its place.
    fn fmt<W: fmt::Write>(&self, f: &mut fmt::Formatter<W>) -> fmt::Result {
        match self.end {
            End::Break { imm, place } => write!(f, "end break 0x{imm:x} at {place}"),
            End::Limit { place } => write!(f, "end limit at {place}"),
            End::Fault { kind, place } => {
                let name = kind.name();
                write!(f, "end fault {name} at {place}")
            }
        }
    }
}

/// A resident range of the register stack, as it is printed.
#[derive(Clone, Copy, Debug)]
struct RangeText {
    range: Rse,
}

impl fmt::Display for RangeText {
    ghost output = { λ shown. Some (range_text shown.range) };

    /// Its bounds, and how many cells were spilled and filled, in decimal.
    fn fmt<W: fmt::Write>(&self, f: &mut fmt::Formatter<W>) -> fmt::Result {
        let (low, high) = (self.range.low, self.range.high);
        let (spilled, filled) = (self.range.spilled, self.range.filled);
        write!(f, "rse {low} {high} {spilled} {filled}")
    }
}

/// The line of a frame of the register stack: its first cell, its sizes and its register rename bases.
fn push_frame(out: &mut String, frame: &FrameShape) -> Result<(), AllocError>
    ensures { OnOk result (string_bytes out.new ≡ string_bytes out.old ++ line (frame_text frame.now)) }
{
    let (base, sof) = (frame.base, frame.sof);
    let (sol, sor) = (frame.sol, frame.sor);
    let (general, floating, predicates) = (frame.rrbs.gr, frame.rrbs.fr, frame.rrbs.pr);
    write!(out, "frame {base} sof {sof}")?;
    write!(out, " sol {sol} sor {sor}")?;
    writeln!(out, " rrb {general} {floating} {predicates}")
}

/// Appends the first two lines of a state: how its run ended, and how many groups began.
///
/// # Errors
///
/// Want of memory. The text is as it was then.
pub fn push_outcome(out: &mut String, end: &End, groups: u64) -> Result<(), AllocError>
    ensures ok { OnOk result (string_bytes out.new ≡ string_bytes out.old ++ line (end_text end.now) ++ line (codes "groups " ++ decimal groups)) }
    ensures err { OnErr result (string_bytes out.new ≡ string_bytes out.old) }
{
    let shown_end = EndText { end: *end };
    let lines = format!(in *out.allocator(); "{shown_end}\ngroups {groups}\n")?;
    out.push_str(&lines)
}

/// How the run ended, how many groups began, the frame and the resident range.
pub(crate) fn push_head(
    out: &mut String,
    end: &End,
    groups: u64,
    frame: &FrameShape,
    range: Rse,
) -> Result<(), AllocError>
    ensures { OnOk result (string_bytes out.new ≡ string_bytes out.old ++ line (end_text end.now) ++ line (codes "groups " ++ decimal groups) ++ line (frame_text frame.now) ++ line (range_text range)) }
{
    let shown_range = RangeText { range };
    push_outcome(out, end, groups)?;
    push_frame(out, frame)?;
    writeln!(out, "{shown_range}")
}

//! `stops`: a loose text is packed into bundles.

ghost use Rattle.std.specs.Prelude.{◌≡◌, ◌≤◌, IfOk, Some, flat_map, length, string_bytes};
ghost use Rattle.ia_meaning.specs.StateText.{line};
ghost use Rattle.ia64_top.specs.declared.limits.TheConstants.{INPUT_LIMIT};
ghost use Rattle.ia64_top.specs.Stops.{why_text, stop_text, packed_text, IsPackedText};
ghost use Rattle.ia64_top.specs.Readings.{as_loose};
ghost use Rattle.ia64_top.specs.Output.{IsMadeOutput};

use crate::answer::{Answer, refuse_text};
use crate::status::Status;
use crate::text::ViolationText;
use asm_build::disassemble;
use std::alloc::{AllocError, Global};
use std::fmt;
use stop_placer::{Packed, StopWhy, Why, place_stops, placed_has_no_violation};

/// Why a stop stands where it does, as it is printed.
#[derive(Clone, Copy, Debug)]
struct WhyText {
    why: Why,
}

impl fmt::Display for WhyText {
    ghost output = { λ shown. Some (why_text shown.why) };

    /// `written`, `long`, or the violation that the stop prevents.
    fn fmt<W: fmt::Write>(&self, f: &mut fmt::Formatter<W>) -> fmt::Result {
        match self.why {
            Why::Written => write!(f, "written"),
            Why::Long => write!(f, "long"),
            Why::Pair(violation) => write!(f, "{}", ViolationText { violation }),
        }
    }
}

/// A stop, as it is printed.
#[derive(Clone, Copy, Debug)]
struct StopText {
    stop: StopWhy,
}

impl fmt::Display for StopText {
    ghost output = { λ shown. Some (stop_text shown.stop) };

    /// A comment: the place that the stop follows, and why.
    fn fmt<W: fmt::Write>(&self, f: &mut fmt::Formatter<W>) -> fmt::Result {
        let StopWhy { after, why } = self.stop;
        let why = WhyText { why };
        write!(f, "// {after} {why}")
    }
}

/// The lines of stops.
fn stop_lines(alloc: Global, stops: &[StopWhy]) -> Result<String, AllocError>
    ensures { IfOk result (λ text. string_bytes text ≡ flat_map (λ s. line (stop_text s)) stops.now) }
{
    let mut text = String::new(alloc);
    for stop in stops {
        let shown = StopText { stop: *stop };
        writeln!(text, "{shown}")?;
    }
    Ok(text)
}

/// What is printed of a packed text.
fn packed_text(alloc: Global, packed: &Packed) -> Result<Vec<u8>, AllocError>
    ensures { IfOk result (λ text. text.items ≡ packed_text packed.now) }
{
    let mut text = disassemble(alloc, packed.program())?;
    text.extend_from_slice(stop_lines(alloc, packed.stops())?.as_bytes())?;
    Ok(text)
}

/// The answer of `stops` to an input within the limit.
pub(crate) fn stops_input(alloc: Global, input: &[u8]) -> Result<Answer, AllocError>
    requires { length input.now ≤ INPUT_LIMIT }
    ensures { IfOk result (λ answer. IsMadeOutput as_loose (IsPackedText input.now) input.now answer.bytes.items answer.status) }
{
    placed_has_no_violation();
    match place_stops(alloc, input) {
        Ok(packed) => Ok(Answer {
            bytes: packed_text(alloc, &packed)?,
            status: Status::Done,
        }),
        Err(error) => refuse_text(alloc, error),
    }
}

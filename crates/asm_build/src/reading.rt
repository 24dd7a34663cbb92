//! Taking the lines of a text, one by one.

ghost use Rattle.std.specs.Prelude.{◌≡◌, ◌⊎◌, ◌<◌, ◌+◌, ◌^◌, Err, IfOk, IfErr, OnOk, length};
ghost use Rattle.first_fault.specs.Stages.{ArePassed, IsFirstFault};
ghost use Rattle.asm_reading.specs.declared.line.Line.{Line as LineValue};
ghost use Rattle.asm_reading.specs.Lines.{IsListedLine};
ghost use Rattle.asm_build.specs.declared.reason.Reason.{Reason as ReasonOf};
ghost use Rattle.asm_build.specs.declared.reason.TextError.TheVariants as error;
ghost use Rattle.asm_build.specs.TextReading.{LineReading, IsRefusedBy, IsTakenBy, ComesToBy, AllSayBy, text_lines};

use crate::reason::{Reason, TextError, fault, reason_of};
use asm_lexemes::limits::LINE_LIMIT;
use asm_text::{Line, LineBuffers, read_line_into};
use bstr::ByteSlice;

/// What the lines so far say, and how the next one is taken.
pub trait TakesLines {
    /// The way to read a text that this goes.
    ghost reading: { LineReading Self };

    /// Takes what the n-th line says. What it needs of the line's value it may take out.
    ///
    /// # Errors
    ///
    /// The first fault of the line after those before it, or want of memory. Nothing is said of what stands here then,
    /// and nothing more is taken.
    fn take(&mut self, n: u32, value: &mut Line) -> Result<(), TextError>
        requires { IsListedLine value.old }
        ensures ok { OnOk result (ArePassed (reading.stages self.old value.old) × (self.new ≡ reading.after self.old n value.old)) }
        ensures err { IfErr result (λ e. (e ≡ error.Memory) ⊎ ((why : ReasonOf) × (e ≡ error.Fault n why) × IsFirstFault (reading.stages self.old value.old) why)) };
}

/// Takes the n-th line, which is read with these buffers and put into `value`.
fn take_line<P: TakesLines>(
    parts: &mut P,
    buffers: &mut LineBuffers,
    value: &mut Line,
    n: u32,
    line: &[u8],
) -> Result<(), TextError>
    ensures ok { OnOk result ((said : LineValue) × IsTakenBy P.reading parts.old line.now said × (parts.new ≡ P.reading.after parts.old n said)) }
    ensures err { IfErr result (λ e. (e ≡ error.Memory) ⊎ ((why : ReasonOf) × (e ≡ error.Fault n why) × IsRefusedBy P.reading parts.old line.now why)) }
{
    if line.len() > LINE_LIMIT {
        return Err(fault(n, Reason::Limit));
    }
    match read_line_into(line, buffers, value) {
        Ok(()) => parts.take(n, value),
        Err(why) => Err(fault(n, reason_of(why))),
    }
}

/// Takes the lines of a text, where none was taken before, and returns how many there are.
///
/// # Errors
///
/// The fault of the first line that is refused, or want of memory. Nothing is said of what stands in `parts` then.
pub fn take_lines<P: TakesLines>(parts: &mut P, text: &[u8]) -> Result<u32, TextError>
    requires start { parts.old ≡ P.reading.start }
    requires size { length text.now + 1 < 2 ^ 32 }
    ensures ok { OnOk result (AllSayBy P.reading text.now parts.new) }
    ensures count { IfOk result (λ count. count ≡ length (text_lines text.now)) }
    ensures err { IfErr result (λ e. (e ≡ error.Memory) ⊎ ComesToBy P.reading P.reading.start 1 (text_lines text.now) (Err e)) }
{
    let mut buffers = LineBuffers::new();
    let mut value = Line::Empty;
    let mut count = 0;
    for line in text.lines() {
        count += 1;
        take_line(parts, &mut buffers, &mut value, count, line)?;
    }
    Ok(count)
}

//! The state, as it is printed.

ghost use Rattle.std.specs.Prelude.{◌≡◌, ◌++◌, IfOk, OnOk, OnErr, codes, decimal, string_bytes};
ghost use Rattle.ia_meaning.specs.Progress.{end_of};
ghost use Rattle.ia_meaning.specs.StateText.{line, end_text, state_text};

use crate::machine::Machine;
use ia_program::End;
use std::alloc::{AllocError, Global};

/// Appends the first two lines of the state of a machine: how its run ended, and how many groups began.
///
/// # Errors
///
/// Want of memory. The text is as it was then.
pub fn push_outcome(out: &mut String, machine: &Machine<'_>, end: &End) -> Result<(), AllocError>
    ensures ok { OnOk result (string_bytes out.new ≡ string_bytes out.old ++ line (end_text end.now) ++ line (codes "groups " ++ decimal machine.now.progress.groups)) }
    ensures err { OnErr result (string_bytes out.new ≡ string_bytes out.old) }
{
    state_lines::push_outcome(out, end, machine.groups())
}

/// The state of a machine as it is printed, in the lines of [`state_text`](state_lines::state_text).
///
/// # Errors
///
/// Want of memory.
pub fn state_text(alloc: Global, machine: &Machine<'_>, end: &End) -> Result<Vec<u8>, AllocError>
    requires end { end.now ≡ end_of machine.now.progress }
    ensures { IfOk result (λ text. text.items ≡ state_text end.now machine.now.progress.groups machine.now.progress.range machine.now.progress.state) }
{
    let state = machine.state();
    let (frame, range) = (state.stack().shape(), state.stack().rse());
    state_lines::state_text(alloc, end, machine.groups(), &frame, range, state)
}

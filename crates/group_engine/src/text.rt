//! The state, as it is printed.

ghost use Rattle.std.specs.Prelude.{◌≡◌, IfOk};
ghost use Rattle.ia_meaning.specs.StateText.{state_text};
ghost use Rattle.group_engine.specs.Engine.{end_of};

use crate::machine::GroupMachine;
use ia_program::End;
use std::alloc::{AllocError, Global};

/// The state of an engine as it is printed, in the lines of [`state_text`](state_lines::state_text). The end is
/// that of the engine, or the limit at its place where it has none.
///
/// # Errors
///
/// Want of memory.
pub fn group_text(
    alloc: Global,
    machine: &GroupMachine<'_>,
    end: &End,
) -> Result<Vec<u8>, AllocError>
    requires end { end.now ≡ end_of machine.now }
    ensures { IfOk result (λ text. text.items ≡ state_text end.now machine.now.groups machine.now.range machine.now.state) }
{
    let state = machine.gathering();
    state_lines::state_text(
        alloc,
        end,
        machine.groups(),
        &state.registers.frame,
        machine.range(),
        &state.start(),
    )
}

//! The lines of the general registers.

ghost use Rattle.std.specs.Prelude.{◌≡◌, ◌≤◌, ◌++◌, OnOk, Some, string_bytes};
ghost use Rattle.ia_insn.specs.RegisterTexts.{gr_text};
ghost use Rattle.ia_meaning.specs.StateText.{cell_line, gr_line, gr_lines};

use crate::word::WordText;
use ia_insn::Gr;
use ia_meaning::{Cell, FrameShape};
use slot_effects::StateView;
use std::alloc::AllocError;

/// The line of a register with what it holds, unless that is 0 without NaT.
fn push_cell(out: &mut String, register: Gr, cell: Cell) -> Result<(), AllocError>
    ensures { OnOk result (string_bytes out.new ≡ string_bytes out.old ++ cell_line (gr_text register) (Some cell)) }
{
    let shown = WordText { word: cell.value };
    if cell.nat {
        writeln!(out, "{register} {shown} nat")
    } else if cell.value == 0 {
        Ok(())
    } else {
        writeln!(out, "{register} {shown}")
    }
}

/// The line of a register, unless it is 0 without NaT or outside the frame.
fn push_general<S: StateView>(out: &mut String, seen: &S, register: Gr) -> Result<(), AllocError>
    ensures { OnOk result (string_bytes out.new ≡ string_bytes out.old ++ gr_line (S.registers seen.now) register) }
{
    match seen.general(register) {
        Some(cell) => push_cell(out, register, cell),
        None => Ok(()),
    }
}

/// The lines of r1 to r31 and of the registers of the frame.
pub(crate) fn push_general_registers<S: StateView>(
    out: &mut String,
    frame: &FrameShape,
    seen: &S,
) -> Result<(), AllocError>
    requires frame { frame.now ≡ (S.registers seen.now).frame }
    requires size { frame.now.sof ≤ 96 }
    ensures { OnOk result (string_bytes out.new ≡ string_bytes out.old ++ gr_lines (S.registers seen.now)) }
{
    let end = 32 + u64::from(frame.sof);
    for n in 1..end {
        push_general(out, seen, Gr::of_field(n))?;
    }
    Ok(())
}

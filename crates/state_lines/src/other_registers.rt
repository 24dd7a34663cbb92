//! The lines of the predicates, the branch registers and the application registers.

ghost use Rattle.std.specs.Prelude.{◌≡◌, ◌++◌, OnOk, codes, string_bytes};
ghost use Rattle.ia_insn.specs.RegisterTexts.{br_text};
ghost use Rattle.ia_meaning.specs.Moves.{predicate_word};
ghost use Rattle.ia_meaning.specs.StateText.{line, word_text, word_line, br_lines, application_lines};

use crate::word::WordText;
use ia_insn::{Ar, Br};
use slot_effects::StateView;
use std::alloc::AllocError;

/// The line of the predicates.
pub(crate) fn push_predicates<S: StateView>(out: &mut String, seen: &S) -> Result<(), AllocError>
    ensures { OnOk result (string_bytes out.new ≡ string_bytes out.old ++ line (codes "pr " ++ word_text (predicate_word (S.registers seen.now).predicates))) }
{
    let shown = WordText {
        word: seen.predicate_word(),
    };
    writeln!(out, "pr {shown}")
}

/// The line of a branch register that holds a word, unless that is 0.
fn push_branch(out: &mut String, register: Br, word: u64) -> Result<(), AllocError>
    ensures { OnOk result (string_bytes out.new ≡ string_bytes out.old ++ word_line (br_text register) word) }
{
    if word == 0 {
        return Ok(());
    }
    let shown = WordText { word };
    writeln!(out, "{register} {shown}")
}

/// The lines of the branch registers.
pub(crate) fn push_branches<S: StateView>(out: &mut String, seen: &S) -> Result<(), AllocError>
    ensures { OnOk result (string_bytes out.new ≡ string_bytes out.old ++ br_lines (S.registers seen.now)) }
{
    for n in 0..8 {
        let register = Br::of_field(n);
        push_branch(out, register, seen.branch(register))?;
    }
    Ok(())
}

/// The line of an application register that holds a word, unless that is 0.
fn push_application(out: &mut String, name: &str, word: u64) -> Result<(), AllocError>
    ensures { OnOk result (string_bytes out.new ≡ string_bytes out.old ++ word_line name.now word) }
{
    if word == 0 {
        return Ok(());
    }
    let shown = WordText { word };
    writeln!(out, "{name} {shown}")
}

/// The lines of the application registers.
pub(crate) fn push_applications<S: StateView>(out: &mut String, seen: &S) -> Result<(), AllocError>
    ensures { OnOk result (string_bytes out.new ≡ string_bytes out.old ++ application_lines (S.registers seen.now)) }
{
    push_application(out, "ar.unat", seen.application(Ar::Unat))?;
    push_application(out, "ar.pfs", seen.application(Ar::Pfs))?;
    push_application(out, "ar.lc", seen.application(Ar::Lc))?;
    push_application(out, "ar.ec", seen.application(Ar::Ec))
}

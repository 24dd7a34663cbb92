//! The laws of texts.

ghost use Rattle.std.specs.Prelude.{ℕ, List};
ghost use Rattle.ia_program.specs.Programs.{Program};
ghost use Rattle.asm_build.specs.Laws.{OneTextProgram, OneTextFault, NoFaultWhereRead, TextOrFault};
ghost use Rattle.asm_build.specs.RoundTrip.{CanonicalTextReads, CanonicalTextIsShort, CanonicalTextFits};
ghost use Rattle.asm_build.specs.WholeTexts.{MeansWhatItReads};

use asm_text::{a_line_has_one_answer, line_or_fault, printed_slots_are_read_back};

/// The law that a text reads as at most one program. It does nothing.
pub fn one_text_program()
    ensures { OneTextProgram }
{
    a_line_has_one_answer();
}

/// The law that a text has at most one first fault. It does nothing.
pub fn one_text_fault()
    ensures { OneTextFault }
{
    a_line_has_one_answer();
}

/// The law that a text that reads as a program has no fault. It does nothing.
pub fn no_fault_where_read()
    ensures { NoFaultWhereRead }
{
    a_line_has_one_answer();
}

/// The law that a text reads as a program or has a first fault, of a line and for a reason. It does nothing.
pub fn text_or_fault()
    ensures { (text : List ℕ) → TextOrFault text }
{
    line_or_fault();
}

/// The law that the canonical text of a program reads as the program, and is short
/// enough for [`assemble`](crate::assemble): it has at most 16,777,216 bytes. It does nothing.
pub fn canonical_texts_are_read_back()
    ensures back { (p : Program) → CanonicalTextReads p }
    ensures short { (p : Program) → CanonicalTextIsShort p }
    ensures fits { (p : Program) → CanonicalTextFits p }
{
    printed_slots_are_read_back();
}

/// The law that a text means what its lines say, looked at all at once: the bundles of the program that it reads as,
/// its declared entries, its declared relations and its data are those on the lines, in order, and a label names what
/// as many bundles, or as many bytes of data, stand before as before the label in the text. It does nothing.
pub fn texts_mean_their_lines()
    ensures { (text : List ℕ) (p : Program) → MeansWhatItReads text p }
{}

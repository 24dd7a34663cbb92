//! The laws of loose texts.

ghost use Rattle.std.specs.Prelude.{ℕ, List};
ghost use Rattle.loose_text.specs.Laws.{OneLooseText, OneLooseFault, NoLooseFaultWhereRead, LooseTextOrFault, ReadIsLoose};

use asm_text::{a_line_has_one_answer, line_or_fault};

/// The law that a text reads as at most one loose text. It does nothing.
pub fn one_loose_text()
    ensures { OneLooseText }
{
    a_line_has_one_answer();
}

/// The law that a text has at most one first fault. It does nothing.
pub fn one_loose_fault()
    ensures { OneLooseFault }
{
    a_line_has_one_answer();
}

/// The law that a text that reads as a loose text has no fault. It does nothing.
pub fn no_loose_fault_where_read()
    ensures { NoLooseFaultWhereRead }
{
    a_line_has_one_answer();
}

/// The law that a text reads as a loose text or has a first fault, of a line and for a reason. It does nothing.
pub fn loose_text_or_fault()
    ensures { (text : List ℕ) → LooseTextOrFault text }
{
    line_or_fault();
}

/// The law that what a text reads as is a loose text. It does nothing.
pub fn loose_texts_are_loose()
    ensures { ReadIsLoose }
{}

//! The laws of packed texts. They do nothing.

ghost use Rattle.stop_placer.specs.Laws.{OnePlaced, OnePlacingFault, NoFaultWherePlaced, PlacedHasNoViolation, PlacedKeepsText};

use loose_text::{
    loose_texts_are_loose, no_loose_fault_where_read, one_loose_fault, one_loose_text,
};

/// The law that a text is packed into at most one program with one list of reasons. It does nothing.
pub fn one_placed()
    ensures { OnePlaced }
{
    one_loose_text();
    loose_texts_are_loose();
}

/// The law that a text has at most one first fault where it is to be packed. It does nothing.
pub fn one_placing_fault()
    ensures { OnePlacingFault }
{
    one_loose_text();
    one_loose_fault();
    no_loose_fault_where_read();
}

/// The law that a text that is packed has no fault. It does nothing.
pub fn no_fault_where_placed()
    ensures { NoFaultWherePlaced }
{
    one_loose_text();
    no_loose_fault_where_read();
}

/// The law that the program of a packed text has no violation. It does nothing.
pub fn placed_has_no_violation()
    ensures { PlacedHasNoViolation }
{
    loose_texts_are_loose();
}

/// The law that a packed text has the text's instructions, in order, and nops beside them. It does nothing.
pub fn placed_keeps_text()
    ensures { PlacedKeepsText }
{
    loose_texts_are_loose();
}

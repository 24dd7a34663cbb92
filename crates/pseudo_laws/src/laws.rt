//! The law of pseudo-operations. It does nothing.

ghost use Rattle.pseudo_laws.specs.Laws.{PseudoOperations};

/// The law that a line of a pseudo-operation makes the instruction that the manual has for it (volume 3, chapter 2). It does
/// nothing.
pub fn pseudo_operations_make_instructions()
    ensures { PseudoOperations }
{}

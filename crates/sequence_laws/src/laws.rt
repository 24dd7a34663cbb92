//! Laws of sequences of instructions and their programs. They do nothing.

ghost use Rattle.sequence_laws.specs.Laws.{KnownInTheSequence, ViolatedInTheSequence, ViolatedInTheProgram};

/// The law that what is known of predicates at an instruction's place in the program is known at the instruction in the
/// sequence: stops and nops change no fact. It does nothing.
pub fn known_in_the_sequence()
    ensures { KnownInTheSequence }
{}

/// The law that the sequence has a violation where the program has one. It does nothing.
pub fn violated_in_the_sequence()
    ensures { ViolatedInTheSequence }
{}

/// The law that the program has a violation where the sequence has one. It does nothing.
pub fn violated_in_the_program()
    ensures { ViolatedInTheProgram }
{}

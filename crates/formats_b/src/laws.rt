//!

ghost use Rattle.formats_b.specs.ListedX.{OneLongInstruction, OneLongWord};

/// The law that two words are those of at most one long instruction. It does nothing.
pub fn one_instruction_x()
    ensures { OneLongInstruction }
{}

/// The law that a long instruction has at most one word in each of its slots. It does nothing.
pub fn one_long_word()
    ensures { OneLongWord }
{}

//! The faults of a line.

/// Why a line of assembly text is refused.
#[derive(Clone, Copy, Debug, PartialEq, Eq)]
pub enum LineFault {
    /// A byte is neither a tab nor one from 0x20 to 0x7e.
    Char,
    /// The leading lexeme is no directive and no instruction, or the template's name is no template.
    Name,
    /// A register is wanted, and the operand is none of the wanted class.
    Register,
    /// A number is wanted, and the operand is none.
    Number,
    /// A number is outside the field that holds it.
    Range,
    /// The operands are of no form of the leading lexeme, or the instruction is not in the list.
    Form,
}

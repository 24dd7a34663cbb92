//! Families of instructions: what is decoded and encoded by the rows of one table.

ghost use Rattle.std.specs.Prelude.{◌≡◌, ℕ, ◌<◌, ◌≤◌, ◌^◌, ◌↔◌, IsTrue, IsNone, IsSome, IfSome, Some, List, Option, map};
ghost use Rattle.ia_insn.specs.declared.insn.Insn.{Insn};
ghost use Rattle.insn_rows.specs.declared.opcode.Opcode.{Opcode};
ghost use Rattle.insn_rows.specs.declared.row.Row.{Row};
ghost use Rattle.insn_rows.specs.Arms.{opcode_of};
ghost use Rattle.insn_rows.specs.Codes.{HasRow, IsListedBy};
ghost use Rattle.insn_rows.specs.Families.{IsFamily};
ghost use Rattle.insn_rows.specs.Indexes.{is_index};
ghost use Rattle.insn_rows.specs.Laws.{OneInstruction, OneWord, IsFrom, IsBelow};

use crate::arms::opcode_of;
use crate::codec::{decode_with, encode_with, lists_with, word_with};
use crate::opcode::Opcode;
use crate::row::Row;
use ia_insn::Insn;

/// A family of instructions. It gives its rows and where they stand; the rest is the same for each.
pub trait Family {
    /// The rows.
    ghost rows: { List Row };

    /// The index of the row of an opcode, and None for one that no instruction of the family has.
    ghost row_index_of: { Opcode → Option ℕ };

    /// The least that a word may be.
    ghost least: { ℕ };

    /// How many bits a word has.
    ghost width: { ℕ };

    /// The rows.
    fn rows() -> &'static [Row]
        ensures { result.now ≡ rows };

    /// Indexes of rows by major opcode: that of each row is among those of its own.
    fn by_major() -> &'static [&'static [u8]; 16]
        ensures { IsTrue (is_index rows (map (λ row_indexes. row_indexes.now) result.now)) };

    /// The index of the row of an opcode, and None for one that no instruction of the family has.
    fn row_index_of(opcode: Opcode) -> Option<usize>
        ensures { result ≡ row_index_of opcode };

    /// The law that the rows are a table, and stand at the indexes of their opcodes. It does nothing.
    fn is_family()
        ensures { IsFamily rows row_index_of least width };

    /// The instruction of the family whose word this is, and None exactly where it is that of none. Where in its bundle
    /// the word stands is not looked at.
    #[tactic(auto, using(crate::proofs::Families::is_from, crate::proofs::Families::is_below))]
    final fn decode(word: u64) -> Option<Insn>
        // What is answered has this word.
        ensures found { IfSome result (λ i. HasRow rows i word) }

        // An instruction that has this word is answered, so None comes only where none has it.
        ensures only { (i : Insn) → HasRow rows i word → result ≡ Some i }

        // A word has the bits of the family's, and no larger number is a word,
        ensures beyond { 2 ^ width ≤ word → IsNone result }

        // Nor is a smaller one than the family's least.
        ensures before { word < least → IsNone result }
    {
        Self::is_family();
        decode_with(Self::rows(), Self::by_major(), word)
    }

    /// The word of an instruction of the family, and None exactly where the instruction is of another or an operand is not
    /// in its range.
    final fn encode(insn: &Insn) -> Option<u64>
        // A word comes exactly where it is an instruction of the family in its ranges.
        ensures listed { IsSome result ↔ IsListedBy rows insn.now }

        // What is answered is its word.
        ensures found { IfSome result (λ w. HasRow rows insn.now w) }

        // A word that it has is answered.
        ensures only { (w : ℕ) → HasRow rows insn.now w → result ≡ Some w }

        // It has the 41 bits of a slot.
        ensures within { IfSome result (λ w. w < 2 ^ 41) }
    {
        Self::is_family();
        encode_with(Self::rows(), Self::row_index_of(opcode_of(&insn.op)), insn)
    }

    /// The word of an instruction of the family whose operands are known to be in their ranges.
    final fn word(insn: &Insn) -> u64
        requires { IsListedBy rows insn.now }
        ensures code { HasRow rows insn.now result }
        ensures within { result < 2 ^ 41 }
    {
        Self::is_family();
        word_with(Self::rows(), Self::row_index_of(opcode_of(&insn.op)), insn)
    }

    /// Whether the opcode is one of the family's, whatever the operands are.
    final fn has_opcode(insn: &Insn) -> bool
        ensures { IsTrue result ↔ IsSome (row_index_of (opcode_of insn.now.op)) }
    {
        Self::row_index_of(opcode_of(&insn.op)).is_some()
    }

    /// Whether the instruction is one of the family whose operands are in their ranges: whether it has a word.
    final fn is_listed(insn: &Insn) -> bool
        ensures { IsTrue result ↔ IsListedBy rows insn.now }
    {
        Self::is_family();
        lists_with(Self::rows(), Self::row_index_of(opcode_of(&insn.op)), insn)
    }

    /// The law that a word is that of at most one instruction of the family. It does nothing.
    final fn one_instruction()
        ensures { OneInstruction (HasRow rows) }
    {
        Self::is_family();
    }

    /// The law that an instruction of the family has at most one word. It does nothing.
    final fn one_word()
        ensures { OneWord (HasRow rows) }
    {
        Self::is_family();
    }

    /// The law that a word is at least the family's least. It does nothing.
    final fn words_are_from()
        ensures { IsFrom (HasRow rows) least }
    {
        Self::is_family();
    }

    /// The law that a word has the bits of the family's. It does nothing.
    final fn words_are_below()
        ensures { IsBelow (HasRow rows) (2 ^ width) }
    {
        Self::is_family();
    }
}

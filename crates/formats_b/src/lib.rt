//! The B and the F instructions, and the long instructions, which stand over an L and an X slot
//! (volume 3, chapter 4, instruction formats, B1 to B9, F15, F16, X1, X2 and X5).
//!
//! The B instructions are the direct and indirect branches and calls, the returns, the loop
//! branches, the clearings of the rotating register bases, and `break`, `nop` and `hint`. Of the F
//! instructions there are `break` and `nop`, and of the long ones `movl`, `break` and `nop`.
//!
//! [`FamilyB`] and [`FamilyF`] decode and encode the word of a slot, [`decode_x`] and [`encode_x`] the
//! words of two slots. All are exact: a word with a bit set that its format leaves blank, a reserved
//! code or an operand out of its range is that of no instruction.
//!
//! Nothing here takes memory.
#![tactic(auto)]

mod family_b;
mod family_f;
mod family_x;
mod laws;

pub use family_b::FamilyB;
pub use family_b::rows::ROWS as ROWS_B;
pub use family_f::FamilyF;
pub use family_f::rows::ROWS as ROWS_F;
pub use family_x::rows::ROWS as ROWS_X;
pub use family_x::{LongWord, decode_x, encode_x, is_listed_x, word_x};
pub use laws::{one_instruction_x, one_long_word};

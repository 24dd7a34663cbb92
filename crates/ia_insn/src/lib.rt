//! The instructions of the IA-64 profile, and the registers that they name.
//!
//! A value of these types need not be an instruction of the machine: which instructions there are, and their words, is
//! said by the tables of rows of the formats crates (Intel Itanium Architecture Software Developer's Manual, volume 3,
//! chapter 4).
#![tactic(auto)]

mod choices;
mod insn;
mod registers;

pub use choices::{
    AluFn, BranchKind, CmpKind, LaneFn, LoadKind, Rel, ShiftFn, StoreKind, Unit, Update,
};
pub use insn::{Insn, Op};
pub use registers::{Ar, Br, Gr, Pr};

//! Groups executed all at once: a second engine, which runs every program, whether it keeps the rules for
//! groups or not (Intel Itanium Architecture Software Developer's Manual, volume 1, chapter 3, instruction
//! groups and instruction dependencies).
//!
//! Every slot reads the registers of its group's start, but for what four exceptions let it see (`view`). The writes
//! of registers are kept until the group's end, and made there in an order that a number says. Memory, the ALAT and
//! the UNAT that spills and fills reach keep program order. The contracts name the definitions of `ia_meaning`:
//! [`GroupMachine::run`] goes so many groups further, each with its writes in the order with a number.
//!
//! It keeps the cells of the register stack in a flat list, and stands on neither the emulator nor the checker.
#![tactic(auto)]

mod arrange;
mod branch_inputs;
mod cells;
mod collect;
mod gathering;
mod in_order;
mod kept;
mod limits;
mod machine;
mod making;
mod registers;
mod text;
mod view;

pub use machine::GroupMachine;
pub use text::group_text;

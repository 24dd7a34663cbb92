//! What stands at each place of a program, looked at once: the action of the instruction there, its qualifying
//! predicate, whether a stop follows, and where control goes on (Intel Itanium Architecture Software
//! Developer's Manual, volume 1, chapter 3, instruction sequencing).
//!
//! The entry of a place is what the definitions of the layers below say of the place (`specs/Slots`).
#![tactic(auto)]

mod edges;
mod places;
mod slot;
mod table;

pub use edges::may_fall;
pub use places::{place_at, place_number};
pub use slot::Slot;
pub use table::SlotTable;

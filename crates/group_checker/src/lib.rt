//! Which pairs of slots of one instruction group break a rule of groups (Intel Itanium Architecture Software
//! Developer's Manual, volume 1, chapter 3, instruction groups and instruction dependencies; volume 3,
//! chapter 5, resource and dependency semantics).
//!
//! Within a group no slot may read or write what an earlier slot writes, no loop branch may write p63 after a
//! branch that reads it, `alloc` comes first and `clrrrb` last. Some accesses may share a group all the same: reads
//! that a branch makes, two or-writes, two and-writes, spills and fills (the rules of crate `resource_sets` say which
//! accesses clash). A read or a write after a write, and nothing else, is excused where the guards of the two
//! accesses are known not to be both 1, and no slot from the first on and before the second may write the guard of
//! the first.
//!
//! [`check`] says whether a program is accepted: exactly where no walk from an entry breaks a rule. Else it
//! says how many violations there are, each pair of slots counted once for each rule and resource, and shows
//! the first ones in order, up to [`SHOWN_LIMIT`].
#![tactic(auto)]

mod accepted;
mod broken;
mod checker;
mod laws;
mod moves;
mod pairs;
mod report;
mod window;

pub use accepted::Accepted;
pub use checker::check;
pub use laws::{one_verdict, violations_in_order, windows_begin_behind_stops};
pub use order_laws::Violation;
pub use report::{Report, SHOWN_LIMIT, Verdict};
pub use window::Window;

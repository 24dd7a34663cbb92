//! Watchers: each sees the instruction groups that a run executes, and reports at the end.
//!
//! Contracts see a watcher as what it has seen, `WatchState` of `specs/Watchers`.
#![tactic(auto)]

mod counter;
pub mod limits;
mod reports;
mod tracer;
mod watch;

pub use counter::Counter;
pub use reports::Reports;
pub use tracer::{Tracer, push_group_line};
pub use watch::{Keep, Watch, a_line_a_group};

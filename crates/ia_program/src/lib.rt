//! Bundles and programs: which instructions there are, the slots that they fit, and what they make together.
//!
//! `specs/` says which instructions are listed and which slots an instruction fits; then the templates and what they
//! have room for, places and runs of slots, and what makes bundles, declared entries, data and declared relations a
//! program. The functions here make bundles and programs, and say what a program has at a place.
#![tactic(auto)]

mod addresses;
mod bundle;
mod ending;
mod entries;
mod laws;
pub mod limits;
mod listed;
mod place;
mod places;
mod program;
mod relations;
mod runs;
mod slot_fitness;
mod targets;
mod template;

pub use addresses::{BUNDLE_BASE, DATA_BASE, bundle_address, data_address};
pub use bundle::{BundleOf, Slots};
pub use ending::{End, FaultKind, GroupEvent, How};
pub use entries::{are_in_range, is_entry, misplaced_entry};
pub use laws::numbers_rise;
pub use listed::is_listed;
pub use place::Place;
pub use program::{Program, ProgramFault};
pub use relations::Relation;
pub use runs::long_run;
pub use slot_fitness::{fits, is_branch_slot};
pub use template::{Template, one_template};

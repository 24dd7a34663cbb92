//! The top call.
#![tactic(auto)]

mod answer;
mod arguments;
mod check;
mod conversions;
mod laws;
pub mod limits;
mod runs;
mod status;
mod stops;
mod text;
mod top;
mod trial;

pub use arguments::{Arguments, Command};
pub use laws::{limits_are_stated, names_are_addresses, one_numeral, one_output};
pub use status::Status;
pub use top::ia64;

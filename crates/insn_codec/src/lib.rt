//! The sixteen bytes of a bundle: its instructions, and the way back.
//!
//! [`decode_bundle`] answers the bundle that the bytes are, or the first fault, and
//! [`encode_bundle`] the bytes of a bundle (Intel Itanium Architecture Software Developer's Manual,
//! volume 1, chapter 3, instruction encoding). Both are exact, and nothing here takes memory.
#![tactic(auto)]

mod bundle;
mod laws;
mod slot;

pub use bundle::{SlotFault, decode_bundle, encode_bundle};
pub use laws::{
    bundle_or_fault, fault_where_none_spelled, no_fault_where_spelled, one_bundle, one_fault,
    one_spelling,
};

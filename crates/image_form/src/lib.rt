//! The image form of programs.
//!
//! An image is `IA64IMG1` or `IA64IMG2`, the numbers of bundles, declared entries, data bytes and
//! declared relations, in four bytes each, then the entries, the relations in eight bytes each, the
//! bundles and the data. In version 1, that of `IA64IMG1`, the number of relations is zero.
//! [`read_image`] takes both versions and answers the program or the first fault, [`wrap_raw`] does
//! so for bare bundles, [`write_image`] gives the image of a program of version 1 where that has room
//! for it and else of version 2, and [`write_image_2`] that of version 2. [`write_image_of`] and
//! [`write_image_2_of`] do so where the bytes of the bundles are known. All numbers have their lowest
//! byte first.
#![tactic(auto)]

mod bundles;
mod fault;
mod head;
mod laws;
mod numbers;
mod reading;
mod relations;
mod version;
mod writing;

pub use bundles::spell_bundles;
pub use fault::ImageFault;
pub use laws::{
    fault_where_none_raw, fault_where_none_spelled, image_size, no_fault_where_raw,
    no_fault_where_spelled, one_fault, one_image, one_program, one_raw_fault, one_raw_program,
};
pub use reading::{bundles_of, read_image, wrap_raw};
pub use version::{VERSION_1_BUNDLE_LIMIT, Version, is_image};
pub use writing::{write_image, write_image_2, write_image_2_of, write_image_of};

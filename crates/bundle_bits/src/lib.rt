//! Bit fields of a 64-bit word, and the template and slots of a bundle.
//!
//! A bundle is 16 bytes, in little-endian order one number of 128 bits: the template in
//! bits 4:0, slot 0 in bits 45:5, slot 1 in bits 86:46 and slot 2 in bits 127:87 (volume 1,
//! chapter 3, instruction encoding overview). What a slot's 41 bits mean is not looked at here.
//!
//! Nothing here takes memory.
#![tactic(auto)]

mod bundle;
mod field;
mod laws;

pub use bundle::{RawBundle, join, split};
pub use field::Field;
pub use laws::{one_bytes, one_raw, some_raw};

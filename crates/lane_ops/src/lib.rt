//! Operations on the lanes of two words (volume 3, chapter 2: `padd`, `psub` and
//! `pcmp`).
//!
//! A word is taken as a vector of eight bytes, and these as lanes of one, two or four bytes, so that each
//! step is one on vectors. Nothing here takes memory.
#![tactic(auto)]

ghost use Rattle.std.specs.Prelude.{◌≡◌};
ghost use Rattle.ia_insn.specs.Ranges.{IsPartSize};
ghost use Rattle.ia_meaning.specs.Lanes.{lanes};

mod lanewise;

use crate::lanewise::{on_bytes, on_four_bytes, on_two_bytes};
use ia_insn::LaneFn;
use std::simd::ToBytes;
use std::simd::prelude::*;

/// What an operation gives for the lanes of two words (volume 3, chapter 2: `padd`, `psub` and `pcmp`). A
/// lane has `size` bytes, 1, 2 or 4. Sums and differences are modulo 2 to the power of its bits, and
/// compares give ones or zeros in each of its bits; `PcmpGt` compares lanes as signed numbers.
pub fn lanes(f: LaneFn, size: u8, a: u64, b: u64) -> u64
    requires size { IsPartSize size }
    ensures { result ≡ lanes f size a b }
{
    let a = u8x8::from_array(a.to_le_bytes());
    let b = u8x8::from_array(b.to_le_bytes());
    let bytes = match size {
        1 => on_bytes(f, a, b),
        2 => on_two_bytes(f, u16x4::from_le_bytes(a), u16x4::from_le_bytes(b)).to_le_bytes(),
        _ => on_four_bytes(f, u32x2::from_le_bytes(a), u32x2::from_le_bytes(b)).to_le_bytes(),
    };
    u64::from_le_bytes(bytes.to_array())
}

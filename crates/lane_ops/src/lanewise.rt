//! Operations on vectors, lane by lane. A contract sees a vector as the list of its lanes.

ghost use Rattle.std.specs.Prelude.{◌≡◌};
ghost use Rattle.std.specs.Simd.Lanes.{zip2};
ghost use Rattle.ia_meaning.specs.Lanes.{lane_value};

use ia_insn::LaneFn;
use std::simd::prelude::*;

/// The operation on each lane of `a` and the same one of `b`. To add half of what a lane has room for turns the
/// order of signed lanes into that of unsigned ones.
macro_rules! by_lanes {
    ($vector:ident, $half:expr, $f:ident, $a:ident, $b:ident) => {{
        let ones = $vector::splat(!0);
        let zeros = $vector::splat(0);
        let half = $vector::splat($half);
        match $f {
            LaneFn::Padd => $a + $b,
            LaneFn::Psub => $a - $b,
            LaneFn::PcmpEq => $a.simd_eq($b).select(ones, zeros),
            LaneFn::PcmpGt => ($a + half).simd_gt($b + half).select(ones, zeros),
        }
    }};
}

/// An operation on eight lanes of a byte.
pub(crate) fn on_bytes(f: LaneFn, a: u8x8, b: u8x8) -> u8x8
    ensures { result ≡ zip2 (lane_value f 8) a b }
{
    by_lanes!(u8x8, 1 << 7, f, a, b)
}

/// An operation on four lanes of two bytes.
pub(crate) fn on_two_bytes(f: LaneFn, a: u16x4, b: u16x4) -> u16x4
    ensures { result ≡ zip2 (lane_value f 16) a b }
{
    by_lanes!(u16x4, 1 << 15, f, a, b)
}

/// An operation on two lanes of four bytes.
pub(crate) fn on_four_bytes(f: LaneFn, a: u32x2, b: u32x2) -> u32x2
    ensures { result ≡ zip2 (lane_value f 32) a b }
{
    by_lanes!(u32x2, 1 << 31, f, a, b)
}

//! The resident range (volume 1, chapter 4, register stack engine).

ghost use Rattle.std.specs.Prelude.{◌≡◌};
ghost use Rattle.ia_meaning.specs.ResidentRange.{zero_range, range_after};

use ia_meaning::Rse;

/// The resident range at the start: it is empty.
pub fn zero_range() -> Rse
    ensures { result ≡ zero_range }
{
    Rse {
        low: 0,
        high: 0,
        spilled: 0,
        filled: 0,
    }
}

/// The resident range after a change to a frame at `base`, with `high` cells up to its end: it begins at `base` where
/// it began later, and 96 cells before its end where it began earlier than that. The counts of the cells that were
/// spilled and filled are modulo 2^64.
pub fn range_after(range: Rse, base: u32, high: u32) -> Rse
    ensures { result ≡ range_after range (base, high) }
{
    let low = range.low.min(base).max(high.saturating_sub(96));
    let spilled = u64::from(low.saturating_sub(range.low));
    let filled = u64::from(range.low.saturating_sub(low));
    Rse {
        low,
        high,
        spilled: range.spilled.wrapping_add(spilled),
        filled: range.filled.wrapping_add(filled),
    }
}

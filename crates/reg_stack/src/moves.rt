//! Cells on their way between the ring and the region.

ghost use Rattle.std.specs.Prelude.{◌≡◌, ℕ, ◌+◌, ◌*◌, ◌/◌, ◌<◌, ◌≤◌, length, replicate};
ghost use Rattle.ia_meaning.specs.declared.limits.TheConstants.{STACK_LIMIT};
ghost use Rattle.ia_meaning.specs.State.{zero_cell};
ghost use Rattle.ia_meaning.specs.Writes.{resized};
ghost use Rattle.reg_stack.specs.Layout.{held_cell, resident_cell, cells_of, IsFreeFrom, room};

use crate::runs::{fill_run, pad_run, spill_run, zero_cell};
use ia_meaning::{Cell, Rse};

/// A ring of zeros.
pub(crate) fn zero_ring() -> [Cell; 96]
    ensures { result ≡ replicate 96 zero_cell }
{
    [zero_cell(); 96]
}

/// The end of the run of cells that begins with `c`, or goes on with it.
fn run_end(c: u32) -> u32
    requires { c < STACK_LIMIT }
    ensures after { c < result }
    ensures collection { result ≤ 63 * (c / 63) + 63 }
    ensures turn { result ≤ 96 * (c / 96) + 96 }
{
    (63 * (c / 63) + 63).min(96 * (c / 96) + 96)
}

/// The first cell of the run of cells that ends before `c`.
fn run_start(c: u32) -> u32
    requires some { 0 < c }
    requires most { c ≤ STACK_LIMIT }
    ensures before { result < c }
    ensures collection { c ≤ 63 * (result / 63) + 63 }
    ensures turn { c ≤ 96 * (result / 96) + 96 }
{
    let last = c - 1;
    (63 * (last / 63)).max(96 * (last / 96))
}

/// Moves the cells from `from` up to `to` into the region.
fn spill(ring: &[Cell; 96], region: &mut [u64], from: u32, to: u32)
    requires order { from ≤ to }
    requires most { to ≤ STACK_LIMIT }
    requires within { to ≤ room region.old }
    requires free { IsFreeFrom region.old from }
    ensures count { length region.new ≡ length region.old }
    ensures cells { (c : ℕ) → held_cell ring.now region.new to c ≡ held_cell ring.now region.old from c }
    ensures free { IsFreeFrom region.new to }
{
    let mut low = from;
    while low < to {
        let next = to.min(run_end(low));
        spill_run(ring, region, low as usize, next as usize);
        low = next;
    }
}

/// Moves the cells from `from` down to `to` back into the ring. Those from `end` on are lost.
fn fill(ring: &mut [Cell; 96], region: &mut [u64], from: u32, to: u32, end: u32)
    requires order { to ≤ from }
    requires most { from ≤ STACK_LIMIT }
    requires within { from ≤ room region.old }
    requires near { end ≤ to + 96 }
    requires free { IsFreeFrom region.old from }
    ensures count { length region.new ≡ length region.old }
    ensures cells { (c : ℕ) → c < end → held_cell ring.new region.new to c ≡ held_cell ring.old region.old from c }
    ensures free { IsFreeFrom region.new to }
{
    let mut low = from;
    while to < low {
        let next = to.max(run_start(low));
        fill_run(ring, region, low as usize, next as usize, end as usize);
        low = next;
    }
}

/// Fills the ring with zeros from the cell `from` up to `to`.
fn pad(ring: &mut [Cell; 96], from: u32, to: u32)
    requires most { to ≤ STACK_LIMIT }
    requires near { to ≤ from + 96 }
    ensures kept { (c : ℕ) → to ≤ c + 96 → c < from → resident_cell ring.new c ≡ resident_cell ring.old c }
    ensures zero { (c : ℕ) → from ≤ c → c < to → resident_cell ring.new c ≡ zero_cell }
{
    let mut high = from;
    while high < to {
        let next = to.min(run_end(high));
        pad_run(ring, high as usize, next as usize);
        high = next;
    }
}

/// Moves the cells of one resident range to where those of another have them: cells past its end are lost,
/// and new ones are zero.
pub(crate) fn move_cells(ring: &mut [Cell; 96], region: &mut [u64], from: Rse, to: Rse)
    requires from_most { from.low ≤ STACK_LIMIT }
    requires to_most { to.low ≤ STACK_LIMIT }
    requires from_within { from.low ≤ room region.old }
    requires to_within { to.low ≤ room region.old }
    requires high_most { to.high ≤ STACK_LIMIT }
    requires reach { to.low ≤ from.high }
    requires near { to.high ≤ to.low + 96 }
    requires free { IsFreeFrom region.old from.low }
    ensures count { length region.new ≡ length region.old }
    ensures cells { cells_of ring.new region.new to.low to.high ≡ resized to.high (cells_of ring.old region.old from.low from.high) }
    ensures free { IsFreeFrom region.new to.low }
{
    let top = from.low.max(to.low);
    spill(ring, region, from.low, top);
    fill(ring, region, top, to.low, to.high);
    pad(ring, from.high, to.high);
}

//! Runs of cells on their way between the ring and the region: their NaT bits are in one NaT collection, and their
//! places in the ring and their words in the region follow one another.

ghost use Rattle.std.specs.Prelude.{◌≡◌, ◌≢◌, ℕ, ◌+◌, ◌*◌, ◌/◌, ◌<◌, ◌≤◌, ◌==◌, length};
ghost use Rattle.std.specs.Int.{bit_at};
ghost use Rattle.ia_meaning.specs.declared.limits.TheConstants.{STACK_LIMIT};
ghost use Rattle.ia_meaning.specs.State.{zero_cell};
ghost use Rattle.reg_stack.specs.Layout.{nat_word, held_cell, resident_cell, IsFreeFrom};

use ia_meaning::Cell;

/// 0 without NaT.
pub(crate) fn zero_cell() -> Cell
    ensures { result ≡ zero_cell }
{
    Cell {
        value: 0,
        nat: false,
    }
}

/// The word of the region that has the NaT bit of a cell.
fn nat_word(c: usize) -> usize
    requires { c ≤ STACK_LIMIT }
    ensures { result ≡ nat_word c }
{
    64 * (c / 63) + 63
}

/// The NaT collection with another NaT bit in place of one of its 63.
fn with_nat(nats: u64, bit: usize, nat: bool) -> u64
    requires { bit < 63 }
    ensures this { (bit_at result bit == 1) ≡ nat }
    ensures others { (i : ℕ) → i < 64 → i ≢ bit → bit_at result i ≡ bit_at nats i }
{
    let mask = 1 << bit;
    if nat { nats | mask } else { nats & !mask }
}

/// The NaT bit of one of the 63 registers of a NaT collection.
fn nat_of(nats: u64, bit: usize) -> bool
    requires { bit < 63 }
    ensures { result ≡ (bit_at nats bit == 1) }
{
    (nats >> bit) & 1 == 1
}

/// Moves the cells from `from` up to `to`, a run, into the region.
pub(crate) fn spill_run(ring: &[Cell; 96], region: &mut [u64], from: usize, to: usize)
    requires order { from ≤ to }
    requires collection { to ≤ 63 * (from / 63) + 63 }
    requires turn { to ≤ 96 * (from / 96) + 96 }
    requires most { to ≤ STACK_LIMIT }
    requires within { nat_word from < length region.old }
    requires free { IsFreeFrom region.old from }
    ensures count { length region.new ≡ length region.old }
    ensures cells { (c : ℕ) → held_cell ring.now region.new to c ≡ held_cell ring.now region.old from c }
    ensures free { IsFreeFrom region.new to }
{
    let (row, turn) = (from / 63, from / 96);
    let collection = nat_word(from);
    let mut nats = region[collection];
    for c in from..to {
        let cell = ring[c - 96 * turn];
        region[c + row] = cell.value;
        nats = with_nat(nats, c - 63 * row, cell.nat);
    }
    region[collection] = nats;
}

/// Moves the cells from `from` down to `to`, a run, back into the ring. Those from `end` on are lost.
pub(crate) fn fill_run(
    ring: &mut [Cell; 96],
    region: &mut [u64],
    from: usize,
    to: usize,
    end: usize,
)
    requires order { to ≤ from }
    requires collection { from ≤ 63 * (to / 63) + 63 }
    requires turn { from ≤ 96 * (to / 96) + 96 }
    requires most { from ≤ STACK_LIMIT }
    requires within { nat_word to < length region.old }
    requires near { end ≤ to + 96 }
    requires free { IsFreeFrom region.old from }
    ensures count { length region.new ≡ length region.old }
    ensures cells { (c : ℕ) → c < end → held_cell ring.new region.new to c ≡ held_cell ring.old region.old from c }
    ensures free { IsFreeFrom region.new to }
{
    let (row, turn) = (to / 63, to / 96);
    let collection = nat_word(to);
    let mut nats = region[collection];
    let mut low = from;
    while to < low {
        low -= 1;
        let (word, bit) = (low + row, low - 63 * row);
        ring[low - 96 * turn] = Cell {
            value: region[word],
            nat: nat_of(nats, bit),
        };
        region[word] = 0;
        nats = with_nat(nats, bit, false);
    }
    region[collection] = nats;
}

/// Fills the ring with zeros from the cell `from` up to `to`, a run or part of one.
pub(crate) fn pad_run(ring: &mut [Cell; 96], from: usize, to: usize)
    requires turn { to ≤ 96 * (from / 96) + 96 }
    requires most { to ≤ STACK_LIMIT }
    ensures kept { (c : ℕ) → to ≤ c + 96 → c < from → resident_cell ring.new c ≡ resident_cell ring.old c }
    ensures zero { (c : ℕ) → from ≤ c → c < to → resident_cell ring.new c ≡ zero_cell }
{
    let turn = from / 96;
    for c in from..to {
        ring[c - 96 * turn] = zero_cell();
    }
}

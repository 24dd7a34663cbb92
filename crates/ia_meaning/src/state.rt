//! The parts of a state.

/// A general register: its 64 bits and its NaT bit (volume 1, chapter 3, general registers).
#[derive(Clone, Copy, Debug, Default, PartialEq, Eq)]
pub struct Cell {
    /// The 64 bits.
    pub value: u64,
    /// Whether it is NaT, not a thing: its value isn't to be used.
    pub nat: bool,
}

/// The register rename bases, rrb in the manual (volume 1, chapter 4, register stack).
#[derive(Clone, Copy, Debug, Default, PartialEq, Eq)]
pub struct Rrbs {
    /// The base of the general registers, below 8 times the frame's sor, or 0.
    pub gr: u8,
    /// The base of the floating-point registers, below 96.
    pub fr: u8,
    /// The base of the predicates, below 48.
    pub pr: u8,
}

/// A register stack frame (volume 1, chapter 4, register stack frames).
#[derive(Clone, Copy, Debug, Default, PartialEq, Eq)]
pub struct FrameShape {
    /// The number of its first cell.
    pub base: u32,
    /// The size of the frame, 0 to 96.
    pub sof: u8,
    /// The size of its locals, at most `sof`.
    pub sol: u8,
    /// The size of its rotating part in eights; 8 * `sor` is at most `sof`.
    pub sor: u8,
    /// The register rename bases.
    pub rrbs: Rrbs,
}

/// The resident range of the register stack, and what moved in and out of it.
#[derive(Clone, Copy, Debug, Default, PartialEq, Eq)]
pub struct Rse {
    /// The first cell that is resident.
    pub low: u32,
    /// The number of cells, one past the last that is resident.
    pub high: u32,
    /// How many cells were spilled, modulo 2^64.
    pub spilled: u64,
    /// How many cells were filled, modulo 2^64.
    pub filled: u64,
}

/// What holds a general register, which is the key of its entry in the ALAT.
#[derive(Clone, Copy, Debug, PartialEq, Eq)]
pub enum Spot {
    /// A static register, by its number, 0 to 31.
    Static(u8),
    /// A stacked register, by the number of its cell, below [`STACK_LIMIT`](crate::limits::STACK_LIMIT).
    Stacked(u32),
}

impl Default for Spot {
    ghost use Rattle.std.specs.Prelude.{◌≡◌};
    ghost use Rattle.ia_meaning.specs.declared.state.Spot.TheVariants.{Static};

    ghost is_default = { λ key. key ≡ Static 0 };

    /// r0, which no load enters.
    fn default() -> Self {
        Spot::Static(0)
    }
}

/// An entry of the ALAT, the advanced load address table (volume 1, chapter 4, data speculation).
#[derive(Clone, Copy, Debug, Default, PartialEq, Eq)]
pub struct AlatEntry {
    /// The target of the load.
    pub key: Spot,
    /// The address that it loaded from.
    pub address: u64,
    /// How many bytes it loaded: 1, 2, 4 or 8.
    pub size: u8,
}

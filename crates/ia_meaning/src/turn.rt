//! Turns of loops.

/// What a loop branch does: what it writes, where it does, whether the registers rotate, and whether it
/// is taken (volume 1, chapter 4, modulo-scheduled loop support).
#[derive(Clone, Copy, Debug, PartialEq, Eq)]
pub struct Turn {
    /// The new loop count.
    pub lc: Option<u64>,
    /// The new epilog count.
    pub ec: Option<u64>,
    /// The new value of p63, under the old rename base.
    pub p63: Option<bool>,
    /// Whether the registers rotate.
    pub rotates: bool,
    /// Whether the branch is taken.
    pub taken: bool,
}

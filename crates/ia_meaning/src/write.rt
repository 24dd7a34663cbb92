//! Writes of registers.

use crate::state::{Cell, FrameShape};

/// Why a frame is written (volume 1, chapter 4, register stack).
#[derive(Clone, Copy, PartialEq, Eq)]
pub enum FrameCause {
    /// `alloc`, a call and a return resize it.
    Resized,
    /// Rotation and `clrrrb` rename its registers alone.
    Renamed,
}

/// A write of a register, by what holds it, whatever its name is in a frame (volume 1, chapter 3,
/// instruction sequencing).
#[derive(Clone, Copy)]
pub enum Write {
    /// A static general register, by its number.
    SetStatic(u8, Cell),
    /// A cell of the register stack, by its number.
    SetCell(u32, Cell),
    /// A predicate, by its index without rotation.
    SetPredicate(u8, bool),
    /// A branch register, by its number.
    SetBranch(u8, u64),
    /// UNAT.
    SetUnat(u64),
    /// The previous function state.
    SetPfs(u64),
    /// The loop count.
    SetLc(u64),
    /// The epilog count.
    SetEc(u64),
    /// The frame.
    SetFrame(FrameCause, FrameShape),
}

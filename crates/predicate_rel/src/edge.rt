//! Edges.

/// How control goes on from a slot. Where a branch's target is also its next place, a branch that falls
/// through follows `Falls`, and one that is taken follows `Taken` (volume 1, chapter 3, instruction
/// sequencing).
#[derive(Clone, Copy, Debug, PartialEq, Eq)]
pub enum Edge {
    /// To the next place.
    Falls,
    /// To the target of a branch or a check.
    Taken,
}

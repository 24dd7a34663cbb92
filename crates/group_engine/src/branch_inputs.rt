//! The registers that steer branches.

/// The registers that a branch may see as earlier slots of its group wrote them: its exceptions to the rule
/// that a slot reads what stood at its group's start (volume 1, chapter 3, instruction dependencies).
#[derive(Clone, Copy, Debug)]
pub(crate) struct BranchInputs {
    /// The predicates by place.
    pub predicates: [bool; 64],
    /// b0 to b7.
    pub branches: [u64; 8],
    /// The previous function state.
    pub pfs: u64,
}

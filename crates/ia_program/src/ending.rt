//! How groups and runs end (volume 1, chapter 3, instruction sequencing).

ghost use Rattle.std.specs.Prelude.{◌≡◌};
ghost use Rattle.ia_program.specs.Texts.{fault_name};

use crate::place::Place;

/// Why a slot ends the run. A slot's faults are looked for in this order, and the first one ends the
/// run.
#[derive(Clone, Copy, Debug, PartialEq, Eq)]
pub enum FaultKind {
    /// A general register outside the register stack frame is named (volume 1, chapter 4, register
    /// stack).
    OutOfFrame,
    /// A NaT is used where it is no value: by a move to a branch, predicate or application register,
    /// as an address, or as what is stored (volume 1, chapter 4, control speculation).
    NatConsumed,
    /// An address isn't a multiple of the access's size.
    Unaligned,
    /// An access reaches past the data.
    BadAddress,
    /// The previous function state names no frame.
    BadFrame,
    /// A reserved field isn't zero, or the rotating part of a frame changes its size while a register
    /// rename base isn't zero.
    ReservedField,
    /// A return reaches below the first frame.
    Underflow,
    /// The register stack is full.
    StackLimit,
    /// An indirect branch reaches a bundle that is no entry.
    BadLanding,
    /// An indirect branch lands on an entry of which two predicates of a declared relation are both 1.
    BadRelation,
    /// A slot without a next place falls through.
    FellOff,
}

impl FaultKind {
    /// The name, as it is written here.
    pub fn name(&self) -> &'static str
        ensures { result.now ≡ fault_name self.now }
    {
        match self {
            FaultKind::OutOfFrame => "OutOfFrame",
            FaultKind::NatConsumed => "NatConsumed",
            FaultKind::Unaligned => "Unaligned",
            FaultKind::BadAddress => "BadAddress",
            FaultKind::BadFrame => "BadFrame",
            FaultKind::ReservedField => "ReservedField",
            FaultKind::Underflow => "Underflow",
            FaultKind::StackLimit => "StackLimit",
            FaultKind::BadLanding => "BadLanding",
            FaultKind::BadRelation => "BadRelation",
            FaultKind::FellOff => "FellOff",
        }
    }
}

/// How a run ends.
#[derive(Clone, Copy, Debug, PartialEq, Eq)]
pub enum End {
    /// A `break`.
    Break {
        /// Its number.
        imm: u64,
        /// Its place.
        place: Place,
    },
    /// As many groups as were asked for ran.
    Limit {
        /// The place of the next slot.
        place: Place,
    },
    /// A fault.
    Fault {
        /// Why.
        kind: FaultKind,
        /// The place of the slot.
        place: Place,
    },
}

/// How a group that was executed ends: at its first slot that a stop follows, that takes a branch or
/// that ends the run.
#[derive(Clone, Copy, Debug, PartialEq, Eq)]
pub enum How {
    /// A stop follows the last slot, which falls through.
    Falls,
    /// The last slot takes a branch.
    Taken,
    /// The last slot ends the run.
    Ends,
}

/// A group that was executed.
#[derive(Clone, Copy, Debug, PartialEq, Eq)]
pub struct GroupEvent {
    /// Its number in the run, from 1.
    pub number: u64,
    /// The place of its first slot.
    pub first: Place,
    /// The place of its last slot.
    pub last: Place,
    /// How many slots were reached, 1 to [`RUN_LIMIT`](crate::limits::RUN_LIMIT); one that ends the
    /// run counts.
    pub slots: u32,
    /// How it ended.
    pub how: How,
}

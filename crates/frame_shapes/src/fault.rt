//! Why frames are refused.

ghost use Rattle.std.specs.Prelude.{◌≡◌};
ghost use Rattle.frame_shapes.specs.Faults.{kind_of};

use ia_program::FaultKind;

/// Why a call of the register stack is refused.
#[derive(Clone, Copy, Debug, PartialEq, Eq)]
pub enum StackFault {
    /// The register is outside the frame.
    OutOfFrame,
    /// The previous function state names no frame.
    BadFrame,
    /// The return reaches below the first frame.
    Underflow,
    /// The stack is full.
    StackLimit,
    /// The rotating part changes its size while a register rename base isn't zero.
    ReservedField,
}

impl StackFault {
    /// The fault of the slot whose call is refused: it has the same name.
    pub fn kind(self) -> FaultKind
        ensures { result ≡ kind_of self }
    {
        match self {
            StackFault::OutOfFrame => FaultKind::OutOfFrame,
            StackFault::BadFrame => FaultKind::BadFrame,
            StackFault::Underflow => FaultKind::Underflow,
            StackFault::StackLimit => FaultKind::StackLimit,
            StackFault::ReservedField => FaultKind::ReservedField,
        }
    }
}

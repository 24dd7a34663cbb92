//! The layout of the previous function state, PFS (volume 1, chapter 3, previous function state).

ghost use Rattle.std.specs.Prelude.{◌≡◌, ◌/◌, ◌%◌, ◌^◌, ◌<◌};
ghost use Rattle.ia_meaning.specs.State.{HasReservedZeros, IsFrame};
ghost use Rattle.ia_meaning.specs.Frames.{epilog_of, call_state};

use crate::marker::frame_marker;
use ia_meaning::FrameShape;

/// The frame marker of a previous function state, in bits 37:0.
pub fn marker_of(pfs: u64) -> u64
    ensures value { result ≡ pfs % 2 ^ 38 }
    ensures within { result < 2 ^ 38 }
{
    pfs % (1 << 38)
}

/// The epilog count of a previous function state, in bits 57:52: 0 to 63.
pub fn epilog_of(pfs: u64) -> u64
    ensures value { result ≡ epilog_of pfs }
    ensures within { result < 64 }
{
    (pfs >> 52) % (1 << 6)
}

/// The previous function state that a call writes: the frame, the epilog count, 0 to 63, and 3 as the privilege
/// level, in bits 63:62. All other bits are 0.
#[tactic(auto, unfolding(ia_meaning::specs::Frames::call_state))]
pub fn call_state(frame: &FrameShape, ec: u64) -> u64
    requires frame { IsFrame frame.now }
    requires epilog { ec < 64 }
    ensures value { result ≡ call_state frame.now ec }
    ensures reserved { HasReservedZeros result }
{
    frame_marker(frame) + (ec << 52) + (3 << 62)
}

//! Making the writes of a group.

ghost use Rattle.std.specs.Prelude.{◌≡◌, ◌≤◌, ◌+◌, [], ◌∷◌, All};
ghost use Rattle.ia_meaning.specs.declared.limits.TheConstants.{STACK_LIMIT};
ghost use Rattle.ia_meaning.specs.Writes.{apply, frame_changes};
ghost use Rattle.ia_meaning.specs.ResidentRange.{range_after, range_of};
ghost use Rattle.group_engine.specs.Kept.{IsMakeable};
ghost use Rattle.group_engine.specs.Groups.{changes_of};

use crate::registers::GroupRegisters;
use frame_shapes::range_after;
use ia_meaning::{FrameCause, FrameShape, Rse, Write};

/// The resident range follows a change to a frame.
fn resize(range: &mut Rse, frame: &FrameShape)
    requires { frame.now.base + frame.now.sof ≤ STACK_LIMIT }
    ensures { range.new ≡ range_after range.old (frame.now.base, frame.now.base + frame.now.sof) }
{
    *range = range_after(*range, frame.base, frame.base + u32::from(frame.sof));
}

/// The resident range follows the frame of an `alloc` in first place, where this is one.
pub(crate) fn resize_ahead(range: &mut Rse, is_ahead: bool, frame: &FrameShape)
    requires { frame.now.base + frame.now.sof ≤ STACK_LIMIT }
    ensures { range.new ≡ range_of range.old (changes_of is_ahead frame.now) }
{
    if is_ahead {
        resize(range, frame);
    }
}

/// The resident range follows a write: that of a frame that is resized.
#[inline(always)]
fn resize_by(range: &mut Rse, write: &Write)
    requires { IsMakeable write.now }
    ensures { range.new ≡ range_of range.old (frame_changes (write.now ∷ [])) }
{
    if let Write::SetFrame(FrameCause::Resized, frame) = write {
        resize(range, frame);
    }
}

/// Makes writes, in order. The resident range follows them.
pub(crate) fn make(registers: &mut GroupRegisters, writes: &[Write], range: &mut Rse)
    requires { All IsMakeable writes.now }
    ensures registers { registers.new ≡ apply writes.now registers.old }
    ensures range { range.new ≡ range_of range.old (frame_changes writes.now) }
{
    for write in writes {
        registers.put(write);
        resize_by(range, write);
    }
}

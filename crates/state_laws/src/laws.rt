//! The law of states. It does nothing.

ghost use Rattle.state_laws.specs.Kept.{KeepsState};

/// A step from a state of a program leaves a state of it: registers of their widths, r0 at 0 and p0 at 1,
/// a frame within its bounds, data and ALAT of the program, and a place of it (volume 1, chapter 3,
/// instruction sequencing).
pub fn steps_keep_states()
    ensures { KeepsState }
{}

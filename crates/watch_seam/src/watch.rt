//! What a watcher does.

ghost use Rattle.std.specs.Prelude.{◌≡◌, ℕ, ◌++◌, ◌<◌, IfOk, OnOk, OnErr};
ghost use Rattle.ia_program.specs.declared.ending.GroupEvent.{GroupEvent};
ghost use Rattle.watch_seam.specs.Watchers.{HasALineAGroup, Sort, WatchState, after, fresh, keep_of, report_text};

use ia_program::GroupEvent;
use std::alloc::AllocError;

/// Whether a watcher sees the next group too.
#[derive(Clone, Copy, Debug, PartialEq, Eq)]
pub enum Keep {
    /// It does.
    Stay,
    /// It has seen as many groups as it is to see.
    Full,
}

/// StateView the groups that a run executes, one after the other, and reports what it has seen.
pub trait Watch: Drop {
    /// What the watcher has seen.
    ghost state: { Self → WatchState };

    /// StateView a group. The answer is `Full` exactly where the watcher has then seen as many groups as
    /// it is to see. It then sees no more: this is for a watcher that isn't full.
    ///
    /// # Errors
    ///
    /// Want of memory. The watcher is as it was then.
    fn see(&mut self, event: &GroupEvent) -> Result<Keep, AllocError>
        requires { (state self.old).groups < (state self.old).fill }
        ensures seen { OnOk result (state self.new ≡ after (state self.old) event.now) }
        ensures full { IfOk result (λ keep. keep ≡ keep_of (state self.new)) }
        ensures err { OnErr result (state self.new ≡ state self.old) };

    /// Appends the text of the report.
    ///
    /// # Errors
    ///
    /// Want of memory. The bytes are as they were then.
    fn report(&self, out: &mut Vec<u8>) -> Result<(), AllocError>
        ensures ok { OnOk result (out.new.items ≡ out.old.items ++ report_text (state self.now)) }
        ensures err { OnErr result (out.new.items ≡ out.old.items) };
}

/// The law that what a tracer reports has a line for each group. It does nothing.
#[tactic(auto, using(crate::proofs::Lines::at_first, crate::proofs::Lines::after_one))]
pub fn a_line_a_group()
    ensures at_first { (sort : Sort) (fill : ℕ) → HasALineAGroup (fresh sort fill) }
    ensures after { (w : WatchState) (e : GroupEvent) → HasALineAGroup w → HasALineAGroup (after w e) }
{}

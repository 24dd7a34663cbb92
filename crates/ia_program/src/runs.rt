//! The runs of slots that bundles make.

ghost use Rattle.std.specs.Prelude.{◌≤◌, IsTrue, ◌↔◌, length, MatchOption};
ghost use Rattle.ia_program.specs.declared.limits.TheConstants.{BUNDLE_LIMIT};
ghost use Rattle.ia_program.specs.Places.{EachPlace, IsFirstBad};
ghost use Rattle.ia_program.specs.Runs.{IsLeaving, EndsRun, IsWithinRun};

use crate::bundle::BundleOf;
use crate::limits::RUN_LIMIT;
use crate::place::Place;
use crate::places::{insn_at, is_stopped, next};
use ia_insn::{BranchKind, Op};

/// Whether it is a branch that is taken wherever its qualifying predicate is 1, or a `break`.
fn is_leaving(op: &Op) -> bool
    ensures { IsTrue result ↔ IsLeaving op.now }
{
    match op {
        Op::Br { kind, .. } => *kind == BranchKind::Cond,
        Op::BrCall { .. }
        | Op::BrInd { .. }
        | Op::BrRet { .. }
        | Op::BrCallInd { .. }
        | Op::Break { .. } => true,
        _ => false,
    }
}

/// Whether a run of slots ends at a place.
fn ends_run(bundles: &[BundleOf], place: Place) -> bool
    ensures { IsTrue result ↔ EndsRun bundles.now place }
{
    if is_stopped(bundles, place) {
        return true;
    }
    match insn_at(bundles, place) {
        Some(insn) => insn.qp.is_zero() && is_leaving(&insn.op),
        None => false,
    }
}

/// The first slot that follows [`RUN_LIMIT`] of its run. None exactly where there is none.
pub fn long_run(bundles: &[BundleOf]) -> Option<Place>
    requires some { 1 ≤ length bundles.now }
    requires most { length bundles.now ≤ BUNDLE_LIMIT }
    ensures { MatchOption result (EachPlace bundles.now (IsWithinRun bundles.now)) (λ place. IsFirstBad bundles.now (IsWithinRun bundles.now) place) }
{
    let mut run = 0;
    let mut reached = Some(Place::FIRST);
    while let Some(place) = reached {
        if run == RUN_LIMIT {
            return Some(place);
        }
        run = if ends_run(bundles, place) { 0 } else { run + 1 };
        reached = next(bundles, place);
    }
    None
}

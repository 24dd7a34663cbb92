//! The targets of direct branches and checks.

ghost use Rattle.std.specs.Prelude.{◌≡◌, ◌≤◌, IsTrue, ◌↔◌, length, slice_get, IfSome, MatchOption};
ghost use Rattle.ia_insn.specs.Displacements.{displacement};
ghost use Rattle.ia_program.specs.declared.limits.TheConstants.{BUNDLE_LIMIT};
ghost use Rattle.ia_program.specs.Bundles.{IsBundle, AreBundles};
ghost use Rattle.ia_program.specs.Places.{EachPlace, IsFirstBad};
ghost use Rattle.ia_program.specs.Targets.{IsBundleAt, IsTargetInside};

use crate::bundle::BundleOf;
use crate::place::Place;
use crate::places::{insn_at, next};

/// Whether the bundle that is `disp` bundles from the n-th is one of `count`.
fn is_bundle_at(count: u32, n: u32, disp: i32) -> bool
    ensures { IsTrue result ↔ IsBundleAt count n disp }
{
    let target = i64::from(n) + i64::from(disp);
    0 <= target && target < i64::from(count)
}

/// Whether the target of a place, if it has one, is one of the bundles.
fn is_target_inside(bundles: &[BundleOf], place: Place) -> bool
    requires { length bundles.now ≤ BUNDLE_LIMIT }
    ensures inside { IsTrue result ↔ IsTargetInside bundles.now place }
    ensures fit { IfSome (slice_get bundles.now place.bundle) IsBundle }
{
    match insn_at(bundles, place) {
        Some(insn) => match insn.op.displacement() {
            Some(disp) => is_bundle_at(bundles.len() as u32, place.bundle, disp),
            None => true,
        },
        None => true,
    }
}

/// The first place with a target that is none of the bundles. The pass meets each bundle, and so
/// tells that its instructions fit.
#[tactic(auto, using(crate::proofs::Reaching::first_outside, crate::proofs::Reaching::all_sound))]
pub(crate) fn outside_target(bundles: &[BundleOf]) -> Option<Place>
    requires some { 1 ≤ length bundles.now }
    requires most { length bundles.now ≤ BUNDLE_LIMIT }
    ensures { MatchOption result (EachPlace bundles.now (IsTargetInside bundles.now) × AreBundles bundles.now) (λ place. IsFirstBad bundles.now (IsTargetInside bundles.now) place) }
{
    let mut reached = Some(Place::FIRST);
    while let Some(place) = reached {
        if !is_target_inside(bundles, place) {
            return Some(place);
        }
        reached = next(bundles, place);
    }
    None
}

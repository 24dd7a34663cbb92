//! The places of bundles, in order.

ghost use Rattle.std.specs.Prelude.{◌≡◌, ◌≤◌, IsTrue, ◌↔◌, length, slice_get, IfSome, MatchOption};
ghost use Rattle.std.specs.Option.{option_copied};
ghost use Rattle.ia_program.specs.declared.limits.TheConstants.{BUNDLE_LIMIT};
ghost use Rattle.ia_program.specs.declared.place.Place.{Place};
ghost use Rattle.ia_program.specs.Bundles.{IsBundle};
ghost use Rattle.ia_program.specs.Places.{insn_at, IsPlaceOf, IsBefore, IsNext, IsStopped};

use crate::bundle::BundleOf;
use crate::place::Place;
use ia_insn::Insn;

/// The bundle with this number, where there is one.
pub(crate) fn bundle_at(bundles: &[BundleOf], n: u32) -> Option<&BundleOf>
    ensures { option_copied result ≡ slice_get bundles.now n }
{
    bundles.get(n as usize)
}

/// The instruction at a place. None exactly where there is no such place.
#[tactic(auto, unfolding(crate::specs::Places::insn_at))]
pub(crate) fn insn_at(bundles: &[BundleOf], place: Place) -> Option<&Insn>
    ensures value { option_copied result ≡ insn_at bundles.now place }
    ensures fit { IfSome (slice_get bundles.now place.bundle) IsBundle }
{
    let bundle = bundle_at(bundles, place.bundle)?;
    bundle.slots().insn(place.slot)
}

/// Whether a stop follows the place. It doesn't where there is no such place.
pub(crate) fn is_stopped(bundles: &[BundleOf], place: Place) -> bool
    ensures { IsTrue result ↔ IsStopped bundles.now place }
{
    match bundle_at(bundles, place.bundle) {
        Some(bundle) => bundle.stop_after(place.slot),
        None => false,
    }
}

/// The first place after this one.
pub(crate) fn next(bundles: &[BundleOf], place: Place) -> Option<Place>
    requires { length bundles.now ≤ BUNDLE_LIMIT }
    ensures { MatchOption result ((q : Place) → IsPlaceOf bundles.now q → IsBefore place q → ⊥) (λ next. IsNext bundles.now place next) }
{
    let Some(bundle) = bundle_at(bundles, place.bundle) else {
        return None;
    };
    if place.slot < bundle.slots().last() {
        return Some(Place {
            bundle: place.bundle,
            slot: place.slot + 1,
        });
    }
    if place.bundle as usize + 1 < bundles.len() {
        return Some(Place {
            bundle: place.bundle + 1,
            slot: 0,
        });
    }
    None
}

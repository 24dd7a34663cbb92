//! Frames: `alloc`, calls and returns (volume 1, chapter 4, register stack, and volume 3, chapter 2, `alloc`
//! and `br`).

ghost use Rattle.std.specs.Prelude.{◌≡◌, ◌<◌, ◌≤◌, ◌*◌, get_or, take, ◌^◌};
ghost use Rattle.ia_meaning.specs.Names.{spot};
ghost use Rattle.ia_meaning.specs.Frames.{with_sizes, allocated, lands, returned, call_writes};
ghost use Rattle.ia_meaning.specs.Landings.{arrival};
ghost use Rattle.ia_meaning.specs.Effects.{site, called};
ghost use Rattle.slot_effects.specs.Changes.{writes_of, MayMake};
ghost use Rattle.slot_effects.specs.Outcomes.{outcome_of_effect, IsPlain};

use crate::change::Change;
use crate::landings::arrival;
use crate::slot_effect::SlotEffect;
use crate::state_view::StateView;
use ia_insn::{Br, Gr};
use ia_meaning::{CallTarget, target_of};
use ia_program::{FaultKind, Program, bundle_address};

/// `alloc`. Its target is named in the new frame.
#[tactic(auto, using(crate::proofs::NewFrames::outside_new, crate::proofs::NewFrames::inside_new, crate::proofs::NewFrames::allocated_fits, crate::proofs::NewFrames::allocated_fails))]
pub(crate) fn allocate<S: StateView>(seen: &S, r1: Gr, sof: u8, sol: u8, sor: u8) -> SlotEffect
    requires size { sof ≤ 96 }
    requires locals { sol ≤ sof }
    requires rotating { 8 * sor ≤ sof }
    ensures value { outcome_of_effect (S.registers seen.now) (S.memory seen.now) result ≡ allocated (S.registers seen.now).frame (with_sizes (S.registers seen.now).frame sof sol sor) (spot (with_sizes (S.registers seen.now).frame sof sol sor) r1) (S.registers seen.now).pfs (S.memory seen.now) }
    ensures may { MayMake (S.registers seen.now) (S.memory seen.now) result.change }
{
    if r1.number() >= 32 + sof {
        return SlotEffect::faults(FaultKind::OutOfFrame);
    }
    match seen.alloc_fault(sof, sol, sor) {
        Some(kind) => SlotEffect::faults(kind),
        None => SlotEffect::falls(Change::Allocated { r1, sof, sol, sor }),
    }
}

/// An indirect branch that makes a change of registers.
#[inline(always)]
pub(crate) fn land<S: StateView>(seen: &S, program: &Program, b2: Br, change: Change) -> SlotEffect
    requires plain { IsPlain change }
    requires may { MayMake (S.registers seen.now) (S.memory seen.now) change }
    ensures value { outcome_of_effect (S.registers seen.now) (S.memory seen.now) result ≡ lands (writes_of (S.registers seen.now) change) (S.memory seen.now) (arrival program.now (take 16 (S.registers seen.now).predicates) (get_or (S.registers seen.now).branches b2 0)) }
    ensures may { MayMake (S.registers seen.now) (S.memory seen.now) result.change }
{
    match arrival(program, seen.static_predicates(), seen.branch(b2)) {
        Ok(bundle) => SlotEffect::goes(change, bundle),
        Err(kind) => SlotEffect::faults(kind),
    }
}

/// A call.
pub(crate) fn call<S: StateView>(
    seen: &S,
    program: &Program,
    bundle: u32,
    b1: Br,
    callee: CallTarget,
) -> SlotEffect
    requires { bundle < 2 ^ 31 }
    ensures value { outcome_of_effect (S.registers seen.now) (S.memory seen.now) result ≡ called callee (site program.now bundle) (call_writes bundle b1 (S.registers seen.now).frame (S.registers seen.now).ec) (S.registers seen.now) (S.memory seen.now) }
    ensures may { MayMake (S.registers seen.now) (S.memory seen.now) result.change }
{
    let change = Change::Called {
        b1,
        address: bundle_address(bundle + 1),
    };
    match callee {
        CallTarget::Direct(disp) => SlotEffect::goes(change, target_of(bundle, disp)),
        CallTarget::Indirect(b2) => land(seen, program, b2, change),
    }
}

/// A return. The frame is looked at before the landing.
pub(crate) fn ret<S: StateView>(seen: &S, program: &Program, b2: Br) -> SlotEffect
    ensures value { outcome_of_effect (S.registers seen.now) (S.memory seen.now) result ≡ returned (S.registers seen.now).frame.base (S.registers seen.now).pfs (arrival program.now (take 16 (S.registers seen.now).predicates) (get_or (S.registers seen.now).branches b2 0)) (S.memory seen.now) }
    ensures may { MayMake (S.registers seen.now) (S.memory seen.now) result.change }
{
    match seen.return_fault() {
        Some(kind) => SlotEffect::faults(kind),
        None => land(seen, program, b2, Change::Returned),
    }
}

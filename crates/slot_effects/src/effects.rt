//! What a slot does, by the action of its instruction. Nothing is written here.

ghost use Rattle.std.specs.Prelude.{◌≡◌, ◌<◌, ◌^◌};
ghost use Rattle.ia_meaning.specs.ActionRanges.{HasActionRanges};
ghost use Rattle.ia_meaning.specs.Effects.{site, act, skip, guarded};
ghost use Rattle.slot_effects.specs.Changes.{MayMake};
ghost use Rattle.slot_effects.specs.Outcomes.{outcome_of_effect};

use crate::change::Change;
use crate::frames::{allocate, call, land, ret};
use crate::loads::{check_alat, check_nat, exchange, invalidate, load, store};
use crate::loops::turn;
use crate::moves::{compute, fetch, skip_test, test, to_application, to_branch, to_predicates};
use crate::slot_effect::SlotEffect;
use crate::state_view::StateView;
use ia_insn::Pr;
use ia_meaning::{Action, target_of};
use ia_program::Program;

/// What an instruction does that is executed.
#[inline(always)]
fn act<S: StateView>(seen: &S, program: &Program, bundle: u32, action: &Action) -> SlotEffect
    requires place { bundle < 2 ^ 31 }
    requires ranges { HasActionRanges action.now }
    ensures value { outcome_of_effect (S.registers seen.now) (S.memory seen.now) result ≡ act (site program.now bundle) action.now (S.registers seen.now) (S.memory seen.now) (S.unat seen.now) }
    ensures may { MayMake (S.registers seen.now) (S.memory seen.now) result.change }
{
    match *action {
        Action::Compute {
            r1,
            r2,
            r3,
            function,
        } => compute(seen, r1, r2, r3, &function),
        Action::Fetch { r1, source } => fetch(seen, bundle, r1, source),
        Action::Test {
            kind,
            p1,
            p2,
            r2,
            r3,
            condition,
        } => test(seen, kind, (p1, p2), (r2, r3), &condition),
        Action::ToPredicates { r2, mask, word } => to_predicates(seen, r2, mask, &word),
        Action::ToBranch { b1, r2 } => to_branch(seen, b1, r2),
        Action::ToApplication { ar, r2, word } => to_application(seen, ar, r2, &word),
        Action::FromMemory {
            size,
            kind,
            r1,
            r3,
            update,
        } => load(seen, size, kind, r1, r3, update),
        Action::ToMemory {
            size,
            kind,
            r3,
            r2,
            update,
        } => store(seen, size, kind, r3, r2, update),
        Action::Exchange {
            size,
            r1,
            r3,
            r2,
            inc,
        } => exchange(seen, size, r1, r3, r2, inc),
        Action::CheckNat { r2, disp } => check_nat(seen, bundle, r2, disp),
        Action::CheckAlat { clear, r1, disp } => check_alat(seen, bundle, clear, r1, disp),
        Action::InvalidateAll => SlotEffect::falls(Change::AllInvalidated),
        Action::Invalidate { r1 } => invalidate(seen, r1),
        Action::Allocate { r1, sof, sol, sor } => allocate(seen, r1, sof, sol, sor),
        Action::Jump { disp } => SlotEffect::goes(Change::Nothing, target_of(bundle, disp)),
        Action::JumpIndirect { b2 } => land(seen, program, b2, Change::Nothing),
        Action::Loop { kind, disp } => turn(seen, kind, true, target_of(bundle, disp)),
        Action::Call { b1, callee } => call(seen, program, bundle, b1, callee),
        Action::Return { b2 } => ret(seen, program, b2),
        Action::ClearBases { pred_only } => SlotEffect::falls(Change::Cleared { pred_only }),
        Action::Stop { imm, .. } => SlotEffect::breaks(imm),
        Action::Idle { .. } => SlotEffect::falls(Change::Nothing),
    }
}

/// What an instruction does whose qualifying predicate is 0: nothing but for `unc` tests and loop branches.
#[inline(always)]
fn skip<S: StateView>(seen: &S, program: &Program, bundle: u32, action: &Action) -> SlotEffect
    requires { bundle < 2 ^ 31 }
    ensures value { outcome_of_effect (S.registers seen.now) (S.memory seen.now) result ≡ skip (site program.now bundle) action.now (S.registers seen.now) (S.memory seen.now) }
    ensures may { MayMake (S.registers seen.now) (S.memory seen.now) result.change }
{
    match *action {
        Action::Test { kind, p1, p2, .. } => skip_test(kind, p1, p2),
        Action::Loop { kind, disp } => turn(seen, kind, false, target_of(bundle, disp)),
        _ => SlotEffect::falls(Change::Nothing),
    }
}

/// What an instruction of this action does under a qualifying predicate (volume 3, chapter 2).
#[inline(always)]
pub fn effect<S: StateView>(
    seen: &S,
    program: &Program,
    bundle: u32,
    qp: Pr,
    action: &Action,
) -> SlotEffect
    requires place { bundle < 2 ^ 31 }
    requires ranges { HasActionRanges action.now }
    ensures value { outcome_of_effect (S.registers seen.now) (S.memory seen.now) result ≡ guarded (site program.now bundle) qp action.now (S.registers seen.now) (S.memory seen.now) (S.unat seen.now) }
    ensures may { MayMake (S.registers seen.now) (S.memory seen.now) result.change }
{
    if seen.holds(qp) {
        act(seen, program, bundle, action)
    } else {
        skip(seen, program, bundle, action)
    }
}

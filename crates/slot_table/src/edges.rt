//! Where control goes on from a slot.

ghost use Rattle.std.specs.Prelude.{◌≡◌, ◌^◌, ◌<◌, ◌==◌, ◌&&◌, not, Some};
ghost use Rattle.ia_meaning.specs.Sequence.{next_of, is_stopped};
ghost use Rattle.predicate_rel.specs.Edges.{leaves, displacement_of, target_at};

use ia_insn::Pr;
use ia_meaning::{Action, CallTarget, target_of};
use ia_program::{Place, Program};

/// Whether it is a `br.cond`, `br.call` or `br.ret`, direct or indirect, or a `break`: where the
/// qualifying predicate is 1, control doesn't fall through.
fn leaves(action: &Action) -> bool
    ensures { result ≡ leaves action.now }
{
    matches!(
        action,
        Action::Jump { .. }
            | Action::JumpIndirect { .. }
            | Action::Call { .. }
            | Action::Return { .. }
            | Action::Stop { .. }
    )
}

/// Whether control may fall through an instruction with this qualifying predicate and action: not from a branch
/// or `break` under p0, but for loop branches (volume 1, chapter 3, instruction sequencing).
pub fn may_fall(qp: Pr, action: &Action) -> bool
    ensures { result ≡ not ((qp == 0) && leaves action.now) }
{
    !(qp.is_zero() && leaves(action))
}

/// How many bundles from its own the target of a direct branch or check is. None exactly for other
/// instructions.
fn displacement(action: &Action) -> Option<i32>
    ensures { result ≡ displacement_of action.now }
{
    match *action {
        Action::CheckNat { disp, .. }
        | Action::CheckAlat { disp, .. }
        | Action::Jump { disp }
        | Action::Loop { disp, .. } => Some(disp),
        Action::Call {
            callee: CallTarget::Direct(disp),
            ..
        } => Some(disp),
        _ => None,
    }
}

/// Slot 0 of the target of an instruction of this action. None exactly where it has no target.
pub(crate) fn target(bundle: u32, action: &Action) -> Option<Place>
    requires { bundle < 2 ^ 31 }
    ensures { result ≡ target_at bundle (displacement_of action.now) }
{
    let disp = displacement(action)?;
    Some(Place {
        bundle: target_of(bundle, disp),
        slot: 0,
    })
}

/// The next place.
#[tactic(auto, using(ia_meaning::proofs::Sequences::next_same))]
pub(crate) fn next(program: &Program, place: Place) -> Option<Place>
    ensures { result ≡ next_of program.now.bundles place }
{
    program.next(place)
}

/// Whether a stop follows the place.
pub(crate) fn is_stopped(program: &Program, place: Place) -> bool
    ensures { result ≡ is_stopped program.now.bundles place }
{
    program.stop_after(place)
}

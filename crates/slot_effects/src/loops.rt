//! Loop branches and their turns (volume 1, chapter 4, modulo-scheduled loop support, and volume 3, chapter 2,
//! `br`).

ghost use Rattle.std.specs.Prelude.{◌≡◌, ◌<◌, IfSome};
ghost use Rattle.ia_meaning.specs.Loops.{counted_turn, while_turn, simple_turn, turn_of, turned};
ghost use Rattle.slot_effects.specs.Changes.{MayMake};
ghost use Rattle.slot_effects.specs.Outcomes.{outcome_of_effect};

use crate::change::Change;
use crate::slot_effect::SlotEffect;
use crate::state_view::StateView;
use ia_insn::{Ar, BranchKind};
use ia_meaning::Turn;

/// Nothing is written, and the slot falls through.
const NO_TURN: Turn = Turn {
    lc: None,
    ec: None,
    p63: None,
    rotates: false,
    taken: false,
};

/// A counted loop by its loop count and its epilog count: the branch at the top of a loop is taken while it
/// goes on, and that at an exit where it ends.
fn counted_turn(top: bool, lc: u64, ec: u64) -> Turn
    ensures value { result ≡ counted_turn top lc ec }
    ensures epilog { ec < 64 → IfSome result.ec (λ e. e < 64) }
{
    if lc > 0 {
        return Turn {
            lc: Some(lc - 1),
            ec: None,
            p63: Some(true),
            rotates: true,
            taken: top,
        };
    }
    Turn {
        lc: None,
        ec: if ec > 0 { Some(ec - 1) } else { None },
        p63: Some(false),
        rotates: ec > 0,
        taken: if ec > 1 { top } else { !top },
    }
}

/// A while loop by its qualifying predicate: where that is 0 it is a counted loop at the loop count 0.
fn while_turn(top: bool, qp: bool, ec: u64) -> Turn
    ensures value { result ≡ while_turn top qp ec }
    ensures epilog { ec < 64 → IfSome result.ec (λ e. e < 64) }
{
    if !qp {
        return counted_turn(top, 0, ec);
    }
    Turn {
        lc: None,
        ec: None,
        p63: Some(false),
        rotates: true,
        taken: top,
    }
}

/// `cloop` by its loop count.
fn simple_turn(lc: u64) -> Turn
    ensures value { result ≡ simple_turn lc }
    ensures epilog { IfSome result.ec (λ e. e < 64) }
{
    if lc == 0 {
        return NO_TURN;
    }
    Turn {
        lc: Some(lc - 1),
        ec: None,
        p63: None,
        rotates: false,
        taken: true,
    }
}

/// The turn of a loop branch. Under a false predicate the while loops alone make one.
#[inline(always)]
pub fn turn_of(kind: BranchKind, qp: bool, lc: u64, ec: u64) -> Turn
    ensures value { result ≡ turn_of kind qp lc ec }
    ensures epilog { ec < 64 → IfSome result.ec (λ e. e < 64) }
{
    match (kind, qp) {
        (BranchKind::Wexit, qp) => while_turn(false, qp, ec),
        (BranchKind::Wtop, qp) => while_turn(true, qp, ec),
        (BranchKind::Cloop, true) => simple_turn(lc),
        (BranchKind::Cexit, true) => counted_turn(false, lc, ec),
        (BranchKind::Ctop, true) => counted_turn(true, lc, ec),
        _ => NO_TURN,
    }
}

/// A loop branch to a bundle.
#[inline(always)]
pub fn turn<S: StateView>(seen: &S, kind: BranchKind, qp: bool, bundle: u32) -> SlotEffect
    ensures value { outcome_of_effect (S.registers seen.now) (S.memory seen.now) result ≡ turned (turn_of kind qp (S.registers seen.now).lc (S.registers seen.now).ec) (S.registers seen.now).frame bundle (S.memory seen.now) }
    ensures may { MayMake (S.registers seen.now) (S.memory seen.now) result.change }
{
    let change = Change::Turned { kind, qp };
    let turn = turn_of(kind, qp, seen.application(Ar::Lc), seen.application(Ar::Ec));
    if turn.taken {
        SlotEffect::goes(change, bundle)
    } else {
        SlotEffect::falls(change)
    }
}

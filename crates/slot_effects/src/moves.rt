//! Computations, tests and moves (volume 3, chapter 2: the A and I instructions and the moves).

ghost use Rattle.std.specs.Prelude.{◌≡◌, ◌<◌, ◌^◌};
ghost use Rattle.ia_meaning.specs.State.{Registers, Memory};
ghost use Rattle.ia_meaning.specs.Names.{spot, look, predicate_spot};
ghost use Rattle.ia_meaning.specs.Actions.{value_of, result_of, moved};
ghost use Rattle.ia_meaning.specs.ActionRanges.{IsFunction, IsCondition};
ghost use Rattle.ia_meaning.specs.Moves.{has_reserved_zeros, computed, fetched, source_value, test_made, test_writes, test_skipped, to_predicates, to_branch, application_written, to_application};
ghost use Rattle.slot_effects.specs.Changes.{writes_of, MayMake};
ghost use Rattle.slot_effects.specs.Outcomes.{outcome_of_effect, IsPlain};

use crate::change::Change;
use crate::operands::operands;
use crate::slot_effect::SlotEffect;
use crate::state_view::StateView;
use ia_insn::{AluFn, Ar, Br, CmpKind, Gr, Pr};
use ia_meaning::{Cell, Condition, FetchSource, Function, MovedWord};
use ia_program::{FaultKind, bundle_address};
use integer_ops::{moved, result_of, value_of};

/// The value of a computation. Sums, which most are, take no call.
#[inline(always)]
fn computed_value(function: &Function, a: u64, b: u64) -> u64
    requires { IsFunction function.now }
    ensures { result ≡ value_of function.now a b }
{
    match *function {
        Function::Alu(AluFn::Add) => a.wrapping_add(b),
        Function::AluImmediate { f: AluFn::Add, imm } => imm.cast_unsigned().wrapping_add(b),
        _ => value_of(function, a, b),
    }
}

/// A computation.
#[inline(always)]
#[tactic(auto, using(crate::proofs::Named::computed_missing))]
pub fn compute<S: StateView>(seen: &S, r1: Gr, r2: Gr, r3: Gr, function: &Function) -> SlotEffect
    requires { IsFunction function.now }
    ensures value { outcome_of_effect (S.registers seen.now) (S.memory seen.now) result ≡ computed (value_of function.now) (spot (S.registers seen.now).frame r1) (look (S.registers seen.now) r2) (look (S.registers seen.now) r3) (S.memory seen.now) }
    ensures may { MayMake (S.registers seen.now) (S.memory seen.now) result.change }
{
    let Some(found) = operands(seen, r1, r2, r3) else {
        return SlotEffect::faults(FaultKind::OutOfFrame);
    };
    let cell = Cell {
        value: computed_value(function, found.first.value, found.second.value),
        nat: found.first.nat | found.second.nat,
    };
    SlotEffect::falls(Change::General { r1, cell })
}

/// What is copied in a bundle.
fn source_value<S: StateView>(seen: &S, bundle: u32, source: FetchSource) -> u64
    requires { bundle < 2 ^ 31 }
    ensures { result ≡ source_value bundle (S.registers seen.now) source }
{
    match source {
        FetchSource::Branch(b) => seen.branch(b),
        FetchSource::Application(ar) => seen.application(ar),
        FetchSource::Predicates => seen.predicate_word(),
        FetchSource::Ip => bundle_address(bundle),
    }
}

/// A copy into a general register.
pub(crate) fn fetch<S: StateView>(seen: &S, bundle: u32, r1: Gr, source: FetchSource) -> SlotEffect
    requires { bundle < 2 ^ 31 }
    ensures value { outcome_of_effect (S.registers seen.now) (S.memory seen.now) result ≡ fetched (spot (S.registers seen.now).frame r1) (source_value bundle (S.registers seen.now) source) (S.memory seen.now) }
    ensures may { MayMake (S.registers seen.now) (S.memory seen.now) result.change }
{
    match seen.spot(r1) {
        None => SlotEffect::faults(FaultKind::OutOfFrame),
        Some(_) => SlotEffect::falls(Change::General {
            r1,
            cell: Cell {
                value: source_value(seen, bundle, source),
                nat: false,
            },
        }),
    }
}

/// What a kind of test writes for a result; None where a register that was tested has NaT.
fn test_change(kind: CmpKind, p1: Pr, p2: Pr, is_one: Option<bool>) -> Change
    ensures value { (r : Registers) → writes_of r result ≡ test_writes kind (predicate_spot r.frame p1) (predicate_spot r.frame p2) is_one }
    ensures plain { IsPlain result }
    ensures may { (r : Registers) (m : Memory) → MayMake r m result }
{
    let both = |first, second| Change::Predicates {
        p1,
        first,
        p2,
        second,
    };
    match (kind, is_one) {
        (CmpKind::Normal | CmpKind::Unc, Some(one)) => both(one, !one),
        (CmpKind::Normal | CmpKind::Unc | CmpKind::And, None) => both(false, false),
        (CmpKind::And, Some(false)) => both(false, false),
        (CmpKind::Or, Some(true)) => both(true, true),
        (CmpKind::OrAndcm, Some(true)) => both(true, false),
        _ => Change::Nothing,
    }
}

/// A test.
#[inline(always)]
pub fn test<S: StateView>(
    seen: &S,
    kind: CmpKind,
    targets: (Pr, Pr),
    sources: (Gr, Gr),
    condition: &Condition,
) -> SlotEffect
    requires { IsCondition condition.now }
    ensures value { outcome_of_effect (S.registers seen.now) (S.memory seen.now) result ≡ test_made kind (predicate_spot (S.registers seen.now).frame targets.0) (predicate_spot (S.registers seen.now).frame targets.1) (result_of condition.now) (look (S.registers seen.now) sources.0) (look (S.registers seen.now) sources.1) (S.memory seen.now) }
    ensures may { MayMake (S.registers seen.now) (S.memory seen.now) result.change }
{
    let (Some(a), Some(b)) = (seen.general(sources.0), seen.general(sources.1)) else {
        return SlotEffect::faults(FaultKind::OutOfFrame);
    };
    SlotEffect::falls(test_change(kind, targets.0, targets.1, result_of(condition, a, b)))
}

/// A test whose qualifying predicate is 0: `unc` clears both targets.
pub(crate) fn skip_test(kind: CmpKind, p1: Pr, p2: Pr) -> SlotEffect
    ensures value { (r : Registers) (m : Memory) → outcome_of_effect r m result ≡ test_skipped kind (predicate_spot r.frame p1) (predicate_spot r.frame p2) m }
    ensures may { (r : Registers) (m : Memory) → MayMake r m result.change }
{
    if kind == CmpKind::Unc {
        SlotEffect::falls(test_change(kind, p1, p2, None))
    } else {
        SlotEffect::falls(Change::Nothing)
    }
}

/// A move to the predicates.
pub(crate) fn to_predicates<S: StateView>(
    seen: &S,
    r2: Gr,
    mask: u32,
    word: &MovedWord,
) -> SlotEffect
    ensures value { outcome_of_effect (S.registers seen.now) (S.memory seen.now) result ≡ to_predicates (moved word.now) mask (look (S.registers seen.now) r2) (S.memory seen.now) }
    ensures may { MayMake (S.registers seen.now) (S.memory seen.now) result.change }
{
    match seen.general(r2) {
        None => SlotEffect::faults(FaultKind::OutOfFrame),
        Some(a) if a.nat => SlotEffect::faults(FaultKind::NatConsumed),
        Some(a) => SlotEffect::falls(Change::PredicateWord {
            mask: u64::from(mask),
            word: moved(word, a.value),
        }),
    }
}

/// A move to a branch register.
pub(crate) fn to_branch<S: StateView>(seen: &S, b1: Br, r2: Gr) -> SlotEffect
    ensures value { outcome_of_effect (S.registers seen.now) (S.memory seen.now) result ≡ to_branch b1 (look (S.registers seen.now) r2) (S.memory seen.now) }
    ensures may { MayMake (S.registers seen.now) (S.memory seen.now) result.change }
{
    match seen.general(r2) {
        None => SlotEffect::faults(FaultKind::OutOfFrame),
        Some(a) if a.nat => SlotEffect::faults(FaultKind::NatConsumed),
        Some(a) => SlotEffect::falls(Change::Branch { b1, value: a.value }),
    }
}

/// Whether the reserved bits of a previous function state, 51:38 and 61:58, are zero (volume 1, chapter 3,
/// previous function state).
#[tactic(auto, unfolding(ia_meaning::specs::Moves::has_reserved_zeros))]
fn has_reserved_zeros(pfs: u64) -> bool
    ensures { result ≡ has_reserved_zeros pfs }
{
    (pfs >> 38) % (1 << 14) == 0 && (pfs >> 58) % (1 << 4) == 0
}

/// What a move to an application register does with a word.
#[tactic(auto, using(crate::proofs::ReservedZeros::zeros))]
fn application_written(ar: Ar, value: u64) -> SlotEffect
    ensures value { (r : Registers) (m : Memory) → outcome_of_effect r m result ≡ application_written ar value m }
    ensures may { (r : Registers) (m : Memory) → MayMake r m result.change }
{
    if ar == Ar::Pfs && !has_reserved_zeros(value) {
        return SlotEffect::faults(FaultKind::ReservedField);
    }
    let kept = if ar == Ar::Ec { value % 64 } else { value };
    SlotEffect::falls(Change::Application { ar, value: kept })
}

/// A move to an application register.
pub(crate) fn to_application<S: StateView>(seen: &S, ar: Ar, r2: Gr, word: &MovedWord) -> SlotEffect
    ensures value { outcome_of_effect (S.registers seen.now) (S.memory seen.now) result ≡ to_application ar (moved word.now) (look (S.registers seen.now) r2) (S.memory seen.now) }
    ensures may { MayMake (S.registers seen.now) (S.memory seen.now) result.change }
{
    match seen.general(r2) {
        None => SlotEffect::faults(FaultKind::OutOfFrame),
        Some(a) if a.nat => SlotEffect::faults(FaultKind::NatConsumed),
        Some(a) => application_written(ar, moved(word, a.value)),
    }
}

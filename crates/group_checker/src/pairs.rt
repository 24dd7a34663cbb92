//! What two slots of one group break.

ghost use Rattle.std.specs.Prelude.{◌≡◌, ◌<◌, ◌↔◌, Bool, true, false, IsTrue, length, ◌&&◌, ◌∷◌, [], MatchOption, Contains};
ghost use Rattle.ia_program.specs.declared.place.Place.{Place};
ghost use Rattle.ia_meaning.specs.Actions.{is_alloc};
ghost use Rattle.resource_sets.specs.AccessSets.{IsInSet};
ghost use Rattle.resource_sets.specs.Ranges.{IsNumberInRange};
ghost use Rattle.slot_table.specs.declared.slot.Slot.{Slot};
ghost use Rattle.flow_facts.specs.Graphs.{Graph};
ghost use Rattle.order_laws.specs.declared.violation.Violation.{Violation};
ghost use Rattle.order_laws.specs.Violations.{ViolatesIn};
ghost use Rattle.group_checker.specs.Windows.{HasWindow};
ghost use Rattle.group_checker.specs.Broken.{Gains};
ghost use Rattle.group_checker.specs.Findings.{IsNthPair, IsPairViolated, IsFirstOfPair, AreBroken, may_be_excused, excused_by, Finds, IsSlotRule};

use crate::broken::Broken;
use crate::window::EarlierSlot;
use ia_insn::Pr;
use ia_meaning::Action;
use ia_program::Place;
use order_laws::Violation;
use predicate_rel::has_bit;
use resource_sets::{Access, AccessSet, InsnAccesses, Rule, clash_of, may_clash, may_clash_with};
use slot_table::Slot;

/// Whether it is an `alloc`.
fn is_alloc(action: &Action) -> bool
    ensures { result ≡ is_alloc action.now }
{
    matches!(action, Action::Allocate { .. })
}

/// Whether accesses that break the rule may be excused. A write after a branch's read may not, as the rule
/// says; this changes no answer, since both its accesses have the guard p0, and no walk that goes on knows that p0
/// isn't 1.
fn may_be_excused(rule: Rule) -> bool
    ensures { result ≡ may_be_excused rule }
{
    matches!(rule, Rule::Raw | Rule::Waw)
}

/// Whether each walk through the first slot excuses accesses under these guards, if the rule is one that may
/// be excused.
fn is_excused(first: &EarlierSlot, rule: Rule, a: Pr, b: Pr) -> bool
    ensures { result ≡ (may_be_excused rule && excused_by first.now a b) }
{
    may_be_excused(rule) && first.known.has(a, b) && !has_bit(first.written, a.number())
}

/// Notes the rule that accesses of two sets break, where some walk doesn't excuse them.
fn clash_of_two(first: &EarlierSlot, a: &AccessSet, b: &AccessSet, broken: &mut Broken)
    ensures { Gains broken.old broken.new (Finds first.now (IsInSet a.now) (IsInSet b.now)) }
{
    let Some(rule) = clash_of(a.kind, b.kind) else {
        return;
    };
    if is_excused(first, rule, a.guard, b.guard) {
        return;
    }
    broken.add(rule, &a.resources.intersection(&b.resources));
}

/// Notes the rule that accesses of a set break with one access of the second slot.
fn clash_with(first: &EarlierSlot, a: &AccessSet, b: &Access, broken: &mut Broken)
    requires { IsNumberInRange b.now.resource }
    ensures { Gains broken.old broken.new (Finds first.now (IsInSet a.now) (Contains (b.now ∷ []))) }
{
    if a.resources.has(b.resource) {
        clash_of_two(first, a, &AccessSet::of(b), broken);
    }
}

/// Notes the rules that accesses of a set break with those of the second slot.
fn clashes_with(first: &EarlierSlot, a: &AccessSet, seconds: &InsnAccesses, broken: &mut Broken)
    ensures { Gains broken.old broken.new (Finds first.now (IsInSet a.now) (Contains seconds.now)) }
{
    let parts = seconds.parts();
    let named = parts.named.as_slice();
    for n in 0..named.len() {
        clash_with(first, a, &named[n], broken);
    }
    clash_of_two(first, a, &parts.placed, broken);
}

/// Notes the rules that one access of the first slot breaks with those of the second.
fn clashes_of(first: &EarlierSlot, a: &Access, seconds: &InsnAccesses, broken: &mut Broken)
    requires { IsNumberInRange a.now.resource }
    ensures { Gains broken.old broken.new (Finds first.now (Contains (a.now ∷ [])) (Contains seconds.now)) }
{
    if may_clash_with(a, seconds) {
        clashes_with(first, &AccessSet::of(a), seconds, broken);
    }
}

/// Notes the rules that accesses of two slots break.
fn clashes(first: &EarlierSlot, seconds: &InsnAccesses, broken: &mut Broken)
    ensures { Gains broken.old broken.new (Finds first.now (Contains first.now.masks) (Contains seconds.now)) }
{
    let parts = first.masks.parts();
    let named = parts.named.as_slice();
    for n in 0..named.len() {
        clashes_of(first, &named[n], seconds, broken);
    }
    clashes_with(first, &parts.placed, seconds, broken);
}

/// Notes the rules on a slot and the one just after it: `alloc` comes first in its group, `clrrrb` last.
fn slot_rules(first: &EarlierSlot, slot: &Slot, broken: &mut Broken)
    ensures { Gains broken.old broken.new (IsSlotRule first.now slot.now) }
{
    broken.add_frame_if(is_alloc(&slot.action), Rule::AllocFirst);
    broken.add_frame_if(first.clears, Rule::ClearLast);
}

/// Whether a slot and the one just after it may break a rule on slots.
fn may_break_slot_rule(first: &EarlierSlot, slot: &Slot) -> bool
    ensures { result ≡ false → (v : Violation) → ¬ IsSlotRule first.now slot.now v }
{
    first.clears || is_alloc(&slot.action)
}

/// Whether it is soon seen that no access of the n-th slot of the window clashes with one of the slot under way, and that
/// no rule on slots is broken where this comes just after it: the two break no rule.
pub(crate) fn are_apart(
    window: &[EarlierSlot],
    n: usize,
    slot: &Slot,
    seconds: &InsnAccesses,
) -> bool
    requires inside { n < length window.now }
    ensures { result ≡ true → (g : Graph) (has_stop : Place → Bool) (j : Place) (v : Violation) → HasWindow g has_stop window.now j slot.now seconds.now → IsNthPair window.now n j v → ¬ ViolatesIn g has_stop v }
{
    let first = &window[n];
    if may_clash(&first.masks, seconds) {
        return false;
    }
    n + 1 < window.len() || !may_break_slot_rule(first, slot)
}

/// What the n-th slot of the window and the slot under way break on some walk. `seconds` has the accesses of the slot
/// under way.
pub(crate) fn pair_broken(
    window: &[EarlierSlot],
    n: usize,
    slot: &Slot,
    seconds: &InsnAccesses,
) -> Broken
    requires inside { n < length window.now }
    ensures { (g : Graph) (has_stop : Place → Bool) (second : Place) → HasWindow g has_stop window.now second slot.now seconds.now → AreBroken g has_stop window.now n second result }
{
    let mut broken = Broken::nothing();
    let first = &window[n];
    clashes(first, seconds, &mut broken);
    if n + 1 < window.len() {
        return broken;
    }
    slot_rules(first, slot, &mut broken);
    broken
}

/// Whether the n-th slot of the window and the slot under way break a rule on some walk. `seconds` has the accesses of
/// the slot under way.
pub(crate) fn breaks_rule(
    window: &[EarlierSlot],
    n: usize,
    slot: &Slot,
    seconds: &InsnAccesses,
) -> bool
    requires inside { n < length window.now }
    ensures { (g : Graph) (has_stop : Place → Bool) (j : Place) → HasWindow g has_stop window.now j slot.now seconds.now → IsTrue result ↔ IsPairViolated g has_stop window.now n j }
{
    if are_apart(window, n, slot, seconds) {
        return false;
    }
    !pair_broken(window, n, slot, seconds).is_nothing()
}

/// The first violation of the n-th slot of the window and the slot under way, which stands at the place `second`. None
/// exactly where the two break no rule. `seconds` has the accesses of the slot under way.
pub(crate) fn first_of_pair(
    window: &[EarlierSlot],
    n: usize,
    second: Place,
    slot: &Slot,
    seconds: &InsnAccesses,
) -> Option<Violation>
    requires inside { n < length window.now }
    ensures { (g : Graph) (has_stop : Place → Bool) → HasWindow g has_stop window.now second slot.now seconds.now → MatchOption result (¬ IsPairViolated g has_stop window.now n second) (λ v. IsFirstOfPair g has_stop window.now n second v) }
{
    if are_apart(window, n, slot, seconds) {
        return None;
    }
    pair_broken(window, n, slot, seconds).first(window[n].place, second)
}

//! The step from the slot under way to the next one.

ghost use Rattle.std.specs.Prelude.{◌≡◌, ℕ, Bool, length};
ghost use Rattle.ia_program.specs.declared.place.Place.{Place};
ghost use Rattle.predicate_rel.specs.declared.edge.Edge.TheVariants.{Falls};
ghost use Rattle.predicate_rel.specs.Pairs.{pairs_of};
ghost use Rattle.predicate_rel.specs.Rules.{one, action_rule, pairs_by};
ghost use Rattle.flow_facts.specs.Graphs.{Graph};
ghost use Rattle.order_laws.specs.Violations.{clears};
ghost use Rattle.group_checker.specs.Windows.{Describes, GoesOn, HasAdvanced, IsPassed, goes_on_in_group};

use crate::window::EarlierSlot;
use ia_meaning::Action;
use predicate_rel::{Edge, Facts, keeps_pairs};
use slot_table::Slot;

/// Whether control may fall from a slot to the next one, where there is one, within a group.
pub(crate) fn goes_on_in_group(slot: &Slot) -> bool
    ensures { result ≡ goes_on_in_group slot.now }
{
    slot.falls && !slot.stop
}

/// Whether it is a `clrrrb` or `clrrrb.pr`.
pub(crate) fn clears(action: &Action) -> bool
    ensures { result ≡ clears action.now }
{
    matches!(action, Action::ClearBases { .. })
}

/// What is known before and past a slot.
#[derive(Clone, Copy)]
pub(crate) struct Passed {
    /// Before it.
    pub before: Facts,
    /// Past it.
    pub after: Facts,
}

/// Takes what is known past the slot under way. Where the same was known last, it is known what follows.
fn pass_known(known: &mut Facts, slot: &Slot, passed: &mut Passed)
    requires { IsPassed slot.now passed.old }
    ensures passed { IsPassed slot.now passed.new }
    ensures known { pairs_of known.new ≡ pairs_by (pairs_of known.old) (action_rule slot.now.action Falls slot.now.qp) }
{
    if known.is_same(&passed.before) {
        *known = passed.after;
        return;
    }
    passed.before = *known;
    passed.after = known.after_action(&slot.action, slot.qp, Edge::Falls);
    *known = passed.after;
}

/// Takes one earlier slot past the one under way, which leaves what is known as it is and may write the predicates of the
/// mask.
fn mark(earlier: &mut EarlierSlot, slot: &Slot, mask: u64)
    requires { (x y : ℕ) → action_rule slot.now.action Falls slot.now.qp x y ≡ one x y }
    ensures { (g : Graph) (has_stop : Place → Bool) (j : Place) → Describes g has_stop j slot.now → GoesOn g j mask earlier.old earlier.new }
{
    earlier.written |= mask;
}

/// Takes all earlier slots past such a one.
fn mark_all(window: &mut Vec<EarlierSlot>, slot: &Slot, mask: u64)
    requires { (x y : ℕ) → action_rule slot.now.action Falls slot.now.qp x y ≡ one x y }
    ensures { (g : Graph) (has_stop : Place → Bool) (j : Place) → Describes g has_stop j slot.now → HasAdvanced g j mask window.old.items window.new.items (length window.old.items) }
{
    for m in 0..window.len() {
        mark(&mut window[m], slot, mask);
    }
}

/// Takes one earlier slot past the one under way, which may write the predicates of the mask.
fn pass(earlier: &mut EarlierSlot, slot: &Slot, mask: u64, passed: &mut Passed)
    requires { IsPassed slot.now passed.old }
    ensures passed { IsPassed slot.now passed.new }
    ensures goes_on { (g : Graph) (has_stop : Place → Bool) (j : Place) → Describes g has_stop j slot.now → GoesOn g j mask earlier.old earlier.new }
{
    earlier.written |= mask;
    pass_known(&mut earlier.known, slot, passed);
}

/// Takes all earlier slots past the one under way. `passed` is what is known before and past it on all walks that end there;
/// in most programs nothing else is known on those through an earlier slot.
fn pass_all(window: &mut Vec<EarlierSlot>, slot: &Slot, mask: u64, mut passed: Passed)
    requires { IsPassed slot.now passed }
    ensures { (g : Graph) (has_stop : Place → Bool) (j : Place) → Describes g has_stop j slot.now → HasAdvanced g j mask window.old.items window.new.items (length window.old.items) }
{
    for m in 0..window.len() {
        pass(&mut window[m], slot, mask, &mut passed);
    }
}

/// Takes the earlier slots past the one under way, which may write the predicates of the mask and before which `here` is known
/// on all walks that end there.
pub(crate) fn advance(window: &mut Vec<EarlierSlot>, slot: &Slot, mask: u64, here: &Facts)
    ensures { (g : Graph) (has_stop : Place → Bool) (j : Place) → Describes g has_stop j slot.now → HasAdvanced g j mask window.old.items window.new.items (length window.old.items) }
{
    if keeps_pairs(&slot.action, Edge::Falls) {
        mark_all(window, slot, mask);
    } else {
        change_all(window, slot, mask, here);
    }
}

/// The same of a slot that may change what is known.
#[inline(never)]
fn change_all(window: &mut Vec<EarlierSlot>, slot: &Slot, mask: u64, here: &Facts)
    ensures { (g : Graph) (has_stop : Place → Bool) (j : Place) → Describes g has_stop j slot.now → HasAdvanced g j mask window.old.items window.new.items (length window.old.items) }
{
    let after = here.after_action(&slot.action, slot.qp, Edge::Falls);
    let passed = Passed {
        before: *here,
        after,
    };
    pass_all(window, slot, mask, passed);
}

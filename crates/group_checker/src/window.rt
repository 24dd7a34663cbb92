//! What is known, at the slot under way, of the earlier slots of its group.

ghost use Rattle.std.specs.Prelude.{◌≡◌, ◌↔◌, Bool, List, [], Some, IsTrue, MatchOption, OnOk};
ghost use Rattle.std.specs.Option.{option_copied};
ghost use Rattle.ia_program.specs.declared.place.Place.{Place};
ghost use Rattle.flow_facts.specs.Graphs.{Graph, next_in};
ghost use Rattle.group_checker.specs.Firsts.{IsViolatedAt, IsFirstAt};
ghost use Rattle.group_checker.specs.Windows.{IsWindow, HasWindow, IsKnownAt};

use crate::moves::{advance, clears, goes_on_in_group};
use crate::pairs::{breaks_rule, first_of_pair};
use ia_program::Place;
use order_laws::Violation;
use predicate_rel::Facts;
use resource_sets::InsnAccesses;
use slot_table::Slot;
use std::alloc::{AllocError, Global};
use std::marker::Model;

/// A slot that is earlier in the group of the slot under way.
#[derive(Drop)]
pub(crate) struct EarlierSlot {
    /// Where it stands.
    pub place: Place,
    /// Whether it is a `clrrrb` or `clrrrb.pr`.
    pub clears: bool,
    /// What is known at the slot under way on all walks that pass through this one.
    pub known: Facts,
    /// The predicates that this slot and the later ones of the group, up to the slot under way, may write: bit g
    /// is that of the predicate g.
    pub written: u64,
    /// What it accesses.
    pub masks: InsnAccesses,
}

/// The slots that are earlier in the group of the slot under way on some walk, in order, with what is known of them there (volume
/// 1, chapter 3, instruction dependencies). Contracts see the list of the slots. The slots are those of a program or of a
/// sequence of instructions, with whatever stops the caller goes by: the window knows neither.
#[derive(Drop)]
pub struct Window {
    slots: Vec<EarlierSlot>,
}

impl Model for Window {
    ghost use Rattle.std.specs.Prelude.{List};
    ghost use Rattle.group_checker.specs.declared.window.EarlierSlot.{EarlierSlot};

    ghost Value = { List EarlierSlot };

    ghost view = { λ w. w.slots.items };
}

impl Window {
    /// No slot is earlier: the window of a first place, and of one that a stop comes before
    /// ([`windows_begin_behind_stops`](crate::windows_begin_behind_stops)).
    pub fn new(alloc: Global) -> Window
        ensures { result ≡ [] }
    {
        Window {
            slots: Vec::new(alloc),
        }
    }

    /// Leaves out all slots: none is earlier.
    pub fn clear(&mut self)
        ensures { self.new ≡ [] }
    {
        self.slots.clear();
    }

    /// The slots.
    pub(crate) fn earlier_slots(&self) -> &[EarlierSlot]
        ensures { result.now ≡ self.now }
    {
        &self.slots
    }

    /// Whether a slot of the window and the slot under way break a rule on some walk. `masks` has the accesses of the
    /// slot under way.
    pub fn has_violation(&self, slot: &Slot, masks: &InsnAccesses) -> bool
        ensures { (g : Graph) (has_stop : Place → Bool) (j : Place) → HasWindow g has_stop self.now j slot.now masks.now → IsTrue result ↔ IsViolatedAt g has_stop j }
    {
        for m in 0..self.slots.len() {
            if breaks_rule(&self.slots, m, slot, masks) {
                return true;
            }
        }
        false
    }

    /// The first violation with the slot under way, which stands at the place `second`, in the order of violations.
    /// `masks` has its accesses. None exactly where there is no violation.
    pub fn first_violation(
        &self,
        second: Place,
        slot: &Slot,
        masks: &InsnAccesses,
    ) -> Option<Violation>
        ensures { (g : Graph) (has_stop : Place → Bool) → HasWindow g has_stop self.now second slot.now masks.now → MatchOption result (¬ IsViolatedAt g has_stop second) (λ v. IsFirstAt g has_stop second v) }
    {
        for n in 0..self.slots.len() {
            if let Some(found) = first_of_pair(&self.slots, n, second, slot, masks) {
                return Some(found);
            }
        }
        None
    }

    /// Takes the window from the slot under way, at `place`, to the next place: it has all slots that are then earlier
    /// in the group on some walk. `here` is what is known before the slot on all walks that end there, and None where
    /// none does; `masks` has the slot's accesses. Nothing else of the program or sequence is asked.
    ///
    /// # Errors
    ///
    /// Want of memory. What the window has then is not said.
    pub fn move_on(
        &mut self,
        here: Option<&Facts>,
        place: Place,
        slot: &Slot,
        masks: InsnAccesses,
    ) -> Result<(), AllocError>
        ensures { OnOk result ((g : Graph) (has_stop : Place → Bool) (next : Place) → IsKnownAt g place (option_copied here.entry) → HasWindow g has_stop self.old place slot.now masks → next_in g place ≡ Some next → IsWindow g has_stop self.new next) }
    {
        let Some(here) = here else {
            self.slots.clear();
            return Ok(());
        };
        if !goes_on_in_group(slot) {
            self.slots.clear();
            return Ok(());
        }
        let written = masks.written_predicates();
        self.slots.push(EarlierSlot {
            place,
            clears: clears(&slot.action),
            known: *here,
            written: 0,
            masks,
        })?;
        advance(&mut self.slots, slot, written, here);
        Ok(())
    }
}

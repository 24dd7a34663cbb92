//! Bundles.

ghost use Rattle.std.specs.Prelude.{◌≡◌, ◌↔◌, IsTrue, SomeIff};
ghost use Rattle.std.specs.Option.{SomeIff, option_copied};
ghost use Rattle.ia_program.specs.Templates.{units_of};
ghost use Rattle.ia_program.specs.Bundles.{Bundle, IsBundle, FitUnits, slot_insn, last_slot, IsStopAfter};

use crate::slot_fitness::fits;
use crate::template::Template;
use ia_insn::{Insn, Unit};
use std::marker::Model;

/// The instructions of a bundle: three, or one and a long one, which takes slots 1 and 2 (volume 1,
/// chapter 3, instruction encoding).
#[derive(Clone, Copy)]
pub enum Slots {
    /// An instruction in each slot.
    Three {
        /// Slot 0.
        a: Insn,
        /// Slot 1.
        b: Insn,
        /// Slot 2.
        c: Insn,
    },
    /// A long instruction over L and X.
    Long {
        /// Slot 0.
        first: Insn,
        /// Slots 1 and 2.
        long: Insn,
    },
}

impl Slots {
    /// The instruction of slot 0, 1 or 2. None exactly above the last slot that has one.
    pub fn insn(&self, slot: u8) -> Option<&Insn>
        ensures { option_copied result ≡ slot_insn self.now slot }
    {
        match (self, slot) {
            (Slots::Three { a, .. }, 0) => Some(a),
            (Slots::Three { b, .. }, 1) => Some(b),
            (Slots::Three { c, .. }, 2) => Some(c),
            (Slots::Long { first, .. }, 0) => Some(first),
            (Slots::Long { long, .. }, 1) => Some(long),
            _ => None,
        }
    }

    /// The last slot that has an instruction: 2, or 1 where that is a long one.
    pub fn last(&self) -> u8
        ensures { result ≡ last_slot self.now }
    {
        match self {
            Slots::Three { .. } => 2,
            Slots::Long { .. } => 1,
        }
    }
}

/// A bundle: a template and the instructions that fit it. Contracts see the template's code and the
/// instructions.
#[derive(Clone, Copy)]
pub struct BundleOf {
    template: Template,
    slots: Slots,
}

impl Model for BundleOf {
    ghost Value = { Bundle };

    ghost view = { λ b. record { template = b.template; slots = b.slots } };

    ghost invariant = { λ b. FitUnits (units_of b.template) b.slots };

    ghost inverse = { λ b. record { template = b.template; slots = b.slots } };
}

/// Whether the instructions fit the template.
fn fit_template(template: &Template, slots: &Slots) -> bool
    ensures { IsTrue result ↔ FitUnits (units_of template.now) slots.now }
{
    let [first, second, third] = template.units();
    match slots {
        Slots::Three { a, b, c } => {
            fits(a, first, 0) && fits(b, second, 1) && fits(c, third, 2) && second != Unit::L
        }
        Slots::Long { first: one, long } => {
            fits(one, first, 0) && fits(long, second, 1) && second == Unit::L
        }
    }
}

impl BundleOf {
    /// The bundle of these. None exactly where an instruction doesn't fit its slot, or the template
    /// has no room for a long instruction, or for no other.
    pub fn new(template: Template, slots: Slots) -> Option<Self>
        ensures { SomeIff result (FitUnits (units_of template) slots) (record { template = template; slots = slots }) }
    {
        if fit_template(&template, &slots) {
            Some(Self { template, slots })
        } else {
            None
        }
    }

    /// The bundle of these, where it is known that the instructions fit the template. Nothing is
    /// looked at.
    pub fn of_fitting(template: Template, slots: Slots) -> Self
        requires { FitUnits (units_of template) slots }
        ensures { result ≡ record { template = template; slots = slots } }
    {
        Self { template, slots }
    }

    /// Its template.
    pub fn template(&self) -> Template
        ensures { result ≡ self.now.template }
    {
        self.template
    }

    /// Its instructions, which fit the template.
    pub fn slots(&self) -> &Slots
        ensures value { result.now ≡ self.now.slots }
        ensures fit { IsBundle self.now }
    {
        &self.slots
    }

    /// Whether a stop follows the instruction of a slot; that of a long one follows slot 1. None does
    /// where the slot has no instruction.
    #[tactic(auto, using(crate::proofs::Stops::no_stop_beyond))]
    pub fn stop_after(&self, slot: u8) -> bool
        ensures { IsTrue result ↔ IsStopAfter self.now.template self.now.slots slot }
    {
        match &self.slots {
            Slots::Three { .. } => slot < 3 && self.template.stop_after(slot),
            Slots::Long { .. } => slot == 1 && self.template.stop_after(2),
        }
    }
}

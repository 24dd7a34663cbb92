//! Accepted programs.

ghost use Rattle.std.specs.Prelude.{◌≡◌};
ghost use Rattle.ia_program.specs.Programs.{IsProgram};
ghost use Rattle.ia_meaning.specs.OrderIndependence.{IsOrderIndependent};
ghost use Rattle.order_laws.specs.Violations.{HasNoViolation};

use slot_table::SlotTable;
use std::marker::Model;

/// A program in which no walk breaks a rule of instruction groups, with its slots. Only [`check`](crate::check) makes one, so
/// whoever takes one takes a program that is order independent. Contracts see the program.
#[derive(Drop)]
pub struct Accepted<'p> {
    slots: SlotTable<'p>,
}

impl<'p> Model for Accepted<'p> {
    ghost use Rattle.ia_program.specs.Programs.{Program};
    ghost use Rattle.order_laws.specs.Violations.{HasNoViolation};

    ghost Value = { Program };

    ghost view = { λ a. a.slots };

    ghost invariant = { λ a. HasNoViolation a.slots };
}

impl<'p> Accepted<'p> {
    /// The accepted program of these slots.
    pub(crate) fn of(slots: SlotTable<'p>) -> Accepted<'p>
        requires { HasNoViolation slots }
        ensures { result ≡ slots.entry }
    {
        Accepted { slots }
    }

    /// Its slots.
    pub fn slots(&self) -> &SlotTable<'p>
        ensures { result.now ≡ self.now }
    {
        &self.slots
    }

    /// The law that it is a program without violations, and so order independent: from every start state, for every number of
    /// groups and every order of the writes in each group, groups at once leave what slots one by one leave. It does nothing.
    pub fn is_order_independent(&self)
        ensures program { IsProgram self.now }
        ensures free { HasNoViolation self.now }
        ensures order_independent { IsOrderIndependent self.now }
    {
        self.slots.is_program();
    }
}

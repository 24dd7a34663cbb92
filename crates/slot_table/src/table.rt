//! The table of the slots of a program.

ghost use Rattle.std.specs.Prelude.{◌≡◌, ◌*◌, ◌<◌, ℕ, None, IfOk, length, slice_index_or};
ghost use Rattle.std.specs.Option.{option_copied};
ghost use Rattle.ia_program.specs.declared.place.Place.{Place};
ghost use Rattle.ia_program.specs.Places.{place_at};
ghost use Rattle.ia_program.specs.Programs.{IsProgram};
ghost use Rattle.slot_table.specs.Slots.{slot_at};

use crate::places::{place_at, place_number};
use crate::slot::Slot;
use ia_program::{Place, Program};
use std::alloc::{AllocError, Global};
use std::marker::Model;

/// The slots of a program, by the numbers of their places. Contracts see the program.
#[derive(Drop)]
pub struct SlotTable<'a> {
    program: &'a Program,
    slots: Vec<Option<Slot>>,
}

impl<'a> Model for SlotTable<'a> {
    ghost use Rattle.ia_program.specs.Programs.{Program as Parts};

    ghost Value = { Parts };

    ghost use Rattle.slot_table.specs.Invariant.{IsTable};

    ghost view = { λ table. table.program.now };

    ghost invariant = { IsTable };
}

/// The slots of the places of a program, by the numbers of the places.
///
/// # Errors
///
/// Want of memory.
fn slots_of(alloc: Global, program: &Program) -> Result<Vec<Option<Slot>>, AllocError>
    ensures count { IfOk result (λ slots. length slots.items ≡ 3 * length program.now.bundles) }
    ensures each { IfOk result (λ slots. (n : ℕ) → n < length slots.items → slice_index_or slots.items n None ≡ slot_at program.now.bundles (place_at n)) }
{
    let count = 3 * program.bundle_count();
    (0..count)
        .map(|n| Slot::at(program, place_at(n)))
        .collect(alloc)
}

impl<'a> SlotTable<'a> {
    /// The table of a program. No call after this one takes memory.
    ///
    /// # Errors
    ///
    /// Want of memory.
    pub fn open(alloc: Global, program: &'a Program) -> Result<SlotTable<'a>, AllocError>
        ensures { IfOk result (λ table. table ≡ program.now) }
    {
        program.is_program();
        let slots = slots_of(alloc, program)?;
        Ok(SlotTable { program, slots })
    }

    /// The program.
    pub fn program(&self) -> &'a Program
        ensures { result.now ≡ self.now }
    {
        self.program
    }

    /// The law that it is the table of a program. It does nothing.
    pub fn is_program(&self)
        ensures { IsProgram self.now }
    {
        let _ = &self.program;
    }

    /// The slot at a place. None exactly where there is no such place.
    #[inline(always)]
    pub fn at(&self, place: Place) -> Option<&Slot>
        ensures { option_copied result ≡ slot_at self.now.bundles place }
    {
        if place.slot > 2 {
            return None;
        }
        self.at_number(place_number(place))
    }

    /// The slot at the place with this number. None exactly where there is no such place.
    #[inline(always)]
    pub fn at_number(&self, number: usize) -> Option<&Slot>
        ensures { option_copied result ≡ slot_at self.now.bundles (place_at number) }
    {
        self.slots.get(number)?.as_ref()
    }
}

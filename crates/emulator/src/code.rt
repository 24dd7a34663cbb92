//! The slots of a program as a run looks at them.

ghost use Rattle.std.specs.Prelude.{◌≡◌, ◌*◌, ◌<◌, ℕ, IfOk, IfSome, length, slice_index_or};
ghost use Rattle.ia_program.specs.Places.{place_number, place_at, IsPlaceOf};
ghost use Rattle.ia_program.specs.Programs.{IsProgram};
ghost use Rattle.slot_table.specs.Slots.{slot_at};
ghost use Rattle.emulator.specs.declared.code.TheConstants.{NO_PLACE};
ghost use Rattle.emulator.specs.Codes.{number_of, no_slot, IsCodeSlot};

use crate::work::Work;
use ia_insn::{Pr, Unit};
use ia_meaning::Action;
use ia_program::{Place, Program};
use slot_table::{SlotTable, place_number};
use std::alloc::{AllocError, Global};
use std::marker::Model;

/// In place of a number: there is no place. All numbers of places are below it.
pub(crate) const NO_PLACE: u32 = u32::MAX;

/// A slot as a run looks at it.
#[derive(Clone, Copy)]
pub(crate) struct CodeSlot {
    /// What it does.
    pub work: Work,
    /// The number of the next place, or [`NO_PLACE`].
    pub next: u32,
    /// Its qualifying predicate.
    pub qp: Pr,
    /// Whether a stop follows.
    pub stop: bool,
}

/// What stands for a place that there isn't.
fn no_slot() -> CodeSlot
    ensures { result ≡ no_slot }
{
    CodeSlot {
        work: Work::Act(Action::Idle { unit: Unit::M }),
        next: NO_PLACE,
        qp: Pr::of_field(0),
        stop: false,
    }
}

/// The slots of a program by the numbers of their places. Contracts see the program.
#[derive(Drop)]
pub(crate) struct Code<'a> {
    slots: &'a SlotTable<'a>,
    list: Vec<CodeSlot>,
}

impl<'a> Model for Code<'a> {
    ghost use Rattle.ia_program.specs.Programs.{Program as Parts};

    ghost Value = { Parts };

    ghost use Rattle.emulator.specs.Codes.{IsCode};

    ghost view = { λ code. code.slots.now };

    ghost invariant = { IsCode };
}

/// The number of a place, where there is one.
fn number_of(place: Option<Place>) -> u32
    requires { IfSome place (λ place. place_number place < NO_PLACE) }
    ensures { result ≡ number_of place }
{
    match place {
        Some(place) => place_number(place) as u32,
        None => NO_PLACE,
    }
}

/// The slot at the place with this number.
fn code_slot(slots: &SlotTable, number: u32) -> CodeSlot
    ensures { IsCodeSlot slots.now.bundles number result }
{
    slots.is_program();
    let Some(slot) = slots.at_number(number as usize) else {
        return no_slot();
    };
    CodeSlot {
        work: Work::of(number / 3, &slot.action),
        next: number_of(slot.next),
        qp: slot.qp,
        stop: slot.stop,
    }
}

/// The slots at the places of a program, by the numbers of the places.
///
/// # Errors
///
/// Want of memory.
fn code_slots(alloc: Global, slots: &SlotTable) -> Result<Vec<CodeSlot>, AllocError>
    ensures count { IfOk result (λ list. length list.items ≡ 3 * length slots.now.bundles) }
    ensures each { IfOk result (λ list. (n : ℕ) → n < length list.items → IsCodeSlot slots.now.bundles n (slice_index_or list.items n no_slot)) }
{
    let count = 3 * slots.program().bundle_count();
    (0..count).map(|n| code_slot(slots, n)).collect(alloc)
}

impl<'a> Code<'a> {
    /// The code of the slots of a program.
    ///
    /// # Errors
    ///
    /// Want of memory.
    pub fn open(alloc: Global, slots: &'a SlotTable<'a>) -> Result<Code<'a>, AllocError>
        ensures { IfOk result (λ code. code ≡ slots.now) }
    {
        slots.is_program();
        let list = code_slots(alloc, slots)?;
        Ok(Code { slots, list })
    }

    /// The program.
    pub fn program(&self) -> &'a Program
        ensures { result.now ≡ self.now }
    {
        self.slots.program()
    }

    /// The slot at the place with this number.
    #[inline(always)]
    pub fn at(&self, number: usize) -> &CodeSlot
        requires { IsPlaceOf self.now.bundles (place_at number) }
        ensures { IsCodeSlot self.now.bundles number result.now }
    {
        &self.list[number]
    }
}

//! The packing of a text, with the stops that pairs of instructions want.

ghost use Rattle.std.specs.Prelude.{◌≡◌, ◌^◌, ◌<◌, ◌⊎◌, [], false, Bool, Some, if◌then◌else◌, IfOk, IfErr, length, slice_index_or};
ghost use Rattle.std.specs.Bool.{Decides};
ghost use Rattle.std.specs.Option.{option_copied};
ghost use Rattle.ia_program.specs.declared.limits.TheConstants.{BUNDLE_LIMIT};
ghost use Rattle.ia_program.specs.declared.place.Place.{Place};
ghost use Rattle.ia_meaning.specs.Sequence.{first_of};
ghost use Rattle.flow_facts.specs.Graphs.{Graph, insn_in};
ghost use Rattle.flow_facts.specs.Walks.{known_at};
ghost use Rattle.group_checker.specs.Firsts.{IsViolatedAt};
ghost use Rattle.group_checker.specs.Windows.{Describes, HasWindow};
ghost use Rattle.asm_build.specs.declared.reason.TextError.TheVariants as error;
ghost use Rattle.bundling.specs.Bundled.{sequence_of};
ghost use Rattle.stop_placer.specs.Packs.{IsPack};
ghost use Rattle.stop_placer.specs.Placing.{IsPackingFault};
ghost use Rattle.stop_placer.specs.Known.{AreKnown};

use crate::packing::Packing;
use crate::plain::plain_chunks;
use asm_build::{Reason, TextError};
use bundling::{
    BundledText, bundled, bundled_is_program, bundled_is_spread, quiet_is_short, sequence_insns,
};
use flow_facts::{InFacts, solve};
use group_checker::Window;
use ia_insn::Insn;
use ia_meaning::action_of;
use ia_program::Place;
use ia_program::limits::BUNDLE_LIMIT;
use loose_text::{Item, LooseText};
use predicate_rel::Facts;
use resource_sets::{InsnAccesses, accesses_for};
use sequence_laws::known_in_the_sequence;
use slot_table::{Slot, SlotTable, may_fall};
use std::alloc::{AllocError, Global};

/// What is known of predicates before each instruction of a sequence: what is known at its place in a program that has the
/// sequence's instructions.
#[derive(Drop)]
pub(crate) struct SequenceFacts {
    /// What is known at each place of the program.
    pub facts: InFacts,
    /// Where each instruction stands.
    pub places: Vec<Place>,
}

impl SequenceFacts {
    /// What is known at each instruction of a text's sequence.
    ///
    /// # Errors
    ///
    /// Want of memory.
    pub fn of(alloc: Global, text: &LooseText) -> Result<SequenceFacts, AllocError>
        ensures { IfOk result (λ known. AreKnown (sequence_of text.now) known.facts known.places.items) }
    {
        text.is_loose();
        quiet_is_short();
        bundled_is_program();
        bundled_is_spread();
        known_in_the_sequence();
        let chunks = plain_chunks(alloc, text)?;
        let BundledText { program, places } = bundled(alloc, text, &chunks)?;
        let table = SlotTable::open(alloc, &program)?;
        let facts = solve(alloc, &table)?;
        Ok(SequenceFacts { facts, places })
    }

    /// What is known before the n-th instruction.
    pub fn at(&self, n: usize) -> Option<&Facts>
        requires { n < length self.now.places.items }
        ensures { option_copied result ≡ known_at self.now.facts (slice_index_or self.now.places.items n (first_of 0)) }
    {
        self.facts.at(self.places[n])
    }
}

/// What windows ask of an instruction of a sequence, where no stop follows it. Where control goes on from it they don't ask.
fn slot_of(insn: &Insn) -> Slot
    ensures { (g : Graph) (has_stop : Place → Bool) (place : Place) → insn_in g place ≡ Some insn.now → has_stop place ≡ false → Describes g has_stop place result }
{
    let action = action_of(&insn.op);
    Slot {
        action,
        qp: insn.qp,
        stop: false,
        falls: may_fall(insn.qp, &action),
        next: None,
        target: None,
    }
}

/// The place of the n-th instruction of a sequence.
fn sequence_place(n: usize) -> Place
    requires { n < 2 ^ 32 }
    ensures { result ≡ first_of n }
{
    Place {
        bundle: n as u32,
        slot: 0,
    }
}

/// Whether an instruction breaks a rule with an earlier one of its group, where no `;;` stands between the one before
/// and it: else this says nothing. `slot` says what stands there, `masks` what it accesses.
fn is_pair(window: &Window, before: &Item, slot: &Slot, masks: &InsnAccesses) -> bool
    ensures { before.now.written ≡ false → (g : Graph) (has_stop : Place → Bool) (j : Place) → HasWindow g has_stop window.now j slot.now masks.now → Decides result (IsViolatedAt g has_stop j) }
{
    !before.written && window.has_violation(slot, masks)
}

/// Forgets the earlier slots where a stop comes behind them.
fn part(window: &mut Window, stopped: bool)
    ensures { window.new ≡ (if stopped then [] else window.old) }
{
    if stopped {
        window.clear();
    }
}

/// The packing of a text. Where no `;;` stands before an instruction, it is asked whether the instruction and an
/// earlier one break a rule of groups on some walk, with the stops so far. Beside the time of what is known, this takes
/// for each instruction that of the earlier ones of its group.
///
/// # Errors
///
/// Limit at the instruction that begins a bundle past the limit, at once. Or want of memory, which may come in place of
/// any other answer.
pub(crate) fn pack(alloc: Global, text: &LooseText) -> Result<Packing, TextError>
    ensures found { IfOk result (λ k. IsPack text.now k × (length k.closed < BUNDLE_LIMIT)) }
    ensures fault { IfErr result (λ e. (e ≡ error.Memory) ⊎ IsPackingFault text.now e) }
{
    text.is_loose();
    let known = SequenceFacts::of(alloc, text)?;
    let insns = sequence_insns(alloc, text)?;
    let items = text.items();
    let mut packing = Packing::begun_with(alloc, &items[0]);
    let mut window = Window::new(alloc);
    let first = slot_of(&insns[0]);
    let accesses = accesses_for(first.qp, &first.action);
    window.move_on(known.at(0), sequence_place(0), &first, accesses)?;
    for n in 1..items.len() {
        let before = &items[n - 1];
        let item = &items[n];
        let slot = slot_of(&insns[n]);
        let masks = accesses_for(slot.qp, &slot.action);
        let pair = is_pair(&window, before, &slot, &masks);
        packing.next(before, item, pair)?;
        if packing.closed_count() == BUNDLE_LIMIT {
            return Err(TextError::Fault {
                line: item.line,
                reason: Reason::Limit,
            });
        }
        part(&mut window, packing.is_stopped(n - 1));
        window.move_on(known.at(n), sequence_place(n), &slot, masks)?;
    }
    Ok(packing)
}

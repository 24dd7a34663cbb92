//! A run under way.

ghost use Rattle.std.specs.Prelude.{◌≡◌, ◌<◌, ◌≤◌, ◌%◌, ◌+◌, ◌^◌, [], length, true, false, Some, None, IfNone, IfOk};
ghost use Rattle.ia_program.specs.declared.limits.TheConstants.{DATA_LIMIT, RUN_LIMIT};
ghost use Rattle.ia_program.specs.Places.{place_at, IsPlaceOf};
ghost use Rattle.ia_program.specs.declared.ending.End.TheVariants as end;
ghost use Rattle.ia_program.specs.declared.ending.How.TheVariants as how;
ghost use Rattle.ia_meaning.specs.declared.next.Next.TheVariants.{Falls};
ghost use Rattle.ia_meaning.specs.Progress.{begun, opened, slots_after, stepped, advanced, groups_further};
ghost use Rattle.ia_meaning.specs.Runs.{IsUnderWay, event_further};
ghost use Rattle.ia_program.specs.Programs.{IsProgram};
ghost use Rattle.ia_meaning.specs.Sequence.{first_of, next_of, is_stopped};
ghost use Rattle.ia_meaning.specs.State.{zero_registers};
ghost use Rattle.ia_meaning.specs.Names.{holds};
ghost use Rattle.ia_meaning.specs.Steps.{how_falling, seq_step};
ghost use Rattle.machine_state.specs.Changes.{outcome_with, MayChange};
ghost use Rattle.emulator.specs.Outcomes.{outcome_of};
ghost use Rattle.emulator.specs.declared.work.Work.TheVariants.{Act};
ghost use Rattle.emulator.specs.Progress.{state_of, progress_of, settled_step, arrived, IsHere};
ghost use Rattle.emulator.specs.Codes.{numbered};

use crate::code::{Code, CodeSlot, NO_PLACE};
use crate::work::Work;
use ia_insn::{AluFn, Gr, LoadKind, StoreKind};
use ia_meaning::{Action, Function, Next};
use ia_program::{End, FaultKind, GroupEvent, How, Place};
use machine_state::MachineState;
use slot_effects::{Change, SlotEffect, compute, effect, load, store, test, turn};
use slot_table::place_at;
use std::alloc::{AllocError, Global};

/// The state of a run, the number of the next place, the end, the groups begun, the number of the first place of the group
/// under way and the slots reached in it, 0 between two groups.
#[derive(Debug, Drop)]
pub(crate) struct Run {
    pub state: MachineState,
    pub number: usize,
    pub end: Option<End>,
    pub groups: u64,
    pub first: u32,
    pub slots: u32,
}

/// The slots of a group after one more that falls through.
fn slots_after(slots: u32, stopped: bool) -> u32
    requires { slots < RUN_LIMIT }
    ensures { result ≡ slots_after slots (how_falling stopped) }
{
    if stopped { 0 } else { slots + 1 }
}

/// How a group ends at a slot that falls through, where it does.
fn how_falling(stopped: bool) -> Option<How>
    ensures { result ≡ how_falling stopped }
{
    if stopped { Some(How::Falls) } else { None }
}

/// The place with a number.
fn place_numbered(number: usize) -> Place
    requires { number < 2 ^ 32 }
    ensures { result ≡ place_at number }
{
    place_at(number as u32)
}

impl Run {
    /// The run at the start of a program with these data: at most 1,048,576 bytes, a multiple of 8.
    ///
    /// # Errors
    ///
    /// Want of memory.
    pub fn begin(alloc: Global, bytes: &[u8]) -> Result<Run, AllocError>
        requires most { length bytes.now ≤ DATA_LIMIT }
        requires whole { length bytes.now % 8 ≡ 0 }
        ensures { IfOk result (λ run. progress_of run ≡ begun (record { registers = zero_registers; memory = record { bytes = bytes.now; alat = [] }; place = first_of 0 })) }
    {
        let state = MachineState::open(alloc, bytes)?;
        Ok(Run {
            state,
            number: 0,
            end: None,
            groups: 0,
            first: 0,
            slots: 0,
        })
    }

    /// The place of the next slot.
    pub fn place(&self) -> Place
        requires { self.now.number < 2 ^ 32 }
        ensures { result ≡ place_at self.now.number }
    {
        place_numbered(self.number)
    }

    /// Begins a group where none is under way.
    fn open_group(&mut self)
        requires small { self.old.number < 2 ^ 32 }
        requires room { self.old.slots ≡ 0 → self.old.groups + 1 < 2 ^ 64 }
        ensures value { progress_of self.new ≡ opened (progress_of self.old) }
        ensures state { self.new.state ≡ self.old.state }
        ensures number { self.new.number ≡ self.old.number }
    {
        if self.slots == 0 {
            self.groups += 1;
            self.first = self.number as u32;
        }
    }

    /// Ends the run, and with it the group.
    fn finish(&mut self, end: End) -> Option<How>
        ensures value { self.new ≡ record self.old { end = Some end; slots = 0 } }
        ensures how { result ≡ Some how.Ends }
    {
        self.end = Some(end);
        self.slots = 0;
        Some(How::Ends)
    }

    /// Ends the run with a fault.
    fn fault(&mut self, kind: FaultKind) -> Option<How>
        requires { self.old.number < 2 ^ 32 }
        ensures value { self.new ≡ record self.old { end = Some (end.Fault kind (place_at self.old.number)); slots = 0 } }
        ensures how { result ≡ Some how.Ends }
    {
        let place = self.place();
        self.finish(End::Fault { kind, place })
    }

    /// Goes to the place with a number, with a change. `slots` slots of its group come before it.
    #[inline(always)]
    fn arrive(&mut self, change: &Change, number: usize, slots: u32)
        requires { MayChange self.old.state change.now }
        ensures { progress_of self.new ≡ arrived (progress_of self.old) (outcome_with self.old.state change.now Falls) (place_at number) slots }
    {
        self.state.apply(change);
        self.number = number;
        self.slots = slots;
    }

    /// Goes on as the effect of a slot says. To fall through where there is no next place is a fault.
    #[inline(always)]
    #[tactic(auto, using(crate::proofs::SlotSteps::falls_off, crate::proofs::SlotSteps::falls_on, crate::proofs::SlotSteps::goes_on))]
    fn go_on(&mut self, code: &Code, slot: &CodeSlot, effect: &SlotEffect) -> Option<How>
        requires may { MayChange self.old.state effect.now.change }
        requires running { self.old.end ≡ None }
        requires few { self.old.slots < RUN_LIMIT }
        requires small { self.old.number < 2 ^ 32 }
        requires next { numbered slot.now.next ≡ next_of code.now.bundles (place_at self.old.number) }
        requires stop { slot.now.stop ≡ is_stopped code.now.bundles (place_at self.old.number) }
        ensures value { progress_of self.new ≡ stepped (progress_of self.old) (settled_step code.now (state_of self.old) (next_of code.now.bundles (place_at self.old.number)) (outcome_of self.old.state effect.now)) }
        ensures how { result ≡ (settled_step code.now (state_of self.old) (next_of code.now.bundles (place_at self.old.number)) (outcome_of self.old.state effect.now)).how }
        ensures goes_on { IfNone result (self.new.end ≡ None) }
    {
        let (number, slots, how) = match effect.next {
            Next::Falls => {
                if slot.next == NO_PLACE {
                    return self.fault(FaultKind::FellOff);
                }
                (
                    slot.next as usize,
                    slots_after(self.slots, slot.stop),
                    how_falling(slot.stop),
                )
            }
            Next::Goes { bundle } => (3 * bundle as usize, 0, Some(How::Taken)),
            Next::Breaks { imm } => {
                let place = self.place();
                return self.finish(End::Break { imm, place });
            }
            Next::Faults { kind } => return self.fault(kind),
        };
        self.arrive(&effect.change, number, slots);
        how
    }

    /// The slot at the place of a run.
    #[inline(always)]
    fn slot<'c>(&self, code: &'c Code) -> &'c CodeSlot
        requires program { IsProgram code.now }
        requires place { IsPlaceOf code.now.bundles (place_at self.now.number) }
        ensures { IsHere code.now (state_of self.now) result.now }
    {
        code.at(self.number)
    }

    /// Does what the slot at the place of the run does, and tells how its group ends, where it does.
    #[inline(never)]
    fn run_any(&mut self, code: &Code, slot: &CodeSlot) -> Option<How>
        requires here { IsHere code.now (state_of self.old) slot.now }
        requires running { self.old.end ≡ None }
        requires few { self.old.slots < RUN_LIMIT }
        ensures value { progress_of self.new ≡ stepped (progress_of self.old) (seq_step code.now (state_of self.old)) }
        ensures how { result ≡ (seq_step code.now (state_of self.old)).how }
        ensures goes_on { IfNone result (self.new.end ≡ None) }
    {
        let effect = effect(
            &self.state,
            code.program(),
            self.place().bundle,
            slot.qp,
            &slot.work.action(),
        );
        self.go_on(code, slot, &effect)
    }

    /// Goes past the slot at the place of the run, whose qualifying predicate is 0, by its action: a test may do something.
    #[inline(always)]
    fn skip_act(&mut self, code: &Code, slot: &CodeSlot, action: &Action) -> Option<How>
        requires action { slot.now.work ≡ Act action.now }
        requires here { IsHere code.now (state_of self.old) slot.now }
        requires skipped { holds self.old.state.registers slot.now.qp ≡ false }
        requires running { self.old.end ≡ None }
        requires few { self.old.slots < RUN_LIMIT }
        ensures value { progress_of self.new ≡ stepped (progress_of self.old) (seq_step code.now (state_of self.old)) }
        ensures how { result ≡ (seq_step code.now (state_of self.old)).how }
        ensures goes_on { IfNone result (self.new.end ≡ None) }
    {
        match *action {
            Action::Test { .. } | Action::Loop { .. } => self.run_any(code, slot),
            _ => {
                let effect = SlotEffect::falls(Change::Nothing);
                self.go_on(code, slot, &effect)
            }
        }
    }

    /// Goes past the slot at the place of the run, whose qualifying predicate is 0, and tells how its group ends, where it
    /// does: tests and loop branches alone may do something.
    #[inline(always)]
    fn skip(&mut self, code: &Code, slot: &CodeSlot) -> Option<How>
        requires here { IsHere code.now (state_of self.old) slot.now }
        requires skipped { holds self.old.state.registers slot.now.qp ≡ false }
        requires running { self.old.end ≡ None }
        requires few { self.old.slots < RUN_LIMIT }
        ensures value { progress_of self.new ≡ stepped (progress_of self.old) (seq_step code.now (state_of self.old)) }
        ensures how { result ≡ (seq_step code.now (state_of self.old)).how }
        ensures goes_on { IfNone result (self.new.end ≡ None) }
    {
        match slot.work {
            Work::Loop { .. } => self.run_any(code, slot),
            Work::Act(ref action) => self.skip_act(code, slot, action),
            _ => {
                let effect = SlotEffect::falls(Change::Nothing);
                self.go_on(code, slot, &effect)
            }
        }
    }

    /// Does what the slot at the place of the run does, whose qualifying predicate is 1, by its action.
    #[inline(always)]
    fn run_act(&mut self, code: &Code, slot: &CodeSlot, action: &Action) -> Option<How>
        requires here { IsHere code.now (state_of self.old) slot.now }
        requires holds { holds self.old.state.registers slot.now.qp ≡ true }
        requires action { slot.now.work ≡ Act action.now }
        requires running { self.old.end ≡ None }
        requires few { self.old.slots < RUN_LIMIT }
        ensures value { progress_of self.new ≡ stepped (progress_of self.old) (seq_step code.now (state_of self.old)) }
        ensures how { result ≡ (seq_step code.now (state_of self.old)).how }
        ensures goes_on { IfNone result (self.new.end ≡ None) }
    {
        match *action {
            Action::Compute {
                r1,
                r2,
                r3,
                ref function,
            } => {
                let effect = compute(&self.state, r1, r2, r3, function);
                self.go_on(code, slot, &effect)
            }
            Action::Test {
                kind,
                p1,
                p2,
                r2,
                r3,
                ref condition,
            } => {
                let effect = test(&self.state, kind, (p1, p2), (r2, r3), condition);
                self.go_on(code, slot, &effect)
            }
            Action::Idle { .. } => {
                let effect = SlotEffect::falls(Change::Nothing);
                self.go_on(code, slot, &effect)
            }
            _ => self.run_any(code, slot),
        }
    }

    /// Runs the next slot, and tells how its group ends, where it does. The actions of most loops have code of their
    /// own each, in which it is known what change there is, and none is made and taken apart.
    #[inline(always)]
    fn run_slot(&mut self, code: &Code) -> Option<How>
        requires program { IsProgram code.now }
        requires running { self.old.end ≡ None }
        requires place { IsPlaceOf code.now.bundles (place_at self.old.number) }
        requires few { self.old.slots < RUN_LIMIT }
        ensures value { progress_of self.new ≡ stepped (progress_of self.old) (seq_step code.now (state_of self.old)) }
        ensures how { result ≡ (seq_step code.now (state_of self.old)).how }
        ensures goes_on { IfNone result (self.new.end ≡ None) }
    {
        let slot = self.slot(code);
        if !self.state.holds(slot.qp) {
            return self.skip(code, slot);
        }
        match slot.work {
            Work::Sum { r1, r2, r3 } => {
                let effect = compute(&self.state, r1, r2, r3, &Function::Alu(AluFn::Add));
                self.go_on(code, slot, &effect)
            }
            Work::SumImmediate { r1, r3, imm } => {
                let function = Function::AluImmediate { f: AluFn::Add, imm };
                let effect = compute(&self.state, r1, Gr::of_field(0), r3, &function);
                self.go_on(code, slot, &effect)
            }
            Work::Load {
                size,
                r1,
                r3,
                update,
            } => {
                let effect = load(&self.state, size, LoadKind::Plain, r1, r3, update);
                self.go_on(code, slot, &effect)
            }
            Work::Store {
                size,
                r3,
                r2,
                update,
            } => {
                let effect = store(&self.state, size, StoreKind::Plain, r3, r2, update);
                self.go_on(code, slot, &effect)
            }
            Work::Loop { kind, bundle, .. } => {
                let effect = turn(&self.state, kind, true, bundle);
                self.go_on(code, slot, &effect)
            }
            Work::Jump { bundle, .. } => {
                let effect = SlotEffect::goes(Change::Nothing, bundle);
                self.go_on(code, slot, &effect)
            }
            Work::Act(ref action) => self.run_act(code, slot, action),
        }
    }

    /// Runs one slot more, and tells how its group ends, where it does.
    #[inline(always)]
    #[tactic(auto, using(ia_meaning::proofs::WholeRuns::advanced_is, ia_meaning::proofs::GroupEnds::has_few_slots))]
    fn advance(&mut self, code: &Code) -> Option<How>
        requires program { IsProgram code.now }
        requires running { self.old.end ≡ None }
        requires under_way { IsUnderWay code.now (progress_of self.old) }
        requires room { self.old.slots ≡ 0 → self.old.groups + 1 < 2 ^ 64 }
        ensures value { progress_of self.new ≡ advanced code.now (progress_of self.old) }
        ensures how { result ≡ (seq_step code.now (state_of self.old)).how }
        ensures goes_on { IfNone result (self.new.end ≡ None) }
        ensures under_way { IsUnderWay code.now (progress_of self.new) }
    {
        self.open_group();
        self.run_slot(code)
    }

    /// Runs at most this number of groups, at least one, and tells of the last. A group that is under way is the first of
    /// them. Each has at most [`RUN_LIMIT`](ia_program::limits::RUN_LIMIT) slots.
    ///
    /// It alone calls `advance`, so that slot after slot is run in one loop.
    pub fn run_groups(&mut self, code: &Code, groups: u64) -> GroupEvent
        requires program { IsProgram code.now }
        requires running { self.old.end ≡ None }
        requires under_way { IsUnderWay code.now (progress_of self.old) }
        requires some { 1 ≤ groups }
        requires room { self.old.groups + groups < 2 ^ 64 }
        ensures value { progress_of self.new ≡ groups_further groups code.now (progress_of self.old) }
        ensures event { groups ≡ 1 → result ≡ event_further code.now (progress_of self.old) }
        ensures under_way { IsUnderWay code.now (progress_of self.new) }
    {
        let mut left = groups;
        loop {
            let (last, slots) = (self.number, self.slots + 1);
            if let Some(how) = self.advance(code) {
                left -= 1;
                if left == 0 || self.end.is_some() {
                    return GroupEvent {
                        number: self.groups,
                        first: place_at(self.first),
                        last: place_numbered(last),
                        slots,
                        how,
                    };
                }
            }
        }
    }
}

//! The machine.

ghost use Rattle.std.specs.Prelude.{◌≡◌, ◌<◌, ◌≤◌, ◌+◌, ◌^◌, IfOk, IfSome, MatchResult, Some, None};
ghost use Rattle.ia_meaning.specs.State.{zero_state};
ghost use Rattle.ia_meaning.specs.Names.{look};
ghost use Rattle.ia_meaning.specs.Progress.{begun, group_further, groups_further, end_of};
ghost use Rattle.ia_meaning.specs.Runs.{event_further};
ghost use Rattle.frame_shapes.specs.declared.fault.StackFault.TheVariants as fault;
ghost use Rattle.emulator.specs.Execution.{Execution, contents};

use crate::code::Code;
use crate::run::Run;
use ia_insn::Gr;
use ia_meaning::{Cell, end_or};
use ia_program::{End, GroupEvent, Place};
use machine_state::MachineState;
use reg_stack::StackFault;
use slot_table::SlotTable;
use std::alloc::{AllocError, Global};
use std::marker::Model;

/// A machine that runs a program. Contracts see the program and how far it has run.
#[derive(Drop)]
pub struct Machine<'a> {
    code: Code<'a>,
    run: Run,
}

impl<'a> Model for Machine<'a> {
    ghost use Rattle.emulator.specs.Execution.{Execution};

    ghost Value = { Execution };

    ghost use Rattle.emulator.specs.Invariant.{execution_of, IsMachine};

    ghost view = { execution_of };

    ghost invariant = { IsMachine };
}

impl<'a> Machine<'a> {
    /// The machine at the start of a program, whose slots it is lent: its state is the zero state. No call
    /// after this one takes memory.
    ///
    /// # Errors
    ///
    /// Want of memory.
    #[tactic(auto, using(ia_meaning::proofs::GroupEnds::begins_under_way))]
    pub fn open(alloc: Global, slots: &'a SlotTable<'a>) -> Result<Machine<'a>, AllocError>
        ensures { IfOk result (λ m. m ≡ record { program = slots.now; progress = begun (zero_state slots.now) }) }
    {
        slots.is_program();
        let code = Code::open(alloc, slots)?;
        let run = Run::begin(alloc, slots.program().data())?;
        Ok(Machine { code, run })
    }

    /// How the run ended, where it did. A finished machine changes nothing any more.
    pub fn end(&self) -> Option<End>
        ensures { result ≡ self.now.progress.end }
    {
        self.run.end
    }

    /// How many groups began.
    pub fn groups(&self) -> u64
        ensures { result ≡ self.now.progress.groups }
    {
        self.run.groups
    }

    /// The place of the next slot; after an end, of the slot that ended the run.
    pub fn place(&self) -> Place
        ensures { result ≡ self.now.progress.state.place }
    {
        self.run.place()
    }

    /// What the machine holds: the registers, with the register stack, and the memory.
    pub(crate) fn state(&self) -> &MachineState
        ensures { result.now ≡ contents self.now.progress }
    {
        &self.run.state
    }

    /// What a general register holds.
    ///
    /// # Errors
    ///
    /// `OutOfFrame` exactly for r32 and above outside the frame.
    pub fn gr(&self, r: Gr) -> Result<Cell, StackFault>
        ensures { MatchResult result (λ cell. look self.now.progress.state.registers r ≡ Some cell) (λ error. (error ≡ fault.OutOfFrame) × (look self.now.progress.state.registers r ≡ None)) }
    {
        self.run.state.general(r).ok_or(StackFault::OutOfFrame)
    }

    /// Runs one group, or the rest of the one that is under way, and tells of it.
    pub fn step_group(&mut self) -> GroupEvent
        requires running { self.old.progress.end ≡ None }
        requires room { self.old.progress.groups + 1 < 2 ^ 64 }
        ensures state { self.new ≡ record self.old { progress = group_further self.old.program self.old.progress } }
        ensures event { result ≡ event_further self.old.program self.old.progress }
    {
        self.run.run_groups(&self.code, 1)
    }

    /// How the run ended; `Limit` where it may go on.
    pub fn ending(&self) -> End
        ensures { result ≡ end_of self.now.progress }
    {
        end_or(self.end(), self.place())
    }

    /// Runs at most this number of groups more, at least one. A group that is under way is the first
    /// of them. The end is `Limit` exactly where all ran without one; a later call goes on there. After
    /// another end nothing changes any more, and it is returned again.
    ///
    /// After [`open`](Machine::open) this is the sequential run: `ia_meaning::progress_is_run` is the law.
    #[tactic(auto, using(ia_meaning::proofs::GroupEnds::groups_ended))]
    pub fn run(&mut self, groups: u64) -> End
        requires some { 1 ≤ groups }
        requires room { self.old.progress.groups + groups < 2 ^ 64 }
        ensures state { self.new ≡ record self.old { progress = groups_further groups self.old.program self.old.progress } }
        ensures end { result ≡ end_of self.new.progress }
        ensures finished { IfSome self.old.progress.end (λ end. (self.new ≡ self.old) × (result ≡ end)) }
    {
        if self.run.end.is_none() {
            let _last = self.run.run_groups(&self.code, groups);
        }
        self.ending()
    }
}

//! The state.

ghost use Rattle.std.specs.Prelude.{◌≡◌, ◌<◌, ◌≤◌, ◌%◌, length, get_or, take, IfOk};
ghost use Rattle.std.specs.Option.{option_map};
ghost use Rattle.ia_program.specs.declared.limits.TheConstants.{DATA_LIMIT};
ghost use Rattle.ia_meaning.specs.Names.{spot, look, predicate_index, holds};
ghost use Rattle.ia_meaning.specs.Moves.{predicate_word, application};
ghost use Rattle.ia_meaning.specs.Frames.{marked_frame, return_fault};
ghost use Rattle.frame_shapes.specs.Faults.{kind_of};
ghost use Rattle.slot_effects.specs.Changes.{held};
ghost use Rattle.machine_state.specs.Contents.{zero_contents, stack_of};

use frame_shapes::{StackFault, marker_of};
use ia_insn::{Ar, Br, Gr, Pr};
use ia_meaning::limits::STACK_LIMIT;
use ia_meaning::{Cell, Spot};
use nat_alat::{Alat, DataMem};
use reg_stack::Stack;
use slot_effects::predicate_word;
use std::alloc::{AllocError, Global};
use std::marker::Model;

/// The registers and the memory of the machine. Contracts see what they hold, and the resident range of
/// the register stack.
#[derive(Debug, Drop)]
pub struct MachineState {
    /// r0 to r31. r0 is 0.
    pub(crate) statics: [Cell; 32],
    /// The stacked registers.
    pub(crate) stack: Stack,
    /// The predicates by place. That of p0 is 1.
    pub(crate) predicates: [bool; 64],
    /// b0 to b7.
    pub(crate) branches: [u64; 8],
    /// The NaT bits of spills.
    pub(crate) unat: u64,
    /// The previous function state.
    pub(crate) pfs: u64,
    /// The loop count.
    pub(crate) lc: u64,
    /// The epilog count, below 64.
    pub(crate) ec: u64,
    /// The data.
    pub(crate) data: DataMem,
    /// The advanced load address table.
    pub(crate) alat: Alat,
}

impl Model for MachineState {
    ghost use Rattle.machine_state.specs.Contents.{Contents};

    ghost Value = { Contents };

    ghost use Rattle.machine_state.specs.Invariant.{contents_of, IsKept};

    ghost view = { contents_of };

    ghost invariant = { IsKept };
}

impl MachineState {
    /// Every register is 0 without NaT, p0 is 1, the frame and the ALAT are empty, and the data are these:
    /// at most 1,048,576 bytes, a multiple of 8. No call after this one takes memory.
    ///
    /// # Errors
    ///
    /// Want of memory.
    pub fn open(alloc: Global, bytes: &[u8]) -> Result<MachineState, AllocError>
        requires most { length bytes.now ≤ DATA_LIMIT }
        requires whole { length bytes.now % 8 ≡ 0 }
        ensures { IfOk result (λ s. s ≡ zero_contents bytes.now) }
    {
        let mut predicates = [false; 64];
        predicates[0] = true;
        let stack = Stack::open(alloc, STACK_LIMIT)?;
        let data = DataMem::open(alloc, bytes)?;
        Ok(MachineState {
            statics: [Cell {
                value: 0,
                nat: false,
            }; 32],
            stack,
            predicates,
            branches: [0; 8],
            unat: 0,
            pfs: 0,
            lc: 0,
            ec: 0,
            data,
            alat: Alat::new(),
        })
    }

    /// The register stack.
    pub fn stack(&self) -> &Stack
        ensures { result.now ≡ stack_of self.now }
    {
        &self.stack
    }

    /// The data.
    pub fn data(&self) -> &DataMem
        ensures { result.now ≡ self.now.memory.bytes }
    {
        &self.data
    }

    /// The ALAT.
    pub fn alat(&self) -> &Alat
        ensures { result.now ≡ self.now.memory.alat }
    {
        &self.alat
    }

    /// What holds a stacked register; None outside the frame.
    fn stacked_spot(&self, r: Gr) -> Option<Spot>
        requires { 32 ≤ r }
        ensures { result ≡ spot self.now.registers.frame r }
    {
        match self.stack.cell_number(r) {
            Some(n) => Some(Spot::Stacked(n)),
            None => None,
        }
    }

    /// What holds a general register; None outside the frame.
    #[inline(always)]
    #[tactic(auto, using(ia_meaning::proofs::Spots::spot_static))]
    pub fn spot(&self, r: Gr) -> Option<Spot>
        ensures { result ≡ spot self.now.registers.frame r }
    {
        let n = r.number();
        if n < 32 {
            return Some(Spot::Static(n));
        }
        self.stacked_spot(r)
    }

    /// What a stacked register holds; None outside the frame.
    fn stacked(&self, r: Gr) -> Option<Cell>
        requires { 32 ≤ r }
        ensures { result ≡ look self.now.registers r }
    {
        match self.stack.get(r) {
            Ok(cell) => Some(cell),
            Err(_) => None,
        }
    }

    /// What a general register holds; None outside the frame.
    #[inline(always)]
    pub fn general(&self, r: Gr) -> Option<Cell>
        ensures { result ≡ look self.now.registers r }
    {
        let n = r.number() as usize;
        if n < 32 {
            return Some(self.statics[n]);
        }
        self.stacked(r)
    }

    /// What a general register holds, 0 outside the frame.
    #[inline(always)]
    pub(crate) fn held(&self, r: Gr) -> Cell
        ensures { result ≡ held self.now.registers r }
    {
        self.general(r).unwrap_or(Cell {
            value: 0,
            nat: false,
        })
    }

    /// The index of a predicate without rotation.
    pub(crate) fn predicate_index(&self, p: Pr) -> usize
        ensures value { result ≡ predicate_index self.now.registers.frame p }
        ensures within { result < 64 }
    {
        usize::from(rotation::predicate_index_of(p.number(), self.stack.shape().rrbs.pr))
    }

    /// Whether a predicate is 1.
    #[inline(always)]
    #[tactic(auto, using(crate::proofs::Names::holds_zero))]
    pub fn holds(&self, p: Pr) -> bool
        ensures { result ≡ holds self.now.registers p }
    {
        if p.is_zero() {
            return true;
        }
        self.predicates[self.predicate_index(p)]
    }

    /// The predicates as a word: bit n is that of place n.
    pub fn predicate_word(&self) -> u64
        ensures { result ≡ predicate_word self.now.registers.predicates }
    {
        predicate_word(&self.predicates)
    }

    /// The static predicates, p0 to p15, which stand at their own places in every frame.
    pub fn static_predicates(&self) -> &[bool]
        ensures { result.now ≡ take 16 self.now.registers.predicates }
    {
        &self.predicates[..16]
    }

    /// What a branch register holds.
    pub fn branch(&self, b: Br) -> u64
        ensures { result ≡ get_or self.now.registers.branches b 0 }
    {
        b.has_three_bits();
        self.branches[b.number() as usize]
    }

    /// What an application register holds.
    pub fn application(&self, ar: Ar) -> u64
        ensures value { result ≡ application self.now.registers ar }
    {
        match ar {
            Ar::Unat => self.unat,
            Ar::Pfs => self.pfs,
            Ar::Lc => self.lc,
            Ar::Ec => self.ec,
        }
    }

    /// Why a return by the previous function state is refused, where it is: that it is no frame, that its
    /// locals reach below the first cell, or that there are too many cells.
    #[tactic(auto, using(crate::proofs::Frames::return_fault_low))]
    pub fn return_fault(&self) -> Option<StackFault>
        ensures { option_map kind_of result ≡ return_fault self.now.registers.frame.base (marked_frame self.now.registers.frame.base self.now.registers.pfs) }
    {
        frame_shapes::return_fault_is_that();
        self.stack.may_ret(marker_of(self.pfs)).err()
    }
}

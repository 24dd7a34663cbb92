//! The registers of a group's start.

ghost use Rattle.std.specs.Prelude.{◌≡◌, ◌<◌, IfOk};
ghost use Rattle.ia_meaning.specs.State.{zero_registers};
ghost use Rattle.ia_meaning.specs.Names.{spot, look, predicate_index};
ghost use Rattle.ia_meaning.specs.Writes.{put};
ghost use Rattle.slot_effects.specs.Changes.{held};
ghost use Rattle.group_engine.specs.Kept.{IsMakeable, branch_inputs_of};

use crate::branch_inputs::BranchInputs;
use crate::cells::resize;
use frame_shapes::{cell_of, zero_frame};
use ia_insn::{Gr, Pr};
use ia_meaning::limits::STACK_LIMIT;
use ia_meaning::{Cell, FrameShape, Spot, Write};
use std::alloc::{AllocError, Global};
use std::marker::Model;

/// 0 without NaT.
const ZERO_CELL: Cell = Cell {
    value: 0,
    nat: false,
};

/// Registers. Contracts see them as those of the meaning of programs.
#[derive(Debug, Drop)]
pub(crate) struct GroupRegisters {
    /// r0 to r31. r0 is 0.
    statics: [Cell; 32],
    /// The cells of the register stack, up to the end of the frame.
    cells: Vec<Cell>,
    /// The frame.
    pub frame: FrameShape,
    /// The predicates, the branch registers and the previous function state.
    branch_inputs: BranchInputs,
    /// The NaT bits of spills.
    pub unat: u64,
    /// The loop count.
    pub lc: u64,
    /// The epilog count, below 64.
    pub ec: u64,
}

impl Model for GroupRegisters {
    ghost use Rattle.ia_meaning.specs.State.{Registers};

    ghost Value = { Registers };

    ghost use Rattle.group_engine.specs.Registers.{registers_of, AreGroupRegisters};

    ghost view = { registers_of };

    ghost invariant = { AreGroupRegisters };
}

impl GroupRegisters {
    /// The registers at the start of a program. No call after this one takes memory.
    ///
    /// # Errors
    ///
    /// Want of memory.
    pub fn open(alloc: Global) -> Result<GroupRegisters, AllocError>
        ensures { IfOk result (λ r. r ≡ zero_registers) }
    {
        let cells = Vec::with_capacity(alloc, STACK_LIMIT as usize)?;
        let mut predicates = [false; 64];
        predicates[0] = true;
        Ok(GroupRegisters {
            statics: [ZERO_CELL; 32],
            cells,
            frame: zero_frame(),
            branch_inputs: BranchInputs {
                predicates,
                branches: [0; 8],
                pfs: 0,
            },
            unat: 0,
            lc: 0,
            ec: 0,
        })
    }

    /// The registers that steer branches.
    #[inline(always)]
    pub fn branch_inputs(&self) -> &BranchInputs
        ensures { result.now ≡ branch_inputs_of self.now }
    {
        &self.branch_inputs
    }

    /// The place of a general register; None outside the frame.
    #[inline(always)]
    #[tactic(auto, using(ia_meaning::proofs::Spots::spot_static))]
    pub fn spot(&self, r: Gr) -> Option<Spot>
        ensures { result ≡ spot self.now.frame r }
    {
        let n = r.number();
        if n < 32 {
            return Some(Spot::Static(n));
        }
        cell_of(&self.frame, r).map(Spot::Stacked)
    }

    /// What a general register holds; None outside the frame.
    #[inline(always)]
    #[tactic(auto, using(crate::proofs::Names::look_static, crate::proofs::Names::look_outside))]
    pub fn general(&self, r: Gr) -> Option<Cell>
        ensures { result ≡ look self.now r }
    {
        let n = r.number() as usize;
        if n < 32 {
            return Some(self.statics[n]);
        }
        let cell = cell_of(&self.frame, r)?;
        Some(self.cells[cell as usize])
    }

    /// What a general register holds, 0 outside the frame.
    pub fn held(&self, r: Gr) -> Cell
        ensures { result ≡ held self.now r }
    {
        self.general(r).unwrap_or(ZERO_CELL)
    }

    /// The place of a predicate.
    #[inline(always)]
    pub fn predicate_index(&self, p: Pr) -> usize
        ensures value { result ≡ predicate_index self.now.frame p }
        ensures within { result < 64 }
    {
        usize::from(rotation::predicate_index_of(p.number(), self.frame.rrbs.pr))
    }

    /// Makes a write.
    #[tactic(auto, using(crate::proofs::Resized::counts))]
    pub fn put(&mut self, write: &Write)
        requires { IsMakeable write.now }
        ensures { self.new ≡ put write.now self.old }
    {
        match *write {
            Write::SetStatic(n, cell) => self.statics[n as usize] = cell,
            Write::SetCell(n, cell) => {
                if (n as usize) < self.cells.len() {
                    self.cells[n as usize] = cell;
                }
            }
            Write::SetPredicate(n, bit) => self.branch_inputs.predicates[n as usize] = bit,
            Write::SetBranch(n, word) => self.branch_inputs.branches[n as usize] = word,
            Write::SetUnat(word) => self.unat = word,
            Write::SetPfs(word) => self.branch_inputs.pfs = word,
            Write::SetLc(word) => self.lc = word,
            Write::SetEc(word) => self.ec = word,
            Write::SetFrame(_, frame) => {
                self.frame = frame;
                resize(&mut self.cells, frame.base + u32::from(frame.sof));
            }
        }
    }
}

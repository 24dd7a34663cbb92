//! The state as a slot sees it.

use crate::state::MachineState;
use frame_shapes::StackFault;
use ia_insn::{Ar, Br, Gr, Pr};
use ia_meaning::{Cell, Spot};
use ia_program::FaultKind;
use nat_alat::{Alat, DataMem};
use slot_effects::StateView;

impl StateView for MachineState {
    ghost registers = { λ s. s.registers };

    ghost memory = { λ s. s.memory };

    ghost unat = { λ s. s.registers.unat };

    #[inline(always)]
    fn spot(&self, r: Gr) -> Option<Spot> {
        MachineState::spot(self, r)
    }

    #[inline(always)]
    fn general(&self, r: Gr) -> Option<Cell> {
        MachineState::general(self, r)
    }

    #[inline(always)]
    fn holds(&self, p: Pr) -> bool {
        MachineState::holds(self, p)
    }

    #[inline(always)]
    fn predicate_word(&self) -> u64 {
        MachineState::predicate_word(self)
    }

    #[inline(always)]
    fn static_predicates(&self) -> &[bool] {
        MachineState::static_predicates(self)
    }

    #[inline(always)]
    fn branch(&self, b: Br) -> u64 {
        MachineState::branch(self, b)
    }

    #[inline(always)]
    fn application(&self, ar: Ar) -> u64 {
        MachineState::application(self, ar)
    }

    #[inline(always)]
    fn fill_unat(&self) -> u64 {
        self.unat
    }

    fn alloc_fault(&self, sof: u8, sol: u8, sor: u8) -> Option<FaultKind> {
        self.stack
            .may_alloc(sof, sol, sor)
            .err()
            .map(StackFault::kind)
    }

    fn return_fault(&self) -> Option<FaultKind> {
        MachineState::return_fault(self).map(StackFault::kind)
    }

    #[inline(always)]
    fn data(&self) -> &DataMem {
        MachineState::data(self)
    }

    #[inline(always)]
    fn alat(&self) -> &Alat {
        MachineState::alat(self)
    }
}

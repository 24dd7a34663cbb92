//! Making the changes of loads, stores and exchanges, and of the ALAT.

ghost use Rattle.std.specs.Prelude.{◌≡◌, if◌then◌else◌, false, Some, None};
ghost use Rattle.ia_meaning.specs.declared.next.Next.TheVariants.{Falls};
ghost use Rattle.ia_meaning.specs.Writes.{apply};
ghost use Rattle.ia_meaning.specs.Names.{spot};
ghost use Rattle.ia_meaning.specs.Loads.{stored, untouched, unat_bit};
ghost use Rattle.ia_meaning.specs.Steps.{spilled};
ghost use Rattle.machine_state.specs.Contents.{left_by};
ghost use Rattle.slot_effects.specs.declared.change.Change.TheVariants.{Stored, Exchanged};
ghost use Rattle.slot_effects.specs.Changes.{set_at, held, update_at, load_update, invalidated_at, invalidated_where, entered_at, MayStore};
ghost use Rattle.machine_state.specs.Changes.{outcome_with};

use crate::state::MachineState;
use ia_insn::{Gr, Update};
use ia_meaning::{AlatEntry, Cell, update_register};

impl MachineState {
    /// Writes a base to which something is added: `more`, or an immediate.
    #[inline(always)]
    fn set_base(&mut self, r3: Gr, update: &Update, base: Cell, more: Cell)
        ensures { self.new ≡ record self.old { registers = apply (update_at (spot self.old.registers.frame r3) update.now base more) self.old.registers } }
    {
        match *update {
            Update::None => {}
            Update::Reg(_) => self.set_general(
                r3,
                Cell {
                    value: base.value.wrapping_add(more.value),
                    nat: base.nat || more.nat,
                },
            ),
            Update::Imm(imm) => self.set_general(
                r3,
                Cell {
                    value: base.value.wrapping_add(i64::from(imm).cast_unsigned()),
                    nat: base.nat,
                },
            ),
        }
    }

    /// The entry of a register leaves the ALAT.
    pub(crate) fn invalidate(&mut self, r1: Gr)
        ensures { self.new ≡ record self.old { memory = record self.old.memory { alat = invalidated_at (spot self.old.registers.frame r1) self.old.memory.alat } } }
    {
        if let Some(key) = self.spot(r1) {
            self.alat.invalidate(key);
        }
    }

    /// The entry of a register leaves the ALAT, or not.
    pub(crate) fn invalidate_where(&mut self, invalidates: bool, r1: Gr)
        ensures { self.new ≡ record self.old { memory = record self.old.memory { alat = invalidated_where invalidates (spot self.old.registers.frame r1) self.old.memory.alat } } }
    {
        if invalidates {
            self.invalidate(r1);
        }
    }

    /// The target of a load from the address in a base enters the ALAT.
    pub(crate) fn enter(&mut self, r1: Gr, r3: Gr, size: u8)
        ensures { self.new ≡ record self.old { memory = record self.old.memory { alat = entered_at (spot self.old.registers.frame r1) (held self.old.registers r3).value size self.old.memory.alat } } }
    {
        if let Some(key) = self.spot(r1) {
            let address = self.held(r3).value;
            self.alat.enter(AlatEntry { key, address, size });
        }
    }

    /// Writes the target of a load, and then its base.
    #[inline(always)]
    pub(crate) fn load(&mut self, r1: Gr, r3: Gr, update: &Update, cell: Cell)
        ensures { self.new ≡ record self.old { registers = apply (set_at (spot self.old.registers.frame r1) cell (load_update self.old.registers r3 update.now)) self.old.registers } }
    {
        let base = self.held(r3);
        let more = self.held(update_register(update));
        self.set_general(r1, cell);
        self.set_base(r3, update, base, more);
    }

    /// Writes the base of a load whose target stays as it is.
    pub(crate) fn hit(&mut self, r3: Gr, update: &Update)
        ensures { self.new ≡ record self.old { registers = apply (load_update self.old.registers r3 update.now) self.old.registers } }
    {
        let base = self.held(r3);
        let more = self.held(update_register(update));
        self.set_base(r3, update, base, more);
    }

    /// Stores a register, and where it spills writes its NaT bit to UNAT.
    #[inline(always)]
    fn store_at(&mut self, address: u64, size: u8, cell: Cell, spills: bool)
        requires { MayStore self.old.memory address size spills }
        ensures { self.new ≡ record self.old { registers = spilled (if spills then Some (unat_bit address, cell.nat) else None) self.old.registers; memory = record { bytes = stored self.old.memory.bytes address size cell.value; alat = untouched self.old.memory.alat address size } } }
    {
        if spills {
            self.unat = self.data.put_spill(address, cell, self.unat);
        } else {
            self.data.put(address, size, cell.value);
        }
        self.alat.stored(address, size);
    }

    /// Stores a register to the address in a base, and writes the base.
    #[inline(always)]
    pub(crate) fn store(&mut self, r3: Gr, cell: Cell, size: u8, spills: bool, update: &Update)
        requires { MayStore self.old.memory (held self.old.registers r3).value size spills }
        ensures { self.new ≡ left_by (outcome_with self.old (Stored r3 size spills update.now cell) Falls) self.old }
    {
        let base = self.held(r3);
        self.store_at(base.value, size, cell, spills);
        self.set_base(
            r3,
            update,
            base,
            Cell {
                value: 0,
                nat: false,
            },
        );
    }

    /// Stores what an exchange leaves to the address in a base, and writes its target.
    pub(crate) fn exchange(&mut self, r1: Gr, r3: Gr, size: u8, old: u64, value: u64)
        requires { MayStore self.old.memory (held self.old.registers r3).value size false }
        ensures { self.new ≡ left_by (outcome_with self.old (Exchanged r1 r3 size old value) Falls) self.old }
    {
        let address = self.held(r3).value;
        self.store_at(address, size, Cell { value, nat: false }, false);
        self.set_general(
            r1,
            Cell {
                value: old,
                nat: false,
            },
        );
    }
}

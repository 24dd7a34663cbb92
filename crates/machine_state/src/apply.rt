//! Making a change.

ghost use Rattle.std.specs.Prelude.{◌≡◌, ◌<◌, ◌≤◌, ◌+◌, ◌-◌, [], None, IfSome};
ghost use Rattle.ia_meaning.specs.declared.next.Next.TheVariants.{Falls};
ghost use Rattle.ia_meaning.specs.declared.write.Write.TheVariants.{SetPredicate, SetBranch, SetLc, SetEc, SetFrame};
ghost use Rattle.ia_meaning.specs.declared.write.FrameCause.TheVariants.{Renamed};
ghost use Rattle.ia_meaning.specs.Writes.{apply, put};
ghost use Rattle.ia_meaning.specs.Names.{spot, predicate_index, predicate_spot, set_predicate};
ghost use Rattle.ia_meaning.specs.Moves.{is_masked, masked_writes, predicate_writes};
ghost use Rattle.ia_meaning.specs.Frames.{rotated, cleared, call_state, marked_frame, return_fault};
ghost use Rattle.ia_meaning.specs.Loops.{written, turn_writes};
ghost use Rattle.machine_state.specs.Contents.{left_by};
ghost use Rattle.slot_effects.specs.declared.change.Change.TheVariants.{Allocated, Called, Returned};
ghost use Rattle.slot_effects.specs.Changes.{application_write, set_at, FitsApplication, MayAllocate};
ghost use Rattle.machine_state.specs.Changes.{outcome_with, MayChange};

use crate::state::MachineState;
use frame_shapes::{call_state, epilog_of};
use ia_insn::{Ar, Br, Gr, Pr};
use ia_meaning::{Cell, Turn};
use integer_ops::bit;
use slot_effects::Change;

/// Whether a mask has a place: its own bit below 16, and bit 16 from there on.
fn is_masked(mask: u64, n: usize) -> bool
    requires { n < 64 }
    ensures { result ≡ is_masked mask n }
{
    bit(mask, n.min(16) as u8)
}

/// Writes a cell, part by part: its padding is left as it is.
#[inline(always)]
fn put(kept: &mut Cell, cell: Cell)
    ensures { kept.new ≡ cell }
{
    kept.value = cell.value;
    kept.nat = cell.nat;
}

impl MachineState {
    /// Writes a general register; r0 stays as it is, and outside the frame nothing is written.
    #[tactic(auto, using(crate::proofs::Names::set_stacked, crate::proofs::Names::set_static, crate::proofs::Names::set_zero))]
    #[inline(always)]
    pub(crate) fn set_general(&mut self, r1: Gr, cell: Cell)
        ensures { self.new ≡ record self.old { registers = apply (set_at (spot self.old.registers.frame r1) cell []) self.old.registers } }
    {
        let n = r1.number() as usize;
        if n >= 32 {
            let _set = self.stack.set(r1, cell);
        } else if n > 0 {
            put(&mut self.statics[n], cell);
        }
    }

    /// Writes a predicate; p0 stays as it is.
    #[tactic(auto, using(crate::proofs::Names::one_kept, crate::proofs::Names::set_predicate_some, crate::proofs::Names::set_predicate_zero))]
    fn set_predicate(&mut self, p: Pr, value: bool)
        ensures { self.new ≡ record self.old { registers = apply (set_predicate (predicate_spot self.old.registers.frame p) value []) self.old.registers } }
    {
        if !p.is_zero() {
            let place = self.predicate_index(p);
            self.predicates[place] = value;
        }
    }

    /// Writes the n-th place, where a mask has it, from bit n of a word.
    fn set_place(&mut self, mask: u64, word: u64, n: usize)
        requires some { 1 ≤ n }
        requires most { n < 64 }
        ensures { record self.old { registers = apply (masked_writes (64 - n) n mask word) self.old.registers } ≡ record self.new { registers = apply (masked_writes (64 - (n + 1)) (n + 1) mask word) self.new.registers } }
    {
        if is_masked(mask, n) {
            self.predicates[n] = bit(word, n as u8);
        }
    }

    /// Writes the places from 1 on that a mask has from the bits of a word.
    #[tactic(auto, unfolding(ia_meaning::specs::Moves::predicate_writes))]
    fn set_places(&mut self, mask: u64, word: u64)
        ensures { self.new ≡ record self.old { registers = apply (predicate_writes mask word) self.old.registers } }
    {
        for n in 1..64 {
            self.set_place(mask, word, n);
        }
    }

    /// Writes a branch register.
    fn set_branch(&mut self, b1: Br, value: u64)
        ensures { self.new ≡ record self.old { registers = put (SetBranch b1 value) self.old.registers } }
    {
        b1.has_three_bits();
        self.branches[b1.number() as usize] = value;
    }

    /// Writes an application register.
    fn set_application(&mut self, ar: Ar, value: u64)
        requires { FitsApplication ar value }
        ensures { self.new ≡ record self.old { registers = put (application_write ar value) self.old.registers } }
    {
        match ar {
            Ar::Unat => self.unat = value,
            Ar::Pfs => self.pfs = value,
            Ar::Lc => self.lc = value,
            Ar::Ec => self.ec = value,
        }
    }

    /// Gives the frame other sizes, and writes the previous function state to a register of it.
    #[tactic(auto, using(frame_shapes::proofs::FrameEnds::alloc_free))]
    fn allocate(&mut self, r1: Gr, sof: u8, sol: u8, sor: u8)
        requires { MayAllocate self.old.registers.frame sof sol sor }
        ensures { self.new ≡ left_by (outcome_with self.old (Allocated r1 sof sol sor) Falls) self.old }
    {
        self.stack.resize(sof, sol, sor);
        let previous = Cell {
            value: self.pfs,
            nat: false,
        };
        self.set_general(r1, previous);
    }

    /// Rotates the registers.
    #[tactic(auto, using(crate::proofs::Frames::renamed, frame_shapes::proofs::FrameEnds::rotated_end))]
    fn rotate(&mut self)
        ensures { self.new ≡ record self.old { registers = put (SetFrame Renamed (rotated self.old.registers.frame)) self.old.registers } }
    {
        // By its shape the stack's cells end with the frame, so none is cut or filled up.
        self.stack.shape();
        self.stack.rotate();
    }

    /// Writes the loop count, where there is a new one.
    fn set_loop_count(&mut self, lc: Option<u64>)
        ensures { self.new ≡ record self.old { registers = apply (written SetLc lc []) self.old.registers } }
    {
        if let Some(lc) = lc {
            self.lc = lc;
        }
    }

    /// Writes the epilog count, where there is a new one.
    fn set_epilog_count(&mut self, ec: Option<u64>)
        requires { IfSome ec (λ ec. ec < 64) }
        ensures { self.new ≡ record self.old { registers = apply (written SetEc ec []) self.old.registers } }
    {
        if let Some(ec) = ec {
            self.ec = ec;
        }
    }

    /// Writes p63, where there is a new value for it.
    #[tactic(auto, unfolding(ia_meaning::specs::Names::predicate_spot))]
    fn set_p63(&mut self, p63: Option<bool>)
        ensures { self.new ≡ record self.old { registers = apply (written (SetPredicate (predicate_index self.old.registers.frame 63)) p63 []) self.old.registers } }
    {
        if let Some(value) = p63 {
            self.set_predicate(Pr::of_field(63), value);
        }
    }

    /// Makes a turn of a loop: p63 is written before the registers rotate.
    #[tactic(auto, using(crate::proofs::Turns::turned, crate::proofs::Turns::still))]
    fn turn(&mut self, turn: Turn)
        requires { IfSome turn.ec (λ ec. ec < 64) }
        ensures { self.new ≡ record self.old { registers = apply (turn_writes turn self.old.registers.frame) self.old.registers } }
    {
        self.set_loop_count(turn.lc);
        self.set_epilog_count(turn.ec);
        self.set_p63(turn.p63);
        if turn.rotates {
            self.rotate();
        }
    }

    /// Enters the frame of a call.
    fn call(&mut self, b1: Br, address: u64)
        ensures { self.new ≡ left_by (outcome_with self.old (Called b1 address) Falls) self.old }
    {
        self.set_branch(b1, address);
        self.pfs = call_state(&self.stack.shape(), self.ec);
        self.stack.call();
    }

    /// Enters the frame of the previous function state, and takes its epilog count.
    #[tactic(auto, using(frame_shapes::proofs::Returns::return_free))]
    fn ret(&mut self)
        requires { return_fault self.old.registers.frame.base (marked_frame self.old.registers.frame.base self.old.registers.pfs) ≡ None }
        ensures { self.new ≡ left_by (outcome_with self.old Returned Falls) self.old }
    {
        self.stack.leave(self.pfs);
        self.ec = epilog_of(self.pfs);
    }

    /// Makes rename bases 0.
    #[tactic(auto, using(crate::proofs::Frames::renamed, frame_shapes::proofs::FrameEnds::cleared_end))]
    fn clear(&mut self, pred_only: bool)
        ensures { self.new ≡ record self.old { registers = put (SetFrame Renamed (cleared pred_only self.old.registers.frame)) self.old.registers } }
    {
        // By its shape the stack's cells end with the frame, so none is cut or filled up.
        self.stack.shape();
        self.stack.clear(pred_only);
    }

    /// Makes a change.
    #[inline(always)]
    #[tactic(auto, using(crate::proofs::MaskedWrites::no_frame))]
    pub fn apply(&mut self, change: &Change)
        requires { MayChange self.old change.now }
        ensures { self.new ≡ left_by (outcome_with self.old change.now Falls) self.old }
    {
        match *change {
            Change::Nothing => {}
            Change::General { r1, cell } => self.set_general(r1, cell),
            Change::Predicates {
                p1,
                first,
                p2,
                second,
            } => {
                self.set_predicate(p1, first);
                self.set_predicate(p2, second);
            }
            Change::PredicateWord { mask, word } => self.set_places(mask, word),
            Change::Branch { b1, value } => self.set_branch(b1, value),
            Change::Application { ar, value } => self.set_application(ar, value),
            Change::Loaded {
                r1,
                r3,
                invalidates,
                update,
                cell,
            } => {
                self.invalidate_where(invalidates, r1);
                self.load(r1, r3, &update, cell);
            }
            Change::Entered {
                r1,
                r3,
                size,
                update,
                cell,
            } => {
                self.enter(r1, r3, size);
                self.load(r1, r3, &update, cell);
            }
            Change::Hit {
                r1,
                r3,
                invalidates,
                update,
            } => {
                self.invalidate_where(invalidates, r1);
                self.hit(r3, &update);
            }
            Change::Stored {
                r3,
                size,
                spills,
                update,
                cell,
            } => self.store(r3, cell, size, spills, &update),
            Change::Exchanged {
                r1,
                r3,
                size,
                old,
                value,
            } => self.exchange(r1, r3, size, old, value),
            Change::Invalidated { r1 } => self.invalidate(r1),
            Change::AllInvalidated => self.alat.clear(),
            Change::Allocated { r1, sof, sol, sor } => self.allocate(r1, sof, sol, sor),
            Change::Turned { kind, qp } => self.turn(self.turn_of(kind, qp)),
            Change::Called { b1, address } => self.call(b1, address),
            Change::Returned => self.ret(),
            Change::Cleared { pred_only } => self.clear(pred_only),
        }
    }
}

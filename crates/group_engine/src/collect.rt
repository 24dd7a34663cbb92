//! Keeping the writes of what a slot does.

ghost use Rattle.std.specs.Prelude.{◌≡◌, ◌<◌, ◌≤◌, ◌+◌, ◌-◌, ◌/◌, ◌%◌, ◌^◌, false, [], ◌∷◌, None, IfSome, length};
ghost use Rattle.ia_meaning.specs.declared.limits.TheConstants.{STACK_LIMIT};
ghost use Rattle.ia_meaning.specs.declared.write.Write.TheVariants.{SetPredicate, SetBranch, SetPfs, SetLc, SetEc, SetFrame};
ghost use Rattle.ia_meaning.specs.declared.write.FrameCause.TheVariants.{Resized, Renamed};
ghost use Rattle.ia_meaning.specs.State.{Memory, IsFrame};
ghost use Rattle.ia_meaning.specs.Names.{spot, predicate_index, predicate_spot, set_predicate};
ghost use Rattle.ia_meaning.specs.Moves.{is_masked, masked_writes, predicate_writes};
ghost use Rattle.ia_meaning.specs.Frames.{with_sizes, rotated, cleared, epilog_of, call_state, call_frame, marked_frame, return_fault, returned_frame};
ghost use Rattle.ia_meaning.specs.Loops.{written, turn_writes};
ghost use Rattle.slot_effects.specs.Changes.{application_write, set_at, held, update_at, load_update, writes_of, FitsApplication, MayAllocate, MayMake};
ghost use Rattle.group_engine.specs.declared.limits.TheConstants.{SLOT_WRITE_LIMIT, WRITE_LIMIT};
ghost use Rattle.group_engine.specs.Kept.{keeping};

use crate::kept::KeptWrites;
use crate::registers::GroupRegisters;
use frame_shapes::{
    call_state, called, cell_of, cleared, epilog_of, returned_frame, rotated, with_sizes,
};
use ia_insn::{Ar, Br, Gr, Pr, Update};
use ia_meaning::{Cell, FrameCause, FrameShape, Turn, Write, update_register};
use integer_ops::bit;
use slot_effects::{Change, turn_of};

/// Whether a mask has a place: its own bit below 16, and bit 16 from there on.
fn is_masked(mask: u64, n: u8) -> bool
    requires { n < 64 }
    ensures { result ≡ is_masked mask n }
{
    bit(mask, n.min(16))
}

impl KeptWrites {
    /// Keeps the write of a general register of this frame; r0 is not written, and outside the frame nothing is.
    #[tactic(auto, using(crate::proofs::Collecting::static_written, crate::proofs::Collecting::r0_unwritten, crate::proofs::Keeping::kept_none))]
    fn keep_general(&mut self, frame: &FrameShape, r1: Gr, cell: Cell)
        requires frame { IsFrame frame.now }
        requires within { frame.now.base + frame.now.sof ≤ STACK_LIMIT }
        requires room { length self.old.writes < WRITE_LIMIT }
        ensures value { self.new ≡ keeping (set_at (spot frame.now r1) cell []) self.old }
        ensures few { length self.new.writes ≤ length self.old.writes + 1 }
    {
        let n = r1.number();
        if n >= 32 {
            if let Some(n) = cell_of(frame, r1) {
                self.keep(Write::SetCell(n, cell));
            }
        } else if n > 0 {
            self.keep(Write::SetStatic(n, cell));
        }
    }

    /// Keeps the write of a base to which something is added: `more`, or an immediate.
    #[inline(always)]
    fn keep_base(&mut self, frame: &FrameShape, r3: Gr, update: &Update, base: Cell, more: Cell)
        requires frame { IsFrame frame.now }
        requires within { frame.now.base + frame.now.sof ≤ STACK_LIMIT }
        requires room { length self.old.writes < WRITE_LIMIT }
        ensures value { self.new ≡ keeping (update_at (spot frame.now r3) update.now base more) self.old }
        ensures few { length self.new.writes ≤ length self.old.writes + 1 }
    {
        match *update {
            Update::None => {}
            Update::Reg(_) => self.keep_general(
                frame,
                r3,
                Cell {
                    value: base.value.wrapping_add(more.value),
                    nat: base.nat || more.nat,
                },
            ),
            Update::Imm(imm) => self.keep_general(
                frame,
                r3,
                Cell {
                    value: base.value.wrapping_add(i64::from(imm).cast_unsigned()),
                    nat: base.nat,
                },
            ),
        }
    }

    /// Keeps the write of the base of a load.
    #[inline(always)]
    fn keep_update(&mut self, registers: &GroupRegisters, r3: Gr, update: &Update)
        requires room { length self.old.writes < WRITE_LIMIT }
        ensures value { self.new ≡ keeping (load_update registers.now r3 update.now) self.old }
        ensures few { length self.new.writes ≤ length self.old.writes + 1 }
    {
        let base = registers.held(r3);
        let more = registers.held(update_register(update));
        self.keep_base(&registers.frame, r3, update, base, more);
    }

    /// Keeps the writes of a load: that of its target, and then that of its base.
    #[inline(always)]
    fn keep_load(&mut self, registers: &GroupRegisters, r1: Gr, r3: Gr, update: &Update, cell: Cell)
        requires room { length self.old.writes + 2 ≤ WRITE_LIMIT }
        ensures value { self.new ≡ keeping (set_at (spot registers.now.frame r1) cell (load_update registers.now r3 update.now)) self.old }
        ensures few { length self.new.writes ≤ length self.old.writes + 2 }
    {
        self.keep_general(&registers.frame, r1, cell);
        self.keep_update(registers, r3, update);
    }

    /// Keeps the write of a predicate; p0 is not written.
    #[tactic(auto, using(crate::proofs::Collecting::place_some, crate::proofs::Collecting::predicate_written, crate::proofs::Collecting::p0_unwritten, crate::proofs::Keeping::kept_none))]
    fn keep_predicate(&mut self, registers: &GroupRegisters, p: Pr, value: bool)
        requires room { length self.old.writes < WRITE_LIMIT }
        ensures value { self.new ≡ keeping (set_predicate (predicate_spot registers.now.frame p) value []) self.old }
        ensures few { length self.new.writes ≤ length self.old.writes + 1 }
    {
        if !p.is_zero() {
            self.keep(Write::SetPredicate(registers.predicate_index(p) as u8, value));
        }
    }

    /// Keeps the write of the n-th place, where a mask has it, from bit n of a word.
    #[tactic(auto, using(crate::proofs::Collecting::place_kept, crate::proofs::Collecting::place_left))]
    fn keep_place(&mut self, mask: u64, word: u64, n: u8)
        requires some { 1 ≤ n }
        requires most { n < 64 }
        requires room { length self.old.writes < WRITE_LIMIT }
        ensures value { keeping (masked_writes (64 - n) n mask word) self.old ≡ keeping (masked_writes (64 - (n + 1)) (n + 1) mask word) self.new }
        ensures few { length self.new.writes ≤ length self.old.writes + 1 }
    {
        if is_masked(mask, n) {
            self.keep(Write::SetPredicate(n, bit(word, n)));
        }
    }

    /// Keeps the writes of the places from 1 on that a mask has from the bits of a word.
    #[tactic(auto, unfolding(ia_meaning::specs::Moves::predicate_writes))]
    fn keep_places(&mut self, mask: u64, word: u64)
        requires room { length self.old.writes + SLOT_WRITE_LIMIT ≤ WRITE_LIMIT }
        ensures value { self.new ≡ keeping (predicate_writes mask word) self.old }
        ensures few { length self.new.writes ≤ length self.old.writes + SLOT_WRITE_LIMIT }
    {
        for n in 1..64 {
            self.keep_place(mask, word, n);
        }
    }

    /// Keeps the write of an application register.
    fn keep_application(&mut self, ar: Ar, value: u64)
        requires fits { FitsApplication ar value }
        requires room { length self.old.writes < WRITE_LIMIT }
        ensures value { self.new ≡ keeping (application_write ar value ∷ []) self.old }
        ensures few { length self.new.writes ≤ length self.old.writes + 1 }
    {
        match ar {
            Ar::Unat => self.keep(Write::SetUnat(value)),
            Ar::Pfs => self.keep(Write::SetPfs(value)),
            Ar::Lc => self.keep(Write::SetLc(value)),
            Ar::Ec => self.keep(Write::SetEc(value)),
        }
    }

    /// Keeps the write of a frame of other sizes, and that of the previous function state to a register of it.
    #[tactic(auto, using(frame_shapes::proofs::FrameEnds::alloc_free))]
    fn keep_allocated(&mut self, frame: &FrameShape, pfs: u64, r1: Gr, sof: u8, sol: u8, sor: u8)
        requires frame { IsFrame frame.now }
        requires within { frame.now.base + frame.now.sof ≤ STACK_LIMIT }
        requires may { MayAllocate frame.now sof sol sor }
        requires room { length self.old.writes + 2 ≤ WRITE_LIMIT }
        ensures value { self.new ≡ keeping (SetFrame Resized (with_sizes frame.now sof sol sor) ∷ set_at (spot (with_sizes frame.now sof sol sor) r1) (record { value = pfs; nat = false }) []) self.old }
        ensures few { length self.new.writes ≤ length self.old.writes + 2 }
    {
        let new = with_sizes(frame, sof, sol, sor);
        self.keep(Write::SetFrame(FrameCause::Resized, new));
        let previous = Cell {
            value: pfs,
            nat: false,
        };
        self.keep_general(&new, r1, previous);
    }

    /// Keeps the write of the loop count, where there is a new one.
    fn keep_loop_count(&mut self, lc: Option<u64>)
        requires room { length self.old.writes < WRITE_LIMIT }
        ensures value { self.new ≡ keeping (written SetLc lc []) self.old }
        ensures few { length self.new.writes ≤ length self.old.writes + 1 }
    {
        if let Some(lc) = lc {
            self.keep(Write::SetLc(lc));
        }
    }

    /// Keeps the write of the epilog count, where there is a new one.
    fn keep_epilog_count(&mut self, ec: Option<u64>)
        requires fits { IfSome ec (λ ec. ec < 64) }
        requires room { length self.old.writes < WRITE_LIMIT }
        ensures value { self.new ≡ keeping (written SetEc ec []) self.old }
        ensures few { length self.new.writes ≤ length self.old.writes + 1 }
    {
        if let Some(ec) = ec {
            self.keep(Write::SetEc(ec));
        }
    }

    /// Keeps the write of p63, where there is a new value for it.
    #[tactic(auto, unfolding(ia_meaning::specs::Names::predicate_spot))]
    fn keep_p63(&mut self, registers: &GroupRegisters, p63: Option<bool>)
        requires room { length self.old.writes < WRITE_LIMIT }
        ensures value { self.new ≡ keeping (written (SetPredicate (predicate_index registers.now.frame 63)) p63 []) self.old }
        ensures few { length self.new.writes ≤ length self.old.writes + 1 }
    {
        if let Some(value) = p63 {
            self.keep_predicate(registers, Pr::of_field(63), value);
        }
    }

    /// Keeps the writes of a turn of a loop: that of p63 comes before that of the rotated frame.
    #[inline(always)]
    #[tactic(auto, using(frame_shapes::proofs::FrameEnds::rotated_end))]
    fn keep_turn(&mut self, registers: &GroupRegisters, turn: Turn)
        requires fits { IfSome turn.ec (λ ec. ec < 64) }
        requires room { length self.old.writes + 4 ≤ WRITE_LIMIT }
        ensures value { self.new ≡ keeping (turn_writes turn registers.now.frame) self.old }
        ensures few { length self.new.writes ≤ length self.old.writes + 4 }
    {
        self.keep_loop_count(turn.lc);
        self.keep_epilog_count(turn.ec);
        self.keep_p63(registers, turn.p63);
        if turn.rotates {
            let frame = rotated(&registers.frame);
            self.keep(Write::SetFrame(FrameCause::Renamed, frame));
        }
    }

    /// Keeps the writes of a call: its return address, the previous function state, and its frame.
    fn keep_call(&mut self, registers: &GroupRegisters, b1: Br, address: u64)
        requires room { length self.old.writes + 3 ≤ WRITE_LIMIT }
        ensures value { self.new ≡ keeping (SetBranch b1 address ∷ SetPfs (call_state registers.now.frame registers.now.ec) ∷ SetFrame Resized (call_frame registers.now.frame) ∷ []) self.old }
        ensures few { length self.new.writes ≤ length self.old.writes + 3 }
    {
        b1.has_three_bits();
        self.keep(Write::SetBranch(b1.number(), address));
        self.keep(Write::SetPfs(call_state(&registers.frame, registers.ec)));
        let frame = called(&registers.frame);
        self.keep(Write::SetFrame(FrameCause::Resized, frame));
    }

    /// Keeps the writes of a return from a frame at a base: the frame and the epilog count of a previous function
    /// state.
    fn keep_return(&mut self, base: u32, pfs: u64)
        requires base { base ≤ STACK_LIMIT }
        requires may { return_fault base (marked_frame base pfs) ≡ None }
        requires room { length self.old.writes + 2 ≤ WRITE_LIMIT }
        ensures value { self.new ≡ keeping (SetFrame Resized (returned_frame base pfs) ∷ SetEc (epilog_of pfs) ∷ []) self.old }
        ensures few { length self.new.writes ≤ length self.old.writes + 2 }
    {
        let frame = returned_frame(base, pfs);
        self.keep(Write::SetFrame(FrameCause::Resized, frame));
        self.keep(Write::SetEc(epilog_of(pfs)));
    }

    /// Keeps the writes of a change of these registers, with this previous function state in place of theirs.
    #[inline(always)]
    #[tactic(auto, using(crate::proofs::Collecting::look_with_pfs, frame_shapes::proofs::FrameEnds::cleared_end, crate::proofs::Keeping::kept_none))]
    pub fn collect(&mut self, registers: &GroupRegisters, pfs: u64, change: &Change)
        requires may { (m : Memory) × MayMake (record registers.now { pfs = pfs }) m change.now }
        requires room { length self.old.writes + SLOT_WRITE_LIMIT ≤ WRITE_LIMIT }
        ensures value { self.new ≡ keeping (writes_of (record registers.now { pfs = pfs }) change.now) self.old }
        ensures few { length self.new.writes ≤ length self.old.writes + SLOT_WRITE_LIMIT }
    {
        match *change {
            Change::Nothing | Change::Invalidated { .. } | Change::AllInvalidated => {}
            Change::General { r1, cell } => self.keep_general(&registers.frame, r1, cell),
            Change::Predicates {
                p1,
                first,
                p2,
                second,
            } => {
                self.keep_predicate(registers, p1, first);
                self.keep_predicate(registers, p2, second);
            }
            Change::PredicateWord { mask, word } => self.keep_places(mask, word),
            Change::Branch { b1, value } => {
                b1.has_three_bits();
                self.keep(Write::SetBranch(b1.number(), value));
            }
            Change::Application { ar, value } => self.keep_application(ar, value),
            Change::Loaded {
                r1,
                r3,
                update,
                cell,
                ..
            }
            | Change::Entered {
                r1,
                r3,
                update,
                cell,
                ..
            } => self.keep_load(registers, r1, r3, &update, cell),
            Change::Hit { r3, update, .. } => self.keep_update(registers, r3, &update),
            Change::Stored { r3, update, .. } => {
                let zero = Cell {
                    value: 0,
                    nat: false,
                };
                let base = registers.held(r3);
                self.keep_base(&registers.frame, r3, &update, base, zero);
            }
            Change::Exchanged { r1, old, .. } => {
                let previous = Cell {
                    value: old,
                    nat: false,
                };
                self.keep_general(&registers.frame, r1, previous);
            }
            Change::Allocated { r1, sof, sol, sor } => {
                self.keep_allocated(&registers.frame, pfs, r1, sof, sol, sor);
            }
            Change::Turned { kind, qp } => {
                self.keep_turn(registers, turn_of(kind, qp, registers.lc, registers.ec));
            }
            Change::Called { b1, address } => self.keep_call(registers, b1, address),
            Change::Returned => self.keep_return(registers.frame.base, pfs),
            Change::Cleared { pred_only } => {
                let frame = cleared(&registers.frame, pred_only);
                self.keep(Write::SetFrame(FrameCause::Renamed, frame));
            }
        }
    }
}

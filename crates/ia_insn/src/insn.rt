//! Instructions.

ghost use Rattle.std.specs.Prelude.{◌≡◌};

use crate::choices::{
    AluFn, BranchKind, CmpKind, LaneFn, LoadKind, Rel, ShiftFn, StoreKind, Unit, Update,
};
use crate::registers::{Ar, Br, Gr, Pr};

/// An instruction with its qualifying predicate (volume 1, chapter 3, instruction encoding). A
/// value need not be an instruction of the machine: `is_listed` says which are, and `fits` in which slots.
#[derive(Clone, Copy)]
pub struct Insn {
    /// The qualifying predicate: where it is 0, only tests of type `unc` and loop branches do anything.
    pub qp: Pr,
    /// The rest of the instruction.
    pub op: Op,
}

/// What an instruction does and with which operands (volume 3, chapter 2). Each variant names its
/// formats (volume 3, chapter 4), and a field's ranges are those of a listed instruction.
#[derive(Clone, Copy)]
pub enum Op {
    /// `f` of `r2` and `r3` into `r1` (A1).
    Alu {
        /// The operation.
        f: AluFn,
        /// The target.
        r1: Gr,
        /// The first operand.
        r2: Gr,
        /// The second operand.
        r3: Gr,
    },
    /// `r2` shifted left by `count`, plus `r3`, into `r1` (A2).
    ShlAdd {
        /// Whether the sum is a pointer of 32 bits.
        p4: bool,
        /// The target.
        r1: Gr,
        /// What is shifted.
        r2: Gr,
        /// The count, 1 to 4.
        count: u8,
        /// What is added.
        r3: Gr,
    },
    /// `f` of `imm` and `r3` into `r1` (A3).
    AluImm8 {
        /// The operation: Sub, And, Andcm, Or or Xor.
        f: AluFn,
        /// The target.
        r1: Gr,
        /// The first operand, -128 to 127.
        imm: i64,
        /// The second operand.
        r3: Gr,
    },
    /// `imm` plus `r3` into `r1` (A4).
    AddImm14 {
        /// Whether the sum is a pointer of 32 bits.
        p4: bool,
        /// The target.
        r1: Gr,
        /// The first operand, -8192 to 8191.
        imm: i64,
        /// The second operand.
        r3: Gr,
    },
    /// `imm` plus `r3` into `r1` (A5).
    AddImm22 {
        /// The target.
        r1: Gr,
        /// The first operand, -2097152 to 2097151.
        imm: i64,
        /// The second operand, r0 to r3.
        r3: Gr,
    },
    /// A compare of `r2` and `r3` into `p1` and `p2` (A6).
    Cmp {
        /// Whether the low four bytes are compared.
        four_bytes: bool,
        /// The relation (crel).
        rel: Rel,
        /// What is done with the result (ctype).
        kind: CmpKind,
        /// The first target.
        p1: Pr,
        /// The second target.
        p2: Pr,
        /// The first operand.
        r2: Gr,
        /// The second operand.
        r3: Gr,
    },
    /// A compare of r0 and `r3` into `p1` and `p2` (A7).
    CmpZero {
        /// Whether the low four bytes are compared.
        four_bytes: bool,
        /// The relation (crel): Gt, Le, Ge or Lt.
        rel: Rel,
        /// What is done with the result (ctype): And, Or or OrAndcm.
        kind: CmpKind,
        /// The first target.
        p1: Pr,
        /// The second target.
        p2: Pr,
        /// The second operand.
        r3: Gr,
    },
    /// A compare of `imm` and `r3` into `p1` and `p2` (A8).
    CmpImm {
        /// Whether the low four bytes are compared.
        four_bytes: bool,
        /// The relation (crel).
        rel: Rel,
        /// What is done with the result (ctype).
        kind: CmpKind,
        /// The first target.
        p1: Pr,
        /// The second target.
        p2: Pr,
        /// The first operand, -128 to 127.
        imm: i64,
        /// The second operand.
        r3: Gr,
    },
    /// `f` of each lane of `r2` and the same one of `r3`, into that lane of `r1` (A9).
    Lane {
        /// The operation.
        f: LaneFn,
        /// How many bytes a lane has: 1, 2 or 4.
        size: u8,
        /// The target.
        r1: Gr,
        /// The first operand.
        r2: Gr,
        /// The second operand.
        r3: Gr,
    },
    /// `value` shifted by `count` into `r1` (I5 and I7).
    ShiftVar {
        /// The direction and the filling.
        f: ShiftFn,
        /// The target.
        r1: Gr,
        /// What is shifted.
        value: Gr,
        /// The count, unsigned.
        count: Gr,
    },
    /// How many bits of `r3` are 1, into `r1` (I9).
    Popcnt {
        /// The target.
        r1: Gr,
        /// The operand.
        r3: Gr,
    },
    /// `r2` above `r3`, shifted right by `count`, into `r1` (I10).
    Shrp {
        /// The target.
        r1: Gr,
        /// The high half.
        r2: Gr,
        /// The low half.
        r3: Gr,
        /// The count, 0 to 63.
        count: u8,
    },
    /// A field of `r3` into `r1` (I11).
    Extr {
        /// Whether the field is sign-extended.
        signed: bool,
        /// The target.
        r1: Gr,
        /// The operand.
        r3: Gr,
        /// The field's lowest bit, 0 to 63.
        pos: u8,
        /// The field's length in bits, 1 to 64.
        len: u8,
    },
    /// The low bits of `r2` as a field of `r1`, zeros elsewhere (I12).
    DepZ {
        /// The target.
        r1: Gr,
        /// The operand.
        r2: Gr,
        /// The field's lowest bit, 0 to 63.
        pos: u8,
        /// The field's length in bits, 1 to 64.
        len: u8,
    },
    /// The low bits of `imm` as a field of `r1`, zeros elsewhere (I13).
    DepZImm {
        /// The target.
        r1: Gr,
        /// The operand, -128 to 127.
        imm: i64,
        /// The field's lowest bit, 0 to 63.
        pos: u8,
        /// The field's length in bits, 1 to 64.
        len: u8,
    },
    /// `r3` with zeros or ones in a field, into `r1` (I14).
    DepImm {
        /// The target.
        r1: Gr,
        /// Whether the field is filled with ones.
        ones: bool,
        /// What is kept outside the field.
        r3: Gr,
        /// The field's lowest bit, 0 to 63.
        pos: u8,
        /// The field's length in bits, 1 to 64.
        len: u8,
    },
    /// `r3` with the low bits of `r2` in a field, into `r1` (I15).
    Dep {
        /// The target.
        r1: Gr,
        /// What fills the field.
        r2: Gr,
        /// What is kept outside the field.
        r3: Gr,
        /// The field's lowest bit, 0 to 63.
        pos: u8,
        /// The field's length in bits, 1 to 16.
        len: u8,
    },
    /// Whether a bit of `r3` is 0, into `p1` and `p2` (I16).
    Tbit {
        /// Whether both targets are cleared where the qualifying predicate is 0.
        unc: bool,
        /// The first target.
        p1: Pr,
        /// The second target.
        p2: Pr,
        /// The operand.
        r3: Gr,
        /// The bit, 0 to 63.
        pos: u8,
    },
    /// Whether the NaT bit of `r3` is 0, into `p1` and `p2` (I17).
    Tnat {
        /// Whether both targets are cleared where the qualifying predicate is 0.
        unc: bool,
        /// The first target.
        p1: Pr,
        /// The second target.
        p2: Pr,
        /// The operand.
        r3: Gr,
    },
    /// A branch where `r2` has NaT (I20 and M20).
    ChkS {
        /// The unit: I or M.
        unit: Unit,
        /// The register that is checked.
        r2: Gr,
        /// The target, in bundles from this one, -1048576 to 1048575.
        disp: i32,
    },
    /// `r2` into `b1` (I21).
    MovToBr {
        /// The target.
        b1: Br,
        /// The source.
        r2: Gr,
        /// Whether the hint is for a return.
        ret: bool,
        /// The importance hint (ih): whether it is imp.
        imp: bool,
        /// The whether hint of the move (mwh): 0 sptk, 1 none, 2 dptk.
        wh: u8,
        /// The place that the hint is for, in bundles from this one, -256 to 255.
        tag: i16,
    },
    /// `b2` into `r1` (I22).
    MovFromBr {
        /// The target.
        r1: Gr,
        /// The source.
        b2: Br,
    },
    /// `r2` into the predicates under `mask` (I23).
    MovToPr {
        /// The source.
        r2: Gr,
        /// Bit n for predicate n from 1 to 15, and bit 16 for the rotating ones. It has 17 bits, the
        /// lowest zero.
        mask: u32,
    },
    /// `imm` into the rotating predicates (I24).
    MovToPrRot {
        /// 44 bits, signed, a multiple of 65536.
        imm: i64,
    },
    /// The address of the bundle into `r1` (I25).
    MovFromIp {
        /// The target.
        r1: Gr,
    },
    /// The predicates into `r1` (I25).
    MovFromPr {
        /// The target.
        r1: Gr,
    },
    /// `r2` into an application register (I26 and M29).
    MovToAr {
        /// The target, which decides the unit.
        ar: Ar,
        /// The source.
        r2: Gr,
    },
    /// `imm` into an application register (I27 and M30).
    MovToArImm {
        /// The target, which decides the unit.
        ar: Ar,
        /// The source, -128 to 127.
        imm: i64,
    },
    /// An application register into `r1` (I28 and M31).
    MovFromAr {
        /// The target.
        r1: Gr,
        /// The source, which decides the unit.
        ar: Ar,
    },
    /// The low bytes of `r3`, extended, into `r1` (I29).
    Ext {
        /// Whether they are sign-extended.
        signed: bool,
        /// How many bytes: 1, 2 or 4.
        size: u8,
        /// The target.
        r1: Gr,
        /// The operand.
        r3: Gr,
    },
    /// A load from the address `r3` into `r1` (M1 to M3).
    Load {
        /// How many bytes: 1, 2, 4 or 8.
        size: u8,
        /// The load type (ldtype).
        kind: LoadKind,
        /// The cache hint (ldhint): 0 none, 1 nt1, 3 nta.
        hint: u8,
        /// The target.
        r1: Gr,
        /// The base, which holds the address.
        r3: Gr,
        /// What is added to the base.
        update: Update,
    },
    /// A store of `r2` to the address `r3` (M4 and M5).
    Store {
        /// How many bytes: 1, 2, 4 or 8.
        size: u8,
        /// The store type (sttype).
        kind: StoreKind,
        /// The cache hint (sthint): 0 none, 3 nta.
        hint: u8,
        /// The base, which holds the address.
        r3: Gr,
        /// The source.
        r2: Gr,
        /// What is added to the base, which is no register.
        update: Update,
    },
    /// `r2` to the address `r3`, and what was there into `r1`, zero-extended (M16).
    Xchg {
        /// How many bytes: 1, 2, 4 or 8.
        size: u8,
        /// The cache hint (ldhint): 0 none, 1 nt1, 3 nta.
        hint: u8,
        /// The target.
        r1: Gr,
        /// The base, which holds the address.
        r3: Gr,
        /// The source.
        r2: Gr,
    },
    /// `inc` is added to what is at the address `r3`, and what was there goes into `r1`, zero-extended (M17).
    FetchAdd {
        /// How many bytes: 4 or 8.
        size: u8,
        /// The semaphore type (sem): whether it is rel, ordered after what precedes, and not acq, ordered before
        /// what follows.
        release: bool,
        /// The cache hint (ldhint): 0 none, 1 nt1, 3 nta.
        hint: u8,
        /// The target.
        r1: Gr,
        /// The base, which holds the address.
        r3: Gr,
        /// The increment (inc3): 1, 4, 8 or 16, or one of these with a minus sign.
        inc: i16,
    },
    /// A branch where the ALAT has no entry of `r1` (M22).
    ChkA {
        /// Whether an entry that is found is removed.
        clear: bool,
        /// The register that is checked.
        r1: Gr,
        /// The target, in bundles from this one, -1048576 to 1048575.
        disp: i32,
    },
    /// Removes all entries of the ALAT (M24).
    Invala,
    /// A memory fence (M24).
    Mf,
    /// Removes the entry of `r1` from the ALAT (M26).
    InvalaE {
        /// The register.
        r1: Gr,
    },
    /// A new register stack frame, and the previous function state into `r1` (M34).
    Alloc {
        /// The target.
        r1: Gr,
        /// The size of the frame, 0 to 96.
        sof: u8,
        /// The size of its locals, at most `sof`.
        sol: u8,
        /// The size of its rotating part in eights; 8 * `sor` is at most `sof`.
        sor: u8,
    },
    /// A direct branch (B1 and B2).
    Br {
        /// The branch type (btype).
        kind: BranchKind,
        /// The branch whether hint (bwh): 0 sptk, 1 spnt, 2 dptk, 3 dpnt.
        wh: u8,
        /// The prefetch hint (ph): whether it is many, and not few.
        many: bool,
        /// The branch cache deallocation hint (dh): whether it is clr.
        clr: bool,
        /// The target, in bundles from this one, -1048576 to 1048575.
        disp: i32,
    },
    /// A direct call (B3).
    BrCall {
        /// The register for the address after it.
        b1: Br,
        /// The branch whether hint (bwh): 0 sptk, 1 spnt, 2 dptk, 3 dpnt.
        wh: u8,
        /// The prefetch hint (ph): whether it is many, and not few.
        many: bool,
        /// The branch cache deallocation hint (dh): whether it is clr.
        clr: bool,
        /// The target, in bundles from this one, -1048576 to 1048575.
        disp: i32,
    },
    /// A branch to the address in `b2` (B4).
    BrInd {
        /// The register with the target.
        b2: Br,
        /// The branch whether hint (bwh): 0 sptk, 1 spnt, 2 dptk, 3 dpnt.
        wh: u8,
        /// The prefetch hint (ph): whether it is many, and not few.
        many: bool,
        /// The branch cache deallocation hint (dh): whether it is clr.
        clr: bool,
    },
    /// A return to the address in `b2` (B4).
    BrRet {
        /// The register with the target.
        b2: Br,
        /// The branch whether hint (bwh): 0 sptk, 1 spnt, 2 dptk, 3 dpnt.
        wh: u8,
        /// The prefetch hint (ph): whether it is many, and not few.
        many: bool,
        /// The branch cache deallocation hint (dh): whether it is clr.
        clr: bool,
    },
    /// A call of the address in `b2` (B5).
    BrCallInd {
        /// The register for the address after it.
        b1: Br,
        /// The register with the target.
        b2: Br,
        /// The branch whether hint (bwh): 0 sptk, 1 spnt, 2 dptk, 3 dpnt.
        wh: u8,
        /// The prefetch hint (ph): whether it is many, and not few.
        many: bool,
        /// The branch cache deallocation hint (dh): whether it is clr.
        clr: bool,
    },
    /// Clears the rotating register bases (B8).
    Clrrrb {
        /// Whether it clears that of the predicates alone.
        pred_only: bool,
    },
    /// `imm` into `r1` (X2).
    Movl {
        /// The target.
        r1: Gr,
        /// The source.
        imm: u64,
    },
    /// Ends the run (M37, I19, B9, F15 and X1).
    Break {
        /// The unit: M, I, B, F or X.
        unit: Unit,
        /// The number, of 21 bits, in unit X of 62.
        imm: u64,
    },
    /// Does nothing (M48, I18, B9, F16 and X5).
    Nop {
        /// The unit: M, I, B, F or X.
        unit: Unit,
        /// The number, of 21 bits, in unit X of 62.
        imm: u64,
    },
    /// A hint, which does nothing (M48, I18 and B9).
    Hint {
        /// The unit: M, I or B.
        unit: Unit,
        /// The number, of 21 bits.
        imm: u64,
    },
}

impl Op {
    ghost use Rattle.ia_insn.specs.Displacements.{displacement};

    /// How many bundles from its own the target of a direct branch or check is. None exactly for
    /// other operations.
    pub fn displacement(&self) -> Option<i32>
        ensures { result ≡ displacement self.now }
    {
        match self {
            Op::ChkS { disp, .. }
            | Op::ChkA { disp, .. }
            | Op::Br { disp, .. }
            | Op::BrCall { disp, .. } => Some(*disp),
            _ => None,
        }
    }
}

impl Default for Insn {
    ghost use Rattle.ia_insn.specs.declared.insn.Op.TheVariants.{Nop};
    ghost use Rattle.ia_insn.specs.declared.choices.Unit.TheVariants.{M};

    ghost is_default = { λ i. i ≡ record { qp = 0; op = Nop M 0 } };

    /// `nop.m 0`.
    fn default() -> Self {
        Insn {
            qp: Pr::default(),
            op: Op::Nop {
                unit: Unit::M,
                imm: 0,
            },
        }
    }
}

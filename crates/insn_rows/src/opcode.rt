//! Opcodes: instructions without their operands.

use ia_insn::{AluFn, Ar, BranchKind, CmpKind, LaneFn, LoadKind, Rel, ShiftFn, StoreKind, Unit};

/// What a load or a store adds to its base register, without the register or the number.
#[derive(Clone, Copy, Debug, PartialEq, Eq)]
pub enum UpdateKind {
    /// Nothing.
    None,
    /// A register.
    Reg,
    /// A number.
    Imm,
}

/// An operation without its operands: what tells the rows apart. The variants are those of `Op`, in its order.
#[derive(Clone, Copy)]
pub enum Opcode {
    /// An operation on two registers.
    Alu(AluFn),
    /// Shift left and add.
    ShlAdd,
    /// An operation on an immediate of 8 bits and a register.
    AluImm8(AluFn),
    /// An addition of an immediate of 14 bits.
    AddImm14,
    /// An addition of an immediate of 22 bits.
    AddImm22,
    /// A compare of two registers.
    Cmp(Rel, CmpKind),
    /// A compare of r0 and a register.
    CmpZero(Rel, CmpKind),
    /// A compare of an immediate and a register.
    CmpImm(Rel, CmpKind),
    /// An operation on lanes.
    Lane(LaneFn),
    /// A shift by a register.
    ShiftVar(ShiftFn),
    /// A population count.
    Popcnt,
    /// A shift right of a pair.
    Shrp,
    /// Extract.
    Extr,
    /// Zero and deposit.
    DepZ,
    /// Zero and deposit of an immediate of 8 bits.
    DepZImm,
    /// Deposit of an immediate of one bit.
    DepImm,
    /// Deposit.
    Dep,
    /// Test a bit.
    Tbit,
    /// Test NaT.
    Tnat,
    /// A speculation check.
    ChkS(Unit),
    /// A move to a branch register.
    MovToBr,
    /// A move from a branch register.
    MovFromBr,
    /// A move to the predicates under a mask.
    MovToPr,
    /// A move of an immediate to the rotating predicates.
    MovToPrRot,
    /// A move from the instruction pointer.
    MovFromIp,
    /// A move from the predicates.
    MovFromPr,
    /// A move to an application register.
    MovToAr(Ar),
    /// A move of an immediate to an application register.
    MovToArImm(Ar),
    /// A move from an application register.
    MovFromAr(Ar),
    /// A zero or sign extension.
    Ext,
    /// A load.
    Load(LoadKind, UpdateKind),
    /// A store.
    Store(StoreKind, UpdateKind),
    /// An exchange.
    Xchg,
    /// A fetch-and-add.
    FetchAdd,
    /// An advanced load check.
    ChkA,
    /// The invalidation of the ALAT.
    Invala,
    /// A memory fence.
    Mf,
    /// The invalidation of an ALAT entry.
    InvalaE,
    /// The allocation of a register stack frame.
    Alloc,
    /// A direct branch.
    Br(BranchKind),
    /// A direct call.
    BrCall,
    /// An indirect branch.
    BrInd,
    /// A return.
    BrRet,
    /// An indirect call.
    BrCallInd,
    /// The clearing of the rotating register bases.
    Clrrrb,
    /// A move of an immediate of 64 bits.
    Movl,
    /// The end of the run.
    Break(Unit),
    /// No operation.
    Nop(Unit),
    /// A hint.
    Hint(Unit),
}

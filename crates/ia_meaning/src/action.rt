//! The actions of instructions: what each does.

ghost use Rattle.std.specs.Prelude.{◌≡◌};
ghost use Rattle.ia_insn.specs.Ranges.{HasRanges};
ghost use Rattle.ia_meaning.specs.ActionRanges.{HasActionRanges};
ghost use Rattle.ia_meaning.specs.Actions.{test_kind, addition, filling, branch_action, action_of};
ghost use Rattle.ia_meaning.specs.Loads.{update_register};
ghost use Rattle.ia_meaning.specs.declared.action.Action.TheVariants.{Compute, Test};

use ia_insn::{
    AluFn, Ar, Br, BranchKind, CmpKind, Gr, LaneFn, LoadKind, Op, Pr, Rel, ShiftFn, StoreKind,
    Unit, Update,
};

/// What an [`Action::Fetch`] copies into a general register.
#[derive(Clone, Copy)]
pub enum FetchSource {
    /// A branch register.
    Branch(Br),
    /// An application register.
    Application(Ar),
    /// The predicates as a word, by their indexes without rotation.
    Predicates,
    /// The address of the bundle.
    Ip,
}

/// Where an [`Action::Call`] goes.
#[derive(Clone, Copy)]
pub enum CallTarget {
    /// A number of bundles from the instruction's own.
    Direct(i32),
    /// The address in a branch register.
    Indirect(Br),
}

/// What an [`Action::Compute`] computes of the values of its first and second operand.
#[derive(Clone, Copy)]
pub enum Function {
    /// An operation of the arithmetic and logic unit on both.
    Alu(AluFn),
    /// The first shifted left by `count`, 1 to 4, plus the second; a pointer of 32 bits where `p4` is set.
    ShiftAdd { p4: bool, count: u8 },
    /// An operation of the arithmetic and logic unit on an immediate and the second.
    AluImmediate { f: AluFn, imm: i64 },
    /// An operation on each lane of both, of `size` bytes, 1, 2 or 4.
    Lanes { f: LaneFn, size: u8 },
    /// The first shifted by the second.
    Shift(ShiftFn),
    /// How many bits of the second are 1.
    Popcount,
    /// The first above the second, shifted right by `count`, 0 to 63.
    ShiftPair { count: u8 },
    /// The field of the second of `len` bits, 1 to 64, from `pos`, 0 to 63, on; where `signed` is set, with
    /// its sign.
    Extract { signed: bool, pos: u8, len: u8 },
    /// The second with the low bits of the first in such a field.
    Deposit { pos: u8, len: u8 },
    /// The second with the low bits of an immediate in such a field.
    DepositImmediate { pos: u8, len: u8, imm: i64 },
    /// The low `size` bytes of the second, 1, 2 or 4; where `signed` is set, with their sign.
    Extend { signed: bool, size: u8 },
    /// An immediate.
    Immediate(u64),
}

/// What an [`Action::Test`] tests of its first and second operand.
#[derive(Clone, Copy)]
pub enum Condition {
    /// The relation of both or, where `four_bytes` is set, of their low four bytes.
    Compare {
        four_bytes: bool,
        rel: Rel,
    },
    /// The relation of an immediate and the second register or, where `four_bytes` is set, of their low four bytes.
    CompareImmediate {
        four_bytes: bool,
        rel: Rel,
        imm: i64,
    },
    /// Whether bit `pos`, 0 to 63, of the second is 0.
    BitIsZero {
        pos: u8,
    },
    /// Whether the NaT bit of the second is 0.
    NatIsZero,
}

/// What an [`Action::ToPredicates`] or an [`Action::ToApplication`] moves.
#[derive(Clone, Copy)]
pub enum MovedWord {
    /// The value of the source.
    Register,
    /// An immediate.
    Immediate(i64),
}

/// The action of an instruction: what it reads, what it computes, what it writes and how it goes on. r0 stands
/// for an operand that the action has and the instruction lacks: it reads 0. A displacement `disp` is in
/// bundles from the instruction's own. The small fields stand first, which keeps an action at 24 bytes.
#[derive(Clone, Copy)]
pub enum Action {
    /// The function of `r2` and `r3` goes into `r1`.
    Compute {
        r1: Gr,
        r2: Gr,
        r3: Gr,
        function: Function,
    },
    /// A copy goes into `r1`.
    Fetch {
        r1: Gr,
        source: FetchSource,
    },
    /// The condition on `r2` and `r3` goes into `p1` and `p2`, by the kind of the test.
    Test {
        kind: CmpKind,
        p1: Pr,
        p2: Pr,
        r2: Gr,
        r3: Gr,
        condition: Condition,
    },
    /// A word goes into the predicates under `mask`: its bit n is for place n from 1 to 15, and bit 16 for
    /// places 16 to 63.
    ToPredicates {
        r2: Gr,
        mask: u32,
        word: MovedWord,
    },
    /// `r2` goes into a branch register.
    ToBranch {
        b1: Br,
        r2: Gr,
    },
    /// A word goes into an application register.
    ToApplication {
        ar: Ar,
        r2: Gr,
        word: MovedWord,
    },
    /// A load of `size` bytes into `r1` from the address in `r3`, the base, to which `update` is added.
    FromMemory {
        size: u8,
        kind: LoadKind,
        r1: Gr,
        r3: Gr,
        update: Update,
    },
    /// A store of `size` bytes of `r2` to the address in `r3`, the base, to which `update` is added.
    ToMemory {
        size: u8,
        kind: StoreKind,
        r3: Gr,
        r2: Gr,
        update: Update,
    },
    /// An exchange of `size` bytes at the address in `r3`, the base, with `r2` or, where `inc` is one, with their
    /// sum with it; what was there goes into `r1`.
    Exchange {
        size: u8,
        r1: Gr,
        r3: Gr,
        r2: Gr,
        inc: Option<i16>,
    },
    /// A branch where `r2` has NaT.
    CheckNat {
        r2: Gr,
        disp: i32,
    },
    /// A branch where the ALAT has no entry of `r1`; where `clear` is set, one that is found is removed.
    CheckAlat {
        clear: bool,
        r1: Gr,
        disp: i32,
    },
    /// All entries leave the ALAT.
    InvalidateAll,
    /// The entry of `r1` leaves the ALAT.
    Invalidate {
        r1: Gr,
    },
    /// A new frame of `sof` registers, `sol` of them locals and 8 * `sor` rotating, and the previous function
    /// state into `r1`.
    Allocate {
        r1: Gr,
        sof: u8,
        sol: u8,
        sor: u8,
    },
    /// A direct branch.
    Jump {
        disp: i32,
    },
    /// A branch to the address in `b2`.
    JumpIndirect {
        b2: Br,
    },
    /// A loop branch, whose kind isn't `Cond`.
    Loop {
        kind: BranchKind,
        disp: i32,
    },
    /// A call, which leaves the address after it in `b1`.
    Call {
        b1: Br,
        callee: CallTarget,
    },
    /// A return to the address in `b2`.
    Return {
        b2: Br,
    },
    /// The register rename bases become 0, or that of the predicates alone.
    ClearBases {
        pred_only: bool,
    },
    /// The run ends with the number `imm`.
    Stop {
        unit: Unit,
        imm: u64,
    },
    /// Nothing. The unit of a fence is M.
    Idle {
        unit: Unit,
    },
}

/// The register that a load adds to its base, r0 where it adds none.
pub fn update_register(update: &Update) -> Gr
    ensures { result ≡ update_register update.now }
{
    match *update {
        Update::Reg(r2) => r2,
        _ => Gr::of_field(0),
    }
}

/// The kind of a test of a bit.
fn test_kind(unc: bool) -> CmpKind
    ensures { result ≡ test_kind unc }
{
    if unc { CmpKind::Unc } else { CmpKind::Normal }
}

/// The addition of an immediate, as a pointer of 32 bits or not.
fn addition(p4: bool) -> AluFn
    ensures { result ≡ addition p4 }
{
    if p4 { AluFn::Addp4 } else { AluFn::Add }
}

/// The immediate with ones in each bit, or zeros.
fn filling(ones: bool) -> i64
    ensures { result ≡ filling ones }
{
    if ones { -1 } else { 0 }
}

/// The action of a direct branch.
fn branch_action(kind: BranchKind, disp: i32) -> Action
    ensures { result ≡ branch_action kind disp }
{
    match kind {
        BranchKind::Cond => Action::Jump { disp },
        kind => Action::Loop { kind, disp },
    }
}

/// The action of a computation.
fn compute(r1: Gr, r2: Gr, r3: Gr, function: Function) -> Action
    ensures { result ≡ Compute r1 r2 r3 function }
{
    Action::Compute {
        r1,
        r2,
        r3,
        function,
    }
}

/// The action of a test.
fn test(kind: CmpKind, p1: Pr, p2: Pr, r2: Gr, r3: Gr, condition: Condition) -> Action
    ensures { result ≡ Test kind p1 p2 r2 r3 condition }
{
    Action::Test {
        kind,
        p1,
        p2,
        r2,
        r3,
        condition,
    }
}

/// The action of an operation. That of one whose operands have their ranges, as those of a listed
/// instruction have, has its own.
#[tactic(auto, using(crate::proofs::ActionRanges::action_ranges))]
pub fn action_of(op: &Op) -> Action
    ensures action { result ≡ action_of op.now }
    ensures ranges { HasRanges op.now → HasActionRanges result }
{
    let r0 = Gr::of_field(0);
    match *op {
        Op::Alu { f, r1, r2, r3 } => compute(r1, r2, r3, Function::Alu(f)),
        Op::ShlAdd {
            p4,
            r1,
            r2,
            count,
            r3,
        } => compute(r1, r2, r3, Function::ShiftAdd { p4, count }),
        Op::AluImm8 { f, r1, imm, r3 } => compute(r1, r0, r3, Function::AluImmediate { f, imm }),
        Op::AddImm14 { p4, r1, imm, r3 } => {
            let f = addition(p4);
            compute(r1, r0, r3, Function::AluImmediate { f, imm })
        }
        Op::AddImm22 { r1, imm, r3 } => {
            let f = AluFn::Add;
            compute(r1, r0, r3, Function::AluImmediate { f, imm })
        }
        Op::Cmp {
            four_bytes,
            rel,
            kind,
            p1,
            p2,
            r2,
            r3,
        } => test(kind, p1, p2, r2, r3, Condition::Compare { four_bytes, rel }),
        Op::CmpZero {
            four_bytes,
            rel,
            kind,
            p1,
            p2,
            r3,
        } => test(kind, p1, p2, r0, r3, Condition::Compare { four_bytes, rel }),
        Op::CmpImm {
            four_bytes,
            rel,
            kind,
            p1,
            p2,
            imm,
            r3,
        } => test(
            kind,
            p1,
            p2,
            r0,
            r3,
            Condition::CompareImmediate {
                four_bytes,
                rel,
                imm,
            },
        ),
        Op::Lane {
            f,
            size,
            r1,
            r2,
            r3,
        } => compute(r1, r2, r3, Function::Lanes { f, size }),
        Op::ShiftVar {
            f,
            r1,
            value,
            count,
        } => compute(r1, value, count, Function::Shift(f)),
        Op::Popcnt { r1, r3 } => compute(r1, r0, r3, Function::Popcount),
        Op::Shrp { r1, r2, r3, count } => compute(r1, r2, r3, Function::ShiftPair { count }),
        Op::Extr {
            signed,
            r1,
            r3,
            pos,
            len,
        } => compute(r1, r0, r3, Function::Extract { signed, pos, len }),
        Op::DepZ { r1, r2, pos, len } => compute(r1, r2, r0, Function::Deposit { pos, len }),
        Op::DepZImm { r1, imm, pos, len } => compute(
            r1,
            r0,
            r0,
            Function::DepositImmediate { pos, len, imm },
        ),
        Op::DepImm {
            r1,
            ones,
            r3,
            pos,
            len,
        } => {
            let imm = filling(ones);
            compute(r1, r0, r3, Function::DepositImmediate { pos, len, imm })
        }
        Op::Dep {
            r1,
            r2,
            r3,
            pos,
            len,
        } => compute(r1, r2, r3, Function::Deposit { pos, len }),
        Op::Tbit {
            unc,
            p1,
            p2,
            r3,
            pos,
        } => test(test_kind(unc), p1, p2, r0, r3, Condition::BitIsZero { pos }),
        Op::Tnat { unc, p1, p2, r3 } => test(test_kind(unc), p1, p2, r0, r3, Condition::NatIsZero),
        Op::ChkS { r2, disp, .. } => Action::CheckNat { r2, disp },
        Op::MovToBr { b1, r2, .. } => Action::ToBranch { b1, r2 },
        Op::MovFromBr { r1, b2 } => Action::Fetch {
            r1,
            source: FetchSource::Branch(b2),
        },
        Op::MovToPr { r2, mask } => Action::ToPredicates {
            r2,
            mask,
            word: MovedWord::Register,
        },
        Op::MovToPrRot { imm } => Action::ToPredicates {
            r2: r0,
            mask: 1 << 16,
            word: MovedWord::Immediate(imm),
        },
        Op::MovFromIp { r1 } => Action::Fetch {
            r1,
            source: FetchSource::Ip,
        },
        Op::MovFromPr { r1 } => Action::Fetch {
            r1,
            source: FetchSource::Predicates,
        },
        Op::MovToAr { ar, r2 } => Action::ToApplication {
            ar,
            r2,
            word: MovedWord::Register,
        },
        Op::MovToArImm { ar, imm } => Action::ToApplication {
            ar,
            r2: r0,
            word: MovedWord::Immediate(imm),
        },
        Op::MovFromAr { r1, ar } => Action::Fetch {
            r1,
            source: FetchSource::Application(ar),
        },
        Op::Ext {
            signed,
            size,
            r1,
            r3,
        } => compute(r1, r0, r3, Function::Extend { signed, size }),
        Op::Load {
            size,
            kind,
            r1,
            r3,
            update,
            ..
        } => Action::FromMemory {
            size,
            kind,
            r1,
            r3,
            update,
        },
        Op::Store {
            size,
            kind,
            r3,
            r2,
            update,
            ..
        } => Action::ToMemory {
            size,
            kind,
            r3,
            r2,
            update,
        },
        Op::Xchg {
            size,
            r1,
            r3,
            r2,
            ..
        } => Action::Exchange {
            size,
            r1,
            r3,
            r2,
            inc: None,
        },
        Op::FetchAdd {
            size,
            r1,
            r3,
            inc,
            ..
        } => Action::Exchange {
            size,
            r1,
            r3,
            r2: r0,
            inc: Some(inc),
        },
        Op::ChkA { clear, r1, disp } => Action::CheckAlat { clear, r1, disp },
        Op::Invala => Action::InvalidateAll,
        Op::Mf => Action::Idle { unit: Unit::M },
        Op::InvalaE { r1 } => Action::Invalidate { r1 },
        Op::Alloc { r1, sof, sol, sor } => Action::Allocate { r1, sof, sol, sor },
        Op::Br { kind, disp, .. } => branch_action(kind, disp),
        Op::BrCall { b1, disp, .. } => Action::Call {
            b1,
            callee: CallTarget::Direct(disp),
        },
        Op::BrInd { b2, .. } => Action::JumpIndirect { b2 },
        Op::BrRet { b2, .. } => Action::Return { b2 },
        Op::BrCallInd { b1, b2, .. } => Action::Call {
            b1,
            callee: CallTarget::Indirect(b2),
        },
        Op::Clrrrb { pred_only } => Action::ClearBases { pred_only },
        Op::Movl { r1, imm } => compute(r1, r0, r0, Function::Immediate(imm)),
        Op::Break { unit, imm } => Action::Stop { unit, imm },
        Op::Nop { unit, .. } | Op::Hint { unit, .. } => Action::Idle { unit },
    }
}

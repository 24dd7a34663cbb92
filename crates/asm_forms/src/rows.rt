//! The table of forms: a row a form.

ghost use Rattle.std.specs.Prelude.{◌≡◌, ◌<◌, ◌≤◌, map, length, slice_index_or, is_some};
ghost use Rattle.asm_forms.specs.Items.{operands};
ghost use Rattle.asm_forms.specs.Rows.{rows_to_b, rows_c_to_i, rows_l_to_n, rows_o_to_r, rows_from_s, rows, first_row, row_of, seen, is_instruction, AreValues};

use crate::completer::{Completer, CompleterSet, Said, Suffix};
use crate::form::Form;
use crate::items::FormItem::{Is, Takes};
use crate::items::{Fixed, FormItem, Kind, NumberField};
use ia_insn::{AluFn, Ar, BranchKind, CmpKind, LaneFn, LoadKind, Rel, ShiftFn, StoreKind, Unit};
use insn_rows::{Opcode, UpdateKind};
use std::marker::Model;

/// How the lines of a form are written, and the instruction that they make. Its lists are references in the table, and
/// plain lists in contracts.
///
/// A value of the instruction goes by its number in `values_of` of `insn_rows`, and a number 0 is that of none. A value
/// that no number names is r0, 0 or no, and those of a frame are its parts as they are written.
pub struct RowOf<Stem, Sets, Items, Fixed> {
    /// The form.
    pub form: Form,
    /// What leads a line: the part of a mnemonic before its completers, or a directive.
    pub stem: Stem,
    /// The sets of the completers, in order, each with the number of the value that its completer says.
    pub sets: Sets,
    /// What stands after the mnemonic: fixed tokens, and operands.
    pub items: Items,
    /// The opcode, of which completers and operands say parts. Only where a unit's letter may be missing, the unit
    /// here is that of a line without it. A directive has none.
    pub opcode: Option<Opcode>,
    /// The values that no line writes, each with its number.
    pub fixed: Fixed,
}

/// A row as it stands in the table.
///
/// The rows stand as in an index, in the order of the first letters of their stems, and those of one stem
/// together. The first that the operands have is read: a branch register before a label.
pub(crate) type TableRow = RowOf<
    &'static [u8],
    &'static [(CompleterSet, u8)],
    &'static [FormItem],
    &'static [(Said, u8)],
>;

macro_rules! number {
    () => { 0 };
    ($number:literal) => { $number };
}

// Completers: `.Z` for a suffix that always stands there and says nothing, and a set with the number of what it says.
macro_rules! sets {
    (($($done:expr,)*)) => { &[$($done,)*] };
    (($($done:expr,)*) .$suffix:ident $(, $($rest:tt)*)?) => {
        sets!(($($done,)* (CompleterSet::Only(Completer { suffix: Suffix::$suffix, says: Said::Nothing }), 0),) $($($rest)*)?)
    };
    (($($done:expr,)*) $set:ident $(($number:literal))? $(, $($rest:tt)*)?) => {
        sets!(($($done,)* (CompleterSet::$set, number!($($number)?)),) $($($rest)*)?)
    };
}

macro_rules! fixed {
    (=) => { Fixed::Equals };
    (,) => { Fixed::Comma };
    (CloseBracket) => { Fixed::CloseBracket };
    (r0) => { Fixed::R0 };
    (pr) => { Fixed::Predicates };
    (ip) => { Fixed::Ip };
    (1) => { Fixed::One };
}

// The kind of an operand by the manual's name. A number that is lowered by one is `less8`.
macro_rules! kind {
    (r1) => { Kind::Gr };
    (r2) => { Kind::Gr };
    (r3) => { Kind::Gr };
    (p1) => { Kind::Pr };
    (p2) => { Kind::Pr };
    (b1) => { Kind::Br };
    (b2) => { Kind::Br };
    (ar) => { Kind::Ar };
    (label) => { Kind::Label };
    (imm1) => { Kind::Number(NumberField::ZeroOrMinusOne) };
    (imm8) => { Kind::Number(NumberField::Imm8) };
    (less8) => { Kind::Number(NumberField::Less8) };
    (imm9) => { Kind::Number(NumberField::Imm9) };
    (imm14) => { Kind::Number(NumberField::Imm14) };
    (imm21) => { Kind::Number(NumberField::Imm21) };
    (imm22) => { Kind::Number(NumberField::Imm22) };
    (imm44) => { Kind::Number(NumberField::RotatingMask) };
    (imm62) => { Kind::Number(NumberField::Imm62) };
    (imm64) => { Kind::Number(NumberField::Imm64) };
    (mask17) => { Kind::Number(NumberField::Mask) };
    (tag13) => { Kind::Number(NumberField::Tag) };
    (inc3) => { Kind::Number(NumberField::Increment) };
    (count2) => { Kind::Number(NumberField::Count) };
    (count6) => { Kind::Number(NumberField::Position) };
    (pos6) => { Kind::Number(NumberField::Position) };
    (len4) => { Kind::Number(NumberField::Length16) };
    (len6) => { Kind::Number(NumberField::Length) };
    (i) => { Kind::Number(NumberField::Frame) };
    (l) => { Kind::Number(NumberField::Frame) };
    (o) => { Kind::Number(NumberField::Frame) };
    (r) => { Kind::Number(NumberField::Rotating) };
    (size) => { Kind::Number(NumberField::Skip) };
}

// Fixed tokens as they are written, and operands by the manual's names, each with the number of its value.
macro_rules! items {
    (($($done:expr,)*)) => { &[$($done,)*] };
    (($($done:expr,)*) [$($base:tt)*] $($rest:tt)*) => {
        items!(($($done,)* Is(Fixed::OpenBracket),) $($base)* CloseBracket $($rest)*)
    };
    (($($done:expr,)*) ar.pfs $($rest:tt)*) => { items!(($($done,)* Is(Fixed::Pfs),) $($rest)*) };
    (($($done:expr,)*) ar.unat $($rest:tt)*) => { items!(($($done,)* Is(Fixed::Unat),) $($rest)*) };
    (($($done:expr,)*) pr.rot $($rest:tt)*) => { items!(($($done,)* Is(Fixed::RotatingPredicates),) $($rest)*) };
    (($($done:expr,)*) $name:ident($number:literal) $($rest:tt)*) => {
        items!(($($done,)* Takes(kind!($name), $number),) $($rest)*)
    };
    (($($done:expr,)*) $fixed:tt $($rest:tt)*) => { items!(($($done,)* Is(fixed!($fixed)),) $($rest)*) };
}

// An opcode; `_` is a part that a completer or an operand says.
macro_rules! opcode {
    (Cmp(_, _)) => { Opcode::Cmp(Rel::Lt, CmpKind::Normal) };
    (CmpZero(_, _)) => { Opcode::CmpZero(Rel::Lt, CmpKind::And) };
    (CmpImm(_, _)) => { Opcode::CmpImm(Rel::Lt, CmpKind::Normal) };
    (Lane(_)) => { Opcode::Lane(LaneFn::PcmpEq) };
    (ShiftVar(_)) => { Opcode::ShiftVar(ShiftFn::Shr) };
    (Load(_, $update:expr)) => { Opcode::Load(LoadKind::Plain, $update) };
    (Store(_, $update:expr)) => { Opcode::Store(StoreKind::Plain, $update) };
    (Br(_)) => { Opcode::Br(BranchKind::Cond) };
    (MovToAr(_)) => { Opcode::MovToAr(Ar::Unat) };
    (MovToArImm(_)) => { Opcode::MovToArImm(Ar::Unat) };
    (MovFromAr(_)) => { Opcode::MovFromAr(Ar::Unat) };
    ($($opcode:tt)*) => { Opcode::$($opcode)* };
}

macro_rules! directive {
    ($form:ident, $stem:literal $(, $($item:tt)*)?) => {
        RowOf {
            form: Form::$form,
            stem: $stem,
            sets: &[],
            items: items!(() $($($item)*)?),
            opcode: None,
            fixed: &[],
        }
    };
}

macro_rules! row {
    ($form:ident, Opcode::$opcode:ident $(($($part:tt)*))? $(, $number:literal: $value:ident($said:literal))*; $stem:literal, [$($set:tt)*] $(, $($item:tt)*)?) => {
        RowOf {
            form: Form::$form,
            stem: $stem,
            sets: sets!(() $($set)*),
            items: items!(() $($($item)*)?),
            opcode: Some(opcode!($opcode $(($($part)*))?)),
            fixed: &[$((Said::$value($said), $number)),*],
        }
    };
}

/// The rows of the forms with a stem that begins with a dot, `a` or `b`.
pub(crate) static ROWS_TO_B: [TableRow; 29] = [
    directive!(Data, b".data"),
    directive!(Endp, b".endp", label(0)),
    directive!(Entry, b".entry", label(0)),
    directive!(Global, b".global", label(0)),
    directive!(PredRel, b".pred.rel"),
    directive!(Proc, b".proc", label(0)),
    directive!(Skip, b".skip", size(0)),
    directive!(Text, b".text"),
    row!(Add, Opcode::Alu(AluFn::Add); b"add", [], r1(1) = r2(2), r3(3)),
    row!(AddOne, Opcode::Alu(AluFn::Add1); b"add", [], r1(1) = r2(2), r3(3), 1),
    row!(AddImm, Opcode::AddImm22; b"add", [], r1(1) = imm22(2), r3(3)),
    row!(Addl, Opcode::AddImm22; b"addl", [], r1(1) = imm22(2), r3(3)),
    row!(Addp4, Opcode::Alu(AluFn::Addp4); b"addp4", [], r1(1) = r2(2), r3(3)),
    row!(Addp4Imm, Opcode::AddImm14, 1: Flag(true); b"addp4", [], r1(2) = imm14(3), r3(4)),
    row!(Adds, Opcode::AddImm14, 1: Flag(false); b"adds", [], r1(2) = imm14(3), r3(4)),
    row!(Alloc, Opcode::Alloc; b"alloc", [], r1(1) = ar.pfs, i(2), l(3), o(4), r(5)),
    row!(And, Opcode::Alu(AluFn::And); b"and", [], r1(1) = r2(2), r3(3)),
    row!(AndImm, Opcode::AluImm8(AluFn::And); b"and", [], r1(1) = imm8(2), r3(3)),
    row!(Andcm, Opcode::Alu(AluFn::Andcm); b"andcm", [], r1(1) = r2(2), r3(3)),
    row!(AndcmImm, Opcode::AluImm8(AluFn::Andcm); b"andcm", [], r1(1) = imm8(2), r3(3)),
    row!(BrInd, Opcode::BrInd; b"br", [Cond, Whether(2), Prefetch(3), DeallocClr(4)], b2(1)),
    row!(BrCond, Opcode::Br(BranchKind::Cond); b"br", [Cond, Whether(1), Prefetch(2), DeallocClr(3)], label(4)),
    row!(BrLoop, Opcode::Br(_); b"br", [Loop, Whether(1), Prefetch(2), DeallocClr(3)], label(4)),
    row!(BrCallInd, Opcode::BrCallInd; b"br", [.Call, Whether(3), Prefetch(4), DeallocClr(5)], b1(1) = b2(2)),
    row!(BrCall, Opcode::BrCall; b"br", [.Call, Whether(2), Prefetch(3), DeallocClr(4)], b1(1) = label(5)),
    row!(BrRet, Opcode::BrRet; b"br", [.Ret, Whether(2), Prefetch(3), DeallocClr(4)], b2(1)),
    row!(Break, Opcode::Break(Unit::X); b"break", [AnyUnit]),
    row!(BreakImm, Opcode::Break(Unit::X); b"break", [ShortUnit], imm21(1)),
    row!(BreakLong, Opcode::Break(Unit::X); b"break", [LongUnit], imm62(1)),
];

/// The rows of the forms with a stem that begins with `c` to `i`.
pub(crate) static ROWS_C_TO_I: [TableRow; 42] = [
    row!(ChkS, Opcode::ChkS(Unit::I); b"chk", [.S, CheckUnit], r2(1), label(2)),
    row!(ChkANc, Opcode::ChkA, 1: Flag(false); b"chk", [.A, .Nc], r1(2), label(3)),
    row!(ChkAClr, Opcode::ChkA, 1: Flag(true); b"chk", [.A, .Clr], r1(2), label(3)),
    row!(Clrrrb, Opcode::Clrrrb, 1: Flag(false); b"clrrrb", []),
    row!(ClrrrbPr, Opcode::Clrrrb, 1: Flag(true); b"clrrrb", [.Pr]),
    row!(Cmp, Opcode::Cmp(_, _), 1: Flag(false); b"cmp", [Relation, Unc], p1(2), p2(3) = r2(4), r3(5)),
    row!(CmpNe, Opcode::Cmp(_, _), 1: Flag(false); b"cmp", [RelationNe, Unc], p1(3), p2(2) = r2(4), r3(5)),
    row!(CmpGt, Opcode::Cmp(_, _), 1: Flag(false); b"cmp", [RelationGt, Unc], p1(2), p2(3) = r2(5), r3(4)),
    row!(CmpLe, Opcode::Cmp(_, _), 1: Flag(false); b"cmp", [RelationLe, Unc], p1(3), p2(2) = r2(5), r3(4)),
    row!(CmpParallel, Opcode::Cmp(_, _), 1: Flag(false); b"cmp", [Equality, Parallel], p1(2), p2(3) = r2(4), r3(5)),
    row!(CmpZero, Opcode::CmpZero(_, _), 1: Flag(false); b"cmp", [Order, Parallel], p1(2), p2(3) = r0, r3(4)),
    row!(CmpImm, Opcode::CmpImm(_, _), 1: Flag(false); b"cmp", [Relation, Unc], p1(2), p2(3) = imm8(4), r3(5)),
    row!(CmpImmNe, Opcode::CmpImm(_, _), 1: Flag(false); b"cmp", [RelationNe, Unc], p1(3), p2(2) = imm8(4), r3(5)),
    row!(CmpImmParallel, Opcode::CmpImm(_, _), 1: Flag(false); b"cmp", [Equality, Parallel], p1(2), p2(3) = imm8(4), r3(5)),
    row!(CmpImmLe, Opcode::CmpImm(_, _), 1: Flag(false); b"cmp", [Le, Unc], p1(2), p2(3) = less8(4), r3(5)),
    row!(CmpImmGt, Opcode::CmpImm(_, _), 1: Flag(false); b"cmp", [Gt, Unc], p1(3), p2(2) = less8(4), r3(5)),
    row!(Cmp4, Opcode::Cmp(_, _), 1: Flag(true); b"cmp4", [Relation, Unc], p1(2), p2(3) = r2(4), r3(5)),
    row!(Cmp4Ne, Opcode::Cmp(_, _), 1: Flag(true); b"cmp4", [RelationNe, Unc], p1(3), p2(2) = r2(4), r3(5)),
    row!(Cmp4Gt, Opcode::Cmp(_, _), 1: Flag(true); b"cmp4", [RelationGt, Unc], p1(2), p2(3) = r2(5), r3(4)),
    row!(Cmp4Le, Opcode::Cmp(_, _), 1: Flag(true); b"cmp4", [RelationLe, Unc], p1(3), p2(2) = r2(5), r3(4)),
    row!(Cmp4Parallel, Opcode::Cmp(_, _), 1: Flag(true); b"cmp4", [Equality, Parallel], p1(2), p2(3) = r2(4), r3(5)),
    row!(Cmp4Zero, Opcode::CmpZero(_, _), 1: Flag(true); b"cmp4", [Order, Parallel], p1(2), p2(3) = r0, r3(4)),
    row!(Cmp4Imm, Opcode::CmpImm(_, _), 1: Flag(true); b"cmp4", [Relation, Unc], p1(2), p2(3) = imm8(4), r3(5)),
    row!(Cmp4ImmNe, Opcode::CmpImm(_, _), 1: Flag(true); b"cmp4", [RelationNe, Unc], p1(3), p2(2) = imm8(4), r3(5)),
    row!(Cmp4ImmParallel, Opcode::CmpImm(_, _), 1: Flag(true); b"cmp4", [Equality, Parallel], p1(2), p2(3) = imm8(4), r3(5)),
    row!(Cmp4ImmLe, Opcode::CmpImm(_, _), 1: Flag(true); b"cmp4", [Le, Unc], p1(2), p2(3) = less8(4), r3(5)),
    row!(Cmp4ImmGt, Opcode::CmpImm(_, _), 1: Flag(true); b"cmp4", [Gt, Unc], p1(3), p2(2) = less8(4), r3(5)),
    directive!(Data1, b"data1"),
    directive!(Data2, b"data2"),
    directive!(Data4, b"data4"),
    directive!(Data8, b"data8"),
    row!(DepZ, Opcode::DepZ; b"dep", [.Z], r1(1) = r2(2), pos6(3), len6(4)),
    row!(DepZImm, Opcode::DepZImm; b"dep", [.Z], r1(1) = imm8(2), pos6(3), len6(4)),
    row!(DepImm, Opcode::DepImm; b"dep", [], r1(1) = imm1(2), r3(3), pos6(4), len6(5)),
    row!(Dep, Opcode::Dep; b"dep", [], r1(1) = r2(2), r3(3), pos6(4), len4(5)),
    row!(Extr, Opcode::Extr; b"extr", [U(1)], r1(2) = r3(3), pos6(4), len6(5)),
    row!(Fetchadd4, Opcode::FetchAdd, 1: Small(4); b"fetchadd4", [SemaphoreType(2), LoadHint(3)], r1(4) = [r3(5)], inc3(6)),
    row!(Fetchadd8, Opcode::FetchAdd, 1: Small(8); b"fetchadd8", [SemaphoreType(2), LoadHint(3)], r1(4) = [r3(5)], inc3(6)),
    row!(Hint, Opcode::Hint(Unit::I); b"hint", [HintUnit]),
    row!(HintImm, Opcode::Hint(Unit::I); b"hint", [HintUnit], imm21(1)),
    row!(Invala, Opcode::Invala; b"invala", []),
    row!(InvalaE, Opcode::InvalaE; b"invala", [.E], r1(1)),
];

/// The rows of the forms with a stem that begins with `l` to `n`.
pub(crate) static ROWS_L_TO_N: [TableRow; 36] = [
    row!(Ld1, Opcode::Load(_, UpdateKind::None), 1: Small(1); b"ld1", [LoadType, LoadHint(2)], r1(3) = [r3(4)]),
    row!(Ld1Reg, Opcode::Load(_, UpdateKind::Reg), 1: Small(1); b"ld1", [LoadType, LoadHint(2)], r1(3) = [r3(4)], r2(5)),
    row!(Ld1Imm, Opcode::Load(_, UpdateKind::Imm), 1: Small(1); b"ld1", [LoadType, LoadHint(2)], r1(3) = [r3(4)], imm9(5)),
    row!(Ld2, Opcode::Load(_, UpdateKind::None), 1: Small(2); b"ld2", [LoadType, LoadHint(2)], r1(3) = [r3(4)]),
    row!(Ld2Reg, Opcode::Load(_, UpdateKind::Reg), 1: Small(2); b"ld2", [LoadType, LoadHint(2)], r1(3) = [r3(4)], r2(5)),
    row!(Ld2Imm, Opcode::Load(_, UpdateKind::Imm), 1: Small(2); b"ld2", [LoadType, LoadHint(2)], r1(3) = [r3(4)], imm9(5)),
    row!(Ld4, Opcode::Load(_, UpdateKind::None), 1: Small(4); b"ld4", [LoadType, LoadHint(2)], r1(3) = [r3(4)]),
    row!(Ld4Reg, Opcode::Load(_, UpdateKind::Reg), 1: Small(4); b"ld4", [LoadType, LoadHint(2)], r1(3) = [r3(4)], r2(5)),
    row!(Ld4Imm, Opcode::Load(_, UpdateKind::Imm), 1: Small(4); b"ld4", [LoadType, LoadHint(2)], r1(3) = [r3(4)], imm9(5)),
    row!(Ld8, Opcode::Load(_, UpdateKind::None), 1: Small(8); b"ld8", [LoadTypeFill, LoadHint(2)], r1(3) = [r3(4)]),
    row!(Ld8Reg, Opcode::Load(_, UpdateKind::Reg), 1: Small(8); b"ld8", [LoadTypeFill, LoadHint(2)], r1(3) = [r3(4)], r2(5)),
    row!(Ld8Imm, Opcode::Load(_, UpdateKind::Imm), 1: Small(8); b"ld8", [LoadTypeFill, LoadHint(2)], r1(3) = [r3(4)], imm9(5)),
    row!(Mf, Opcode::Mf; b"mf", []),
    row!(MovGr, Opcode::AddImm14; b"mov", [], r1(2) = r3(4)),
    row!(MovImm, Opcode::AddImm22; b"mov", [], r1(1) = imm22(2)),
    row!(MovToBr, Opcode::MovToBr; b"mov", [Ret(3), MoveWhether(5), Imp(4)], b1(1) = r2(2)),
    row!(MovToBrTag, Opcode::MovToBr; b"mov", [Ret(3), MoveWhether(5), Imp(4)], b1(1) = r2(2), tag13(6)),
    row!(MovFromBr, Opcode::MovFromBr; b"mov", [], r1(1) = b2(2)),
    row!(MovToPr, Opcode::MovToPr, 2: Mask(0x1fffe); b"mov", [], pr = r2(1)),
    row!(MovToPrMask, Opcode::MovToPr; b"mov", [], pr = r2(1), mask17(2)),
    row!(MovToPrRot, Opcode::MovToPrRot; b"mov", [], pr.rot = imm44(1)),
    row!(MovFromIp, Opcode::MovFromIp; b"mov", [], r1(1) = ip),
    row!(MovFromPr, Opcode::MovFromPr; b"mov", [], r1(1) = pr),
    row!(MovToAr, Opcode::MovToAr(_); b"mov", [], ar(0) = r2(1)),
    row!(MovFromAr, Opcode::MovFromAr(_); b"mov", [], r1(1) = ar(0)),
    row!(MovToArI, Opcode::MovToAr(_); b"mov", [UnitI], ar(0) = r2(1)),
    row!(MovToArImmI, Opcode::MovToArImm(_); b"mov", [UnitI], ar(0) = imm8(1)),
    row!(MovFromArI, Opcode::MovFromAr(_); b"mov", [UnitI], r1(1) = ar(0)),
    row!(MovToArM, Opcode::MovToAr(Ar::Unat); b"mov", [UnitM], ar.unat = r2(1)),
    row!(MovToArImmM, Opcode::MovToArImm(Ar::Unat); b"mov", [UnitM], ar.unat = imm8(1)),
    row!(MovFromArM, Opcode::MovFromAr(Ar::Unat); b"mov", [UnitM], r1(1) = ar.unat),
    row!(Movl, Opcode::Movl; b"movl", [], r1(1) = imm64(2)),
    row!(MovlLabel, Opcode::Movl; b"movl", [], r1(1) = label(0)),
    row!(Nop, Opcode::Nop(Unit::X); b"nop", [AnyUnit]),
    row!(NopImm, Opcode::Nop(Unit::X); b"nop", [ShortUnit], imm21(1)),
    row!(NopLong, Opcode::Nop(Unit::X); b"nop", [LongUnit], imm62(1)),
];

/// The rows of the forms with a stem that begins with `o` to `r`.
pub(crate) static ROWS_O_TO_R: [TableRow; 12] = [
    row!(Or, Opcode::Alu(AluFn::Or); b"or", [], r1(1) = r2(2), r3(3)),
    row!(OrImm, Opcode::AluImm8(AluFn::Or); b"or", [], r1(1) = imm8(2), r3(3)),
    row!(Padd1, Opcode::Lane(LaneFn::Padd), 1: Small(1); b"padd1", [], r1(2) = r2(3), r3(4)),
    row!(Padd2, Opcode::Lane(LaneFn::Padd), 1: Small(2); b"padd2", [], r1(2) = r2(3), r3(4)),
    row!(Padd4, Opcode::Lane(LaneFn::Padd), 1: Small(4); b"padd4", [], r1(2) = r2(3), r3(4)),
    row!(Pcmp1, Opcode::Lane(_), 1: Small(1); b"pcmp1", [LaneRelation], r1(2) = r2(3), r3(4)),
    row!(Pcmp2, Opcode::Lane(_), 1: Small(2); b"pcmp2", [LaneRelation], r1(2) = r2(3), r3(4)),
    row!(Pcmp4, Opcode::Lane(_), 1: Small(4); b"pcmp4", [LaneRelation], r1(2) = r2(3), r3(4)),
    row!(Popcnt, Opcode::Popcnt; b"popcnt", [], r1(1) = r3(2)),
    row!(Psub1, Opcode::Lane(LaneFn::Psub), 1: Small(1); b"psub1", [], r1(2) = r2(3), r3(4)),
    row!(Psub2, Opcode::Lane(LaneFn::Psub), 1: Small(2); b"psub2", [], r1(2) = r2(3), r3(4)),
    row!(Psub4, Opcode::Lane(LaneFn::Psub), 1: Small(4); b"psub4", [], r1(2) = r2(3), r3(4)),
];

/// The rows of the forms with a stem that begins with `s` or a later letter.
pub(crate) static ROWS_FROM_S: [TableRow; 34] = [
    row!(Shl, Opcode::ShiftVar(ShiftFn::Shl); b"shl", [], r1(1) = r2(2), r3(3)),
    row!(ShlNumber, Opcode::DepZ; b"shl", [], r1(1) = r2(2), count6(3)),
    row!(Shladd, Opcode::ShlAdd, 1: Flag(false); b"shladd", [], r1(2) = r2(3), count2(4), r3(5)),
    row!(Shladdp4, Opcode::ShlAdd, 1: Flag(true); b"shladdp4", [], r1(2) = r2(3), count2(4), r3(5)),
    row!(Shr, Opcode::ShiftVar(_); b"shr", [ShiftU], r1(1) = r3(2), r2(3)),
    row!(ShrNumber, Opcode::Extr; b"shr", [U(1)], r1(2) = r3(3), count6(4)),
    row!(Shrp, Opcode::Shrp; b"shrp", [], r1(1) = r2(2), r3(3), count6(4)),
    row!(St1, Opcode::Store(_, UpdateKind::None), 1: Small(1); b"st1", [StoreType, StoreHint(2)], [r3(3)] = r2(4)),
    row!(St1Imm, Opcode::Store(_, UpdateKind::Imm), 1: Small(1); b"st1", [StoreType, StoreHint(2)], [r3(3)] = r2(4), imm9(5)),
    row!(St2, Opcode::Store(_, UpdateKind::None), 1: Small(2); b"st2", [StoreType, StoreHint(2)], [r3(3)] = r2(4)),
    row!(St2Imm, Opcode::Store(_, UpdateKind::Imm), 1: Small(2); b"st2", [StoreType, StoreHint(2)], [r3(3)] = r2(4), imm9(5)),
    row!(St4, Opcode::Store(_, UpdateKind::None), 1: Small(4); b"st4", [StoreType, StoreHint(2)], [r3(3)] = r2(4)),
    row!(St4Imm, Opcode::Store(_, UpdateKind::Imm), 1: Small(4); b"st4", [StoreType, StoreHint(2)], [r3(3)] = r2(4), imm9(5)),
    row!(St8, Opcode::Store(_, UpdateKind::None), 1: Small(8); b"st8", [StoreTypeSpill, StoreHint(2)], [r3(3)] = r2(4)),
    row!(St8Imm, Opcode::Store(_, UpdateKind::Imm), 1: Small(8); b"st8", [StoreTypeSpill, StoreHint(2)], [r3(3)] = r2(4), imm9(5)),
    row!(Sub, Opcode::Alu(AluFn::Sub); b"sub", [], r1(1) = r2(2), r3(3)),
    row!(SubOne, Opcode::Alu(AluFn::Sub1); b"sub", [], r1(1) = r2(2), r3(3), 1),
    row!(SubImm, Opcode::AluImm8(AluFn::Sub); b"sub", [], r1(1) = imm8(2), r3(3)),
    row!(Sxt1, Opcode::Ext, 1: Flag(true), 2: Small(1); b"sxt1", [], r1(3) = r3(4)),
    row!(Sxt2, Opcode::Ext, 1: Flag(true), 2: Small(2); b"sxt2", [], r1(3) = r3(4)),
    row!(Sxt4, Opcode::Ext, 1: Flag(true), 2: Small(4); b"sxt4", [], r1(3) = r3(4)),
    row!(Tbit, Opcode::Tbit; b"tbit", [.Z, TestUnc(1)], p1(2), p2(3) = r3(4), pos6(5)),
    row!(TbitNz, Opcode::Tbit; b"tbit", [.Nz, TestUnc(1)], p1(3), p2(2) = r3(4), pos6(5)),
    row!(Tnat, Opcode::Tnat; b"tnat", [.Z, TestUnc(1)], p1(2), p2(3) = r3(4)),
    row!(TnatNz, Opcode::Tnat; b"tnat", [.Nz, TestUnc(1)], p1(3), p2(2) = r3(4)),
    row!(Xchg1, Opcode::Xchg, 1: Small(1); b"xchg1", [LoadHint(2)], r1(3) = [r3(4)], r2(5)),
    row!(Xchg2, Opcode::Xchg, 1: Small(2); b"xchg2", [LoadHint(2)], r1(3) = [r3(4)], r2(5)),
    row!(Xchg4, Opcode::Xchg, 1: Small(4); b"xchg4", [LoadHint(2)], r1(3) = [r3(4)], r2(5)),
    row!(Xchg8, Opcode::Xchg, 1: Small(8); b"xchg8", [LoadHint(2)], r1(3) = [r3(4)], r2(5)),
    row!(Xor, Opcode::Alu(AluFn::Xor); b"xor", [], r1(1) = r2(2), r3(3)),
    row!(XorImm, Opcode::AluImm8(AluFn::Xor); b"xor", [], r1(1) = imm8(2), r3(3)),
    row!(Zxt1, Opcode::Ext, 1: Flag(false), 2: Small(1); b"zxt1", [], r1(3) = r3(4)),
    row!(Zxt2, Opcode::Ext, 1: Flag(false), 2: Small(2); b"zxt2", [], r1(3) = r3(4)),
    row!(Zxt4, Opcode::Ext, 1: Flag(false), 2: Small(4); b"zxt4", [], r1(3) = r3(4)),
];

pub(crate) fn rows_to_b() -> &'static [TableRow]
    ensures value { map seen result.now ≡ rows_to_b }
    ensures few { length result.now ≤ 64 }
{
    &ROWS_TO_B
}

pub(crate) fn rows_c_to_i() -> &'static [TableRow]
    ensures value { map seen result.now ≡ rows_c_to_i }
    ensures few { length result.now ≤ 64 }
{
    &ROWS_C_TO_I
}

pub(crate) fn rows_l_to_n() -> &'static [TableRow]
    ensures value { map seen result.now ≡ rows_l_to_n }
    ensures few { length result.now ≤ 64 }
{
    &ROWS_L_TO_N
}

pub(crate) fn rows_o_to_r() -> &'static [TableRow]
    ensures value { map seen result.now ≡ rows_o_to_r }
    ensures few { length result.now ≤ 64 }
{
    &ROWS_O_TO_R
}

pub(crate) fn rows_from_s() -> &'static [TableRow]
    ensures value { map seen result.now ≡ rows_from_s }
    ensures few { length result.now ≤ 64 }
{
    &ROWS_FROM_S
}

/// The row at an index of the table.
fn row_at(at: usize) -> &'static TableRow
    requires { at < length rows }
    ensures { seen result.now ≡ slice_index_or rows at first_row }
{
    let (here, at) = (rows_to_b(), at);
    if at < here.len() {
        return &here[at];
    }
    let (here, at) = (rows_c_to_i(), at - here.len());
    if at < here.len() {
        return &here[at];
    }
    let (here, at) = (rows_l_to_n(), at - here.len());
    if at < here.len() {
        return &here[at];
    }
    let (here, at) = (rows_o_to_r(), at - here.len());
    if at < here.len() {
        return &here[at];
    }
    &rows_from_s()[at - here.len()]
}

/// A row of the table. Contracts see the form whose row it is.
#[derive(Drop)]
pub struct Row {
    row: &'static TableRow,
}

impl Model for Row {
    ghost use Rattle.std.specs.Prelude.{◌≡◌};
    ghost use Rattle.asm_forms.specs.declared.form.Form.{Form as FormOf};
    ghost use Rattle.asm_forms.specs.Rows.{row_of, seen};

    ghost Value = { FormOf };

    ghost view = { λ r. r.row.now.form };

    ghost invariant = { λ r. row_of r.row.now.form ≡ seen r.row.now };
}

impl Row {
    /// The row that this is.
    pub(crate) fn of(row: &'static TableRow) -> Self
        requires { row_of row.now.form ≡ seen row.now }
        ensures { result ≡ row.now.form }
    {
        Row { row }
    }

    /// The form.
    pub fn form(&self) -> Form
        ensures { result ≡ self.now }
    {
        self.row.form
    }

    /// What leads a line of the form: the part of a mnemonic before its completers, or a directive.
    pub fn stem(&self) -> &'static [u8]
        ensures { result.now ≡ (row_of self.now).stem }
    {
        self.row.stem
    }

    /// The sets of the completers, in order, each with the number of the value that its completer says, 0 for none.
    pub fn sets(&self) -> &'static [(CompleterSet, u8)]
        ensures value { result.now ≡ (row_of self.now).sets }
        ensures values { AreValues result.now }
        ensures few { length result.now ≤ 4 }
    {
        self.row.sets
    }

    /// What stands after the mnemonic: fixed tokens, and at most 5 operands, each with the number of its value, 0 for none.
    pub fn items(&self) -> &'static [FormItem]
        ensures value { result.now ≡ (row_of self.now).items }
        ensures values { AreValues (operands result.now) }
        ensures few { length (operands result.now) ≤ 5 }
    {
        self.row.items
    }

    /// The opcode of the form's instruction, but for what completers and operands say of it; a directive has none.
    pub fn opcode(&self) -> Option<Opcode>
        ensures { result ≡ (row_of self.now).opcode }
    {
        self.row.opcode
    }

    /// The values that no line of the form writes, each with its number.
    pub fn fixed(&self) -> &'static [(Said, u8)]
        ensures value { result.now ≡ (row_of self.now).fixed }
        ensures values { AreValues result.now }
    {
        self.row.fixed
    }
}

impl Form {
    /// The row of the form.
    #[tactic(auto, using(crate::proofs::RowFacts::in_table, crate::proofs::RowFacts::form_back))]
    pub fn row(self) -> Row
        ensures { result ≡ self }
    {
        Row::of(row_at(self as usize))
    }

    /// What stands after the mnemonic of the form.
    pub fn items(self) -> &'static [FormItem]
        ensures value { result.now ≡ (row_of self).items }
        ensures few { length (operands result.now) ≤ 5 }
    {
        self.row().items()
    }

    /// Whether the form is an instruction's, and no directive's.
    pub fn is_instruction(self) -> bool
        ensures { result ≡ is_instruction self }
    {
        self.row().opcode().is_some()
    }
}

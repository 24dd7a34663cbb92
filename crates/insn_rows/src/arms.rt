//! An instruction as its opcode and the values of its operands, and back: an arm each.

ghost use Rattle.std.specs.Prelude.{◌≡◌};
ghost use Rattle.insn_rows.specs.Arms.{update_kind, added, opcode_of, values_of};
ghost use Rattle.insn_rows.specs.ArmsBack.{update_of, insn_of, gr_of, pr_of, br_of, flag_of, small_of, wide_of, mask_of, signed_value, short_of, displacement_of};
ghost use Rattle.insn_rows.specs.Values.{at};

use crate::opcode::{Opcode, UpdateKind};
use crate::value::{Value, Values};
use ia_insn::{Br, Gr, Insn, Op, Pr, Update};

/// The update without its register or number.
fn update_kind(update: Update) -> UpdateKind
    ensures { result ≡ update_kind update }
{
    match update {
        Update::None => UpdateKind::None,
        Update::Reg(_) => UpdateKind::Reg,
        Update::Imm(_) => UpdateKind::Imm,
    }
}

/// The opcode of an operation.
pub fn opcode_of(op: &Op) -> Opcode
    ensures { result ≡ opcode_of op.now }
{
    match *op {
        Op::Alu { f, .. } => Opcode::Alu(f),
        Op::ShlAdd { .. } => Opcode::ShlAdd,
        Op::AluImm8 { f, .. } => Opcode::AluImm8(f),
        Op::AddImm14 { .. } => Opcode::AddImm14,
        Op::AddImm22 { .. } => Opcode::AddImm22,
        Op::Cmp { rel, kind, .. } => Opcode::Cmp(rel, kind),
        Op::CmpZero { rel, kind, .. } => Opcode::CmpZero(rel, kind),
        Op::CmpImm { rel, kind, .. } => Opcode::CmpImm(rel, kind),
        Op::Lane { f, .. } => Opcode::Lane(f),
        Op::ShiftVar { f, .. } => Opcode::ShiftVar(f),
        Op::Popcnt { .. } => Opcode::Popcnt,
        Op::Shrp { .. } => Opcode::Shrp,
        Op::Extr { .. } => Opcode::Extr,
        Op::DepZ { .. } => Opcode::DepZ,
        Op::DepZImm { .. } => Opcode::DepZImm,
        Op::DepImm { .. } => Opcode::DepImm,
        Op::Dep { .. } => Opcode::Dep,
        Op::Tbit { .. } => Opcode::Tbit,
        Op::Tnat { .. } => Opcode::Tnat,
        Op::ChkS { unit, .. } => Opcode::ChkS(unit),
        Op::MovToBr { .. } => Opcode::MovToBr,
        Op::MovFromBr { .. } => Opcode::MovFromBr,
        Op::MovToPr { .. } => Opcode::MovToPr,
        Op::MovToPrRot { .. } => Opcode::MovToPrRot,
        Op::MovFromIp { .. } => Opcode::MovFromIp,
        Op::MovFromPr { .. } => Opcode::MovFromPr,
        Op::MovToAr { ar, .. } => Opcode::MovToAr(ar),
        Op::MovToArImm { ar, .. } => Opcode::MovToArImm(ar),
        Op::MovFromAr { ar, .. } => Opcode::MovFromAr(ar),
        Op::Ext { .. } => Opcode::Ext,
        Op::Load { kind, update, .. } => Opcode::Load(kind, update_kind(update)),
        Op::Store { kind, update, .. } => Opcode::Store(kind, update_kind(update)),
        Op::Xchg { .. } => Opcode::Xchg,
        Op::FetchAdd { .. } => Opcode::FetchAdd,
        Op::ChkA { .. } => Opcode::ChkA,
        Op::Invala => Opcode::Invala,
        Op::Mf => Opcode::Mf,
        Op::InvalaE { .. } => Opcode::InvalaE,
        Op::Alloc { .. } => Opcode::Alloc,
        Op::Br { kind, .. } => Opcode::Br(kind),
        Op::BrCall { .. } => Opcode::BrCall,
        Op::BrInd { .. } => Opcode::BrInd,
        Op::BrRet { .. } => Opcode::BrRet,
        Op::BrCallInd { .. } => Opcode::BrCallInd,
        Op::Clrrrb { .. } => Opcode::Clrrrb,
        Op::Movl { .. } => Opcode::Movl,
        Op::Break { unit, .. } => Opcode::Break(unit),
        Op::Nop { unit, .. } => Opcode::Nop(unit),
        Op::Hint { unit, .. } => Opcode::Hint(unit),
    }
}

const NONE: Value = Value::Absent;

/// The register or the number that an update adds.
fn added(update: Update) -> Value
    ensures { result ≡ added update }
{
    match update {
        Update::None => NONE,
        Update::Reg(r2) => Value::Gr(r2),
        Update::Imm(imm) => Value::Short(imm),
    }
}

macro_rules! values {
    ($qp:ident) => { [$qp, NONE, NONE, NONE, NONE, NONE, NONE] };
    ($qp:ident, $a:expr) => { [$qp, $a, NONE, NONE, NONE, NONE, NONE] };
    ($qp:ident, $a:expr, $b:expr) => { [$qp, $a, $b, NONE, NONE, NONE, NONE] };
    ($qp:ident, $a:expr, $b:expr, $c:expr) => { [$qp, $a, $b, $c, NONE, NONE, NONE] };
    ($qp:ident, $a:expr, $b:expr, $c:expr, $d:expr) => { [$qp, $a, $b, $c, $d, NONE, NONE] };
    ($qp:ident, $a:expr, $b:expr, $c:expr, $d:expr, $e:expr) => { [$qp, $a, $b, $c, $d, $e, NONE] };
    ($qp:ident, $a:expr, $b:expr, $c:expr, $d:expr, $e:expr, $f:expr) => { [$qp, $a, $b, $c, $d, $e, $f] };
}

macro_rules! match_op {
    ($op:expr, $qp:ident; $($variant:ident { $($field:ident)* } => $($value:expr),*;)*) => {
        match $op {
            $(Op::$variant { $($field,)* .. } => values!($qp $(, $value)*),)*
        }
    };
}

/// The values of the operands of an instruction, the qualifying predicate first, in the order of its fields.
pub fn values_of(insn: &Insn) -> Values
    ensures { result ≡ values_of insn.now }
{
    use Value::{Br, Displacement, Flag, Gr, Mask, Pr, Short, Signed, Small, Wide};
    let qp = Pr(insn.qp);
    match_op! {
        insn.op, qp;
        Alu { r1 r2 r3 } => Gr(r1), Gr(r2), Gr(r3);
        ShlAdd { p4 r1 r2 count r3 } => Flag(p4), Gr(r1), Gr(r2), Small(count), Gr(r3);
        AluImm8 { r1 imm r3 } => Gr(r1), Signed(imm), Gr(r3);
        AddImm14 { p4 r1 imm r3 } => Flag(p4), Gr(r1), Signed(imm), Gr(r3);
        AddImm22 { r1 imm r3 } => Gr(r1), Signed(imm), Gr(r3);
        Cmp { four_bytes p1 p2 r2 r3 } => Flag(four_bytes), Pr(p1), Pr(p2), Gr(r2), Gr(r3);
        CmpZero { four_bytes p1 p2 r3 } => Flag(four_bytes), Pr(p1), Pr(p2), Gr(r3);
        CmpImm { four_bytes p1 p2 imm r3 } => Flag(four_bytes), Pr(p1), Pr(p2), Signed(imm), Gr(r3);
        Lane { size r1 r2 r3 } => Small(size), Gr(r1), Gr(r2), Gr(r3);
        ShiftVar { r1 value count } => Gr(r1), Gr(value), Gr(count);
        Popcnt { r1 r3 } => Gr(r1), Gr(r3);
        Shrp { r1 r2 r3 count } => Gr(r1), Gr(r2), Gr(r3), Small(count);
        Extr { signed r1 r3 pos len } => Flag(signed), Gr(r1), Gr(r3), Small(pos), Small(len);
        DepZ { r1 r2 pos len } => Gr(r1), Gr(r2), Small(pos), Small(len);
        DepZImm { r1 imm pos len } => Gr(r1), Signed(imm), Small(pos), Small(len);
        DepImm { r1 ones r3 pos len } => Gr(r1), Flag(ones), Gr(r3), Small(pos), Small(len);
        Dep { r1 r2 r3 pos len } => Gr(r1), Gr(r2), Gr(r3), Small(pos), Small(len);
        Tbit { unc p1 p2 r3 pos } => Flag(unc), Pr(p1), Pr(p2), Gr(r3), Small(pos);
        Tnat { unc p1 p2 r3 } => Flag(unc), Pr(p1), Pr(p2), Gr(r3);
        ChkS { r2 disp } => Gr(r2), Displacement(disp);
        MovToBr { b1 r2 ret imp wh tag } => Br(b1), Gr(r2), Flag(ret), Flag(imp), Small(wh), Short(tag);
        MovFromBr { r1 b2 } => Gr(r1), Br(b2);
        MovToPr { r2 mask } => Gr(r2), Mask(mask);
        MovToPrRot { imm } => Signed(imm);
        MovFromIp { r1 } => Gr(r1);
        MovFromPr { r1 } => Gr(r1);
        MovToAr { r2 } => Gr(r2);
        MovToArImm { imm } => Signed(imm);
        MovFromAr { r1 } => Gr(r1);
        Ext { signed size r1 r3 } => Flag(signed), Small(size), Gr(r1), Gr(r3);
        Load { size hint r1 r3 update } => Small(size), Small(hint), Gr(r1), Gr(r3), added(update);
        Store { size hint r3 r2 update } => Small(size), Small(hint), Gr(r3), Gr(r2), added(update);
        Xchg { size hint r1 r3 r2 } => Small(size), Small(hint), Gr(r1), Gr(r3), Gr(r2);
        FetchAdd { size release hint r1 r3 inc } => Small(size), Flag(release), Small(hint), Gr(r1), Gr(r3), Short(inc);
        ChkA { clear r1 disp } => Flag(clear), Gr(r1), Displacement(disp);
        Invala {} =>;
        Mf {} =>;
        InvalaE { r1 } => Gr(r1);
        Alloc { r1 sof sol sor } => Gr(r1), Small(sof), Small(sol), Small(sor);
        Br { wh many clr disp } => Small(wh), Flag(many), Flag(clr), Displacement(disp);
        BrCall { b1 wh many clr disp } => Br(b1), Small(wh), Flag(many), Flag(clr), Displacement(disp);
        BrInd { b2 wh many clr } => Br(b2), Small(wh), Flag(many), Flag(clr);
        BrRet { b2 wh many clr } => Br(b2), Small(wh), Flag(many), Flag(clr);
        BrCallInd { b1 b2 wh many clr } => Br(b1), Br(b2), Small(wh), Flag(many), Flag(clr);
        Clrrrb { pred_only } => Flag(pred_only);
        Movl { r1 imm } => Gr(r1), Wide(imm);
        Break { imm } => Wide(imm);
        Nop { imm } => Wide(imm);
        Hint { imm } => Wide(imm);
    }
}

/// The value of an operand, by its number.
pub fn value_at(values: &Values, index: usize) -> Value
    ensures { result ≡ at values.now index }
{
    if index < 7 { values[index] } else { NONE }
}

/// The general register at an index.
fn gr(values: &Values, index: usize) -> Gr
    ensures { result ≡ gr_of (at values.now index) }
{
    match value_at(values, index) {
        Value::Gr(x) => x,
        _ => Gr::default(),
    }
}

/// The predicate register at an index.
fn pr(values: &Values, index: usize) -> Pr
    ensures { result ≡ pr_of (at values.now index) }
{
    match value_at(values, index) {
        Value::Pr(x) => x,
        _ => Pr::default(),
    }
}

/// The branch register at an index.
fn br(values: &Values, index: usize) -> Br
    ensures { result ≡ br_of (at values.now index) }
{
    match value_at(values, index) {
        Value::Br(x) => x,
        _ => Br::default(),
    }
}

/// The choice at an index.
pub fn flag(values: &Values, index: usize) -> bool
    ensures { result ≡ flag_of (at values.now index) }
{
    match value_at(values, index) {
        Value::Flag(x) => x,
        _ => false,
    }
}

/// The number at an index.
pub fn small(values: &Values, index: usize) -> u8
    ensures { result ≡ small_of (at values.now index) }
{
    match value_at(values, index) {
        Value::Small(x) => x,
        _ => 0,
    }
}

/// The number of up to 64 bits at an index.
fn wide(values: &Values, index: usize) -> u64
    ensures { result ≡ wide_of (at values.now index) }
{
    match value_at(values, index) {
        Value::Wide(x) => x,
        _ => 0,
    }
}

/// The mask at an index.
fn mask(values: &Values, index: usize) -> u32
    ensures { result ≡ mask_of (at values.now index) }
{
    match value_at(values, index) {
        Value::Mask(x) => x,
        _ => 0,
    }
}

/// The signed number at an index.
fn signed(values: &Values, index: usize) -> i64
    ensures { result ≡ signed_value (at values.now index) }
{
    match value_at(values, index) {
        Value::Signed(x) => x,
        _ => 0,
    }
}

/// The short signed number at an index.
fn short(values: &Values, index: usize) -> i16
    ensures { result ≡ short_of (at values.now index) }
{
    match value_at(values, index) {
        Value::Short(x) => x,
        _ => 0,
    }
}

/// The displacement at an index.
fn displacement(values: &Values, index: usize) -> i32
    ensures { result ≡ displacement_of (at values.now index) }
{
    match value_at(values, index) {
        Value::Displacement(x) => x,
        _ => 0,
    }
}

/// The update of a load or a store, whose register or number is operand 5.
fn update_of(update: UpdateKind, values: &Values) -> Update
    ensures { result ≡ update_of update (at values.now 5) }
{
    match update {
        UpdateKind::None => Update::None,
        UpdateKind::Reg => Update::Reg(gr(values, 5)),
        UpdateKind::Imm => Update::Imm(short(values, 5)),
    }
}

macro_rules! match_opcode {
    ($opcode:expr, $values:ident; $($variant:ident $(($($name:ident),*))? => $($field:ident = $kind:ident $at:literal),* $(| $($own:ident: $value:expr),*)?;)*) => {
        match $opcode {
            $(Opcode::$variant $(($($name),*))? => Op::$variant { $($field: $kind($values, $at),)* $($($own: $value,)*)? },)*
        }
    };
}

/// The instruction with this opcode and these values.
pub fn insn_of(opcode: Opcode, values: &Values) -> Insn
    ensures { result ≡ insn_of opcode (at values.now) }
{
    let op = match_opcode! {
        opcode, values;
        Alu(f) => r1 = gr 1, r2 = gr 2, r3 = gr 3 | f: f;
        ShlAdd => p4 = flag 1, r1 = gr 2, r2 = gr 3, count = small 4, r3 = gr 5;
        AluImm8(f) => r1 = gr 1, imm = signed 2, r3 = gr 3 | f: f;
        AddImm14 => p4 = flag 1, r1 = gr 2, imm = signed 3, r3 = gr 4;
        AddImm22 => r1 = gr 1, imm = signed 2, r3 = gr 3;
        Cmp(rel, kind) => four_bytes = flag 1, p1 = pr 2, p2 = pr 3, r2 = gr 4, r3 = gr 5 | rel: rel, kind: kind;
        CmpZero(rel, kind) => four_bytes = flag 1, p1 = pr 2, p2 = pr 3, r3 = gr 4 | rel: rel, kind: kind;
        CmpImm(rel, kind) => four_bytes = flag 1, p1 = pr 2, p2 = pr 3, imm = signed 4, r3 = gr 5 | rel: rel, kind: kind;
        Lane(f) => size = small 1, r1 = gr 2, r2 = gr 3, r3 = gr 4 | f: f;
        ShiftVar(f) => r1 = gr 1, value = gr 2, count = gr 3 | f: f;
        Popcnt => r1 = gr 1, r3 = gr 2;
        Shrp => r1 = gr 1, r2 = gr 2, r3 = gr 3, count = small 4;
        Extr => signed = flag 1, r1 = gr 2, r3 = gr 3, pos = small 4, len = small 5;
        DepZ => r1 = gr 1, r2 = gr 2, pos = small 3, len = small 4;
        DepZImm => r1 = gr 1, imm = signed 2, pos = small 3, len = small 4;
        DepImm => r1 = gr 1, ones = flag 2, r3 = gr 3, pos = small 4, len = small 5;
        Dep => r1 = gr 1, r2 = gr 2, r3 = gr 3, pos = small 4, len = small 5;
        Tbit => unc = flag 1, p1 = pr 2, p2 = pr 3, r3 = gr 4, pos = small 5;
        Tnat => unc = flag 1, p1 = pr 2, p2 = pr 3, r3 = gr 4;
        ChkS(unit) => r2 = gr 1, disp = displacement 2 | unit: unit;
        MovToBr => b1 = br 1, r2 = gr 2, ret = flag 3, imp = flag 4, wh = small 5, tag = short 6;
        MovFromBr => r1 = gr 1, b2 = br 2;
        MovToPr => r2 = gr 1, mask = mask 2;
        MovToPrRot => imm = signed 1;
        MovFromIp => r1 = gr 1;
        MovFromPr => r1 = gr 1;
        MovToAr(ar) => r2 = gr 1 | ar: ar;
        MovToArImm(ar) => imm = signed 1 | ar: ar;
        MovFromAr(ar) => r1 = gr 1 | ar: ar;
        Ext => signed = flag 1, size = small 2, r1 = gr 3, r3 = gr 4;
        Load(kind, update) => size = small 1, hint = small 2, r1 = gr 3, r3 = gr 4 | kind: kind, update: update_of(update, values);
        Store(kind, update) => size = small 1, hint = small 2, r3 = gr 3, r2 = gr 4 | kind: kind, update: update_of(update, values);
        Xchg => size = small 1, hint = small 2, r1 = gr 3, r3 = gr 4, r2 = gr 5;
        FetchAdd => size = small 1, release = flag 2, hint = small 3, r1 = gr 4, r3 = gr 5, inc = short 6;
        ChkA => clear = flag 1, r1 = gr 2, disp = displacement 3;
        Invala =>;
        Mf =>;
        InvalaE => r1 = gr 1;
        Alloc => r1 = gr 1, sof = small 2, sol = small 3, sor = small 4;
        Br(kind) => wh = small 1, many = flag 2, clr = flag 3, disp = displacement 4 | kind: kind;
        BrCall => b1 = br 1, wh = small 2, many = flag 3, clr = flag 4, disp = displacement 5;
        BrInd => b2 = br 1, wh = small 2, many = flag 3, clr = flag 4;
        BrRet => b2 = br 1, wh = small 2, many = flag 3, clr = flag 4;
        BrCallInd => b1 = br 1, b2 = br 2, wh = small 3, many = flag 4, clr = flag 5;
        Clrrrb => pred_only = flag 1;
        Movl => r1 = gr 1, imm = wide 2;
        Break(unit) => imm = wide 1 | unit: unit;
        Nop(unit) => imm = wide 1 | unit: unit;
        Hint(unit) => imm = wide 1 | unit: unit;
    };
    Insn {
        qp: pr(values, 0),
        op,
    }
}

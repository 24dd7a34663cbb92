//! The form that an opcode is printed with.

ghost use Rattle.std.specs.Prelude.{◌≡◌, MatchOption, false, true};
ghost use Rattle.asm_forms.specs.Rows.{row_of};
ghost use Rattle.insn_rows.specs.Values.{at};
ghost use Rattle.asm_canonical.specs.Canonical.{forms_of, has_fixed, form_of};

use crate::fields::is_said;
use asm_forms::{Form, Row, Said};
use ia_insn::{AluFn, Ar, BranchKind, CmpKind, LaneFn, ShiftFn, Unit};
use insn_rows::{Opcode, UpdateKind, Values, value_at};

/// The forms that an opcode is printed with: one, or one for each size or choice that their stems tell.
fn forms_of(opcode: Opcode) -> &'static [Form]
    ensures { result.now ≡ forms_of opcode }
{
    match opcode {
        // A formats
        Opcode::Alu(AluFn::Add) => &[Form::Add],
        Opcode::Alu(AluFn::Add1) => &[Form::AddOne],
        Opcode::Alu(AluFn::Sub) => &[Form::Sub],
        Opcode::Alu(AluFn::Sub1) => &[Form::SubOne],
        Opcode::Alu(AluFn::Addp4) => &[Form::Addp4],
        Opcode::Alu(AluFn::And) => &[Form::And],
        Opcode::Alu(AluFn::Andcm) => &[Form::Andcm],
        Opcode::Alu(AluFn::Or) => &[Form::Or],
        Opcode::Alu(AluFn::Xor) => &[Form::Xor],
        Opcode::ShlAdd => &[Form::Shladd, Form::Shladdp4],
        Opcode::AluImm8(AluFn::Sub) => &[Form::SubImm],
        Opcode::AluImm8(AluFn::And) => &[Form::AndImm],
        Opcode::AluImm8(AluFn::Andcm) => &[Form::AndcmImm],
        Opcode::AluImm8(AluFn::Or) => &[Form::OrImm],
        Opcode::AluImm8(AluFn::Xor) => &[Form::XorImm],
        Opcode::AluImm8(_) => &[],
        Opcode::AddImm14 => &[Form::Adds, Form::Addp4Imm],
        Opcode::AddImm22 => &[Form::Addl],
        Opcode::Cmp(_, CmpKind::Normal | CmpKind::Unc) => &[Form::Cmp, Form::Cmp4],
        Opcode::Cmp(..) => &[Form::CmpParallel, Form::Cmp4Parallel],
        Opcode::CmpZero(..) => &[Form::CmpZero, Form::Cmp4Zero],
        Opcode::CmpImm(_, CmpKind::Normal | CmpKind::Unc) => &[Form::CmpImm, Form::Cmp4Imm],
        Opcode::CmpImm(..) => &[Form::CmpImmParallel, Form::Cmp4ImmParallel],
        Opcode::Lane(LaneFn::Padd) => &[Form::Padd1, Form::Padd2, Form::Padd4],
        Opcode::Lane(LaneFn::Psub) => &[Form::Psub1, Form::Psub2, Form::Psub4],
        Opcode::Lane(_) => &[Form::Pcmp1, Form::Pcmp2, Form::Pcmp4],
        // I formats
        Opcode::ShiftVar(ShiftFn::Shl) => &[Form::Shl],
        Opcode::ShiftVar(_) => &[Form::Shr],
        Opcode::Popcnt => &[Form::Popcnt],
        Opcode::Shrp => &[Form::Shrp],
        Opcode::Extr => &[Form::Extr],
        Opcode::DepZ => &[Form::DepZ],
        Opcode::DepZImm => &[Form::DepZImm],
        Opcode::DepImm => &[Form::DepImm],
        Opcode::Dep => &[Form::Dep],
        Opcode::Tbit => &[Form::Tbit],
        Opcode::Tnat => &[Form::Tnat],
        Opcode::ChkS(_) => &[Form::ChkS],
        Opcode::MovToBr => &[Form::MovToBrTag],
        Opcode::MovFromBr => &[Form::MovFromBr],
        Opcode::MovToPr => &[Form::MovToPrMask],
        Opcode::MovToPrRot => &[Form::MovToPrRot],
        Opcode::MovFromIp => &[Form::MovFromIp],
        Opcode::MovFromPr => &[Form::MovFromPr],
        Opcode::MovToAr(Ar::Unat) => &[Form::MovToArM],
        Opcode::MovToAr(_) => &[Form::MovToArI],
        Opcode::MovToArImm(Ar::Unat) => &[Form::MovToArImmM],
        Opcode::MovToArImm(_) => &[Form::MovToArImmI],
        Opcode::MovFromAr(Ar::Unat) => &[Form::MovFromArM],
        Opcode::MovFromAr(_) => &[Form::MovFromArI],
        Opcode::Ext => &[
            Form::Zxt1,
            Form::Zxt2,
            Form::Zxt4,
            Form::Sxt1,
            Form::Sxt2,
            Form::Sxt4,
        ],
        // M formats
        Opcode::Load(_, UpdateKind::None) => &[Form::Ld1, Form::Ld2, Form::Ld4, Form::Ld8],
        Opcode::Load(_, UpdateKind::Reg) => &[
            Form::Ld1Reg,
            Form::Ld2Reg,
            Form::Ld4Reg,
            Form::Ld8Reg,
        ],
        Opcode::Load(_, UpdateKind::Imm) => &[
            Form::Ld1Imm,
            Form::Ld2Imm,
            Form::Ld4Imm,
            Form::Ld8Imm,
        ],
        Opcode::Store(_, UpdateKind::Imm) => &[
            Form::St1Imm,
            Form::St2Imm,
            Form::St4Imm,
            Form::St8Imm,
        ],
        Opcode::Store(..) => &[Form::St1, Form::St2, Form::St4, Form::St8],
        Opcode::Xchg => &[Form::Xchg1, Form::Xchg2, Form::Xchg4, Form::Xchg8],
        Opcode::FetchAdd => &[Form::Fetchadd4, Form::Fetchadd8],
        Opcode::ChkA => &[Form::ChkANc, Form::ChkAClr],
        Opcode::Invala => &[Form::Invala],
        Opcode::Mf => &[Form::Mf],
        Opcode::InvalaE => &[Form::InvalaE],
        Opcode::Alloc => &[Form::Alloc],
        // B formats
        Opcode::Br(BranchKind::Cond) => &[Form::BrCond],
        Opcode::Br(_) => &[Form::BrLoop],
        Opcode::BrCall => &[Form::BrCall],
        Opcode::BrInd => &[Form::BrInd],
        Opcode::BrRet => &[Form::BrRet],
        Opcode::BrCallInd => &[Form::BrCallInd],
        Opcode::Clrrrb => &[Form::Clrrrb, Form::ClrrrbPr],
        // X formats
        Opcode::Movl => &[Form::Movl],
        // the formats that every unit has
        Opcode::Break(Unit::X) => &[Form::BreakLong],
        Opcode::Break(_) => &[Form::BreakImm],
        Opcode::Nop(Unit::X) => &[Form::NopLong],
        Opcode::Nop(_) => &[Form::NopImm],
        Opcode::Hint(_) => &[Form::HintImm],
    }
}

/// Whether the values that a form has of its own are those of the instruction.
fn has_fixed(fixed: &[(Said, u8)], opcode: Opcode, values: &Values) -> bool
    ensures { result ≡ has_fixed fixed.now opcode (at values.now) }
{
    for (said, at) in fixed {
        if !is_said(*said, opcode, &value_at(values, usize::from(*at))) {
            return false;
        }
    }
    true
}

/// The row of a form, where the values that the form has of its own are those of the instruction.
fn row_where_fixed(form: Form, opcode: Opcode, values: &Values) -> Option<Row>
    ensures { MatchOption result (has_fixed (row_of form).fixed opcode (at values.now) ≡ false) (λ row. (row ≡ form) × (has_fixed (row_of form).fixed opcode (at values.now) ≡ true)) }
{
    let row = form.row();
    if has_fixed(row.fixed(), opcode, values) {
        Some(row)
    } else {
        None
    }
}

/// The row of the form of an opcode and values: of those that the opcode is printed with, the first whose own values they
/// are.
pub(crate) fn form_of(opcode: Opcode, values: &Values) -> Row
    ensures { result ≡ form_of opcode (at values.now) }
{
    for form in forms_of(opcode) {
        if let Some(row) = row_where_fixed(*form, opcode, values) {
            return row;
        }
    }
    Form::default().row()
}

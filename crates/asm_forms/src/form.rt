//! The forms of lines.

ghost use Rattle.std.specs.Prelude.{◌≡◌};
ghost use Rattle.asm_forms.specs.declared.form.Form.TheVariants as forms;

/// A form of a slot line or of a directive. How its lines are written stands in its row, and here the manual's
/// formats of what they say (volume 3, chapter 4). The forms stand in the order of the rows.
#[derive(Clone, Copy)]
pub enum Form {
    /// The directive `.data`.
    Data,
    /// The directive `.endp`.
    Endp,
    /// The directive `.entry`.
    Entry,
    /// The directive `.global`.
    Global,
    /// The directive `.pred.rel`, whose predicates are read apart.
    PredRel,
    /// The directive `.proc`.
    Proc,
    /// The directive `.skip`.
    Skip,
    /// The directive `.text`.
    Text,
    /// A1.
    Add,
    /// A1.
    AddOne,
    /// A4 or A5, by the number.
    AddImm,
    /// A5.
    Addl,
    /// A1.
    Addp4,
    /// A4.
    Addp4Imm,
    /// A4.
    Adds,
    /// M34.
    Alloc,
    /// A1.
    And,
    /// A3.
    AndImm,
    /// A1.
    Andcm,
    /// A3.
    AndcmImm,
    /// B4.
    BrInd,
    /// B1.
    BrCond,
    /// B1 or B2, by the completer.
    BrLoop,
    /// B5.
    BrCallInd,
    /// B3.
    BrCall,
    /// B4.
    BrRet,
    /// Of any unit (I19, M37, B9, F15 and X1), with the number 0.
    Break,
    /// Of a unit with short slots (I19, M37, B9 and F15).
    BreakImm,
    /// X1.
    BreakLong,
    /// I20 and M20.
    ChkS,
    /// M22.
    ChkANc,
    /// M22.
    ChkAClr,
    /// B8.
    Clrrrb,
    /// B8.
    ClrrrbPr,
    /// A6.
    Cmp,
    /// A6 with the targets exchanged.
    CmpNe,
    /// A6 with the registers exchanged.
    CmpGt,
    /// A6 with the targets and the registers exchanged.
    CmpLe,
    /// A6, of the parallel types.
    CmpParallel,
    /// A7.
    CmpZero,
    /// A8.
    CmpImm,
    /// A8 with the targets exchanged.
    CmpImmNe,
    /// A8, of the parallel types.
    CmpImmParallel,
    /// A8, with the number lowered by one.
    CmpImmLe,
    /// A8, with the number lowered by one and the targets exchanged.
    CmpImmGt,
    /// A6.
    Cmp4,
    /// A6 with the targets exchanged.
    Cmp4Ne,
    /// A6 with the registers exchanged.
    Cmp4Gt,
    /// A6 with the targets and the registers exchanged.
    Cmp4Le,
    /// A6, of the parallel types.
    Cmp4Parallel,
    /// A7.
    Cmp4Zero,
    /// A8.
    Cmp4Imm,
    /// A8 with the targets exchanged.
    Cmp4ImmNe,
    /// A8, of the parallel types.
    Cmp4ImmParallel,
    /// A8, with the number lowered by one.
    Cmp4ImmLe,
    /// A8, with the number lowered by one and the targets exchanged.
    Cmp4ImmGt,
    /// Numbers of 1 byte, 1 to 32, which are read apart.
    Data1,
    /// Numbers of 2 bytes, 1 to 32, which are read apart.
    Data2,
    /// Numbers of 4 bytes, 1 to 32, which are read apart.
    Data4,
    /// Numbers of 8 bytes, 1 to 32, which are read apart.
    Data8,
    /// I12.
    DepZ,
    /// I13.
    DepZImm,
    /// I14.
    DepImm,
    /// I15.
    Dep,
    /// I11.
    Extr,
    /// M17.
    Fetchadd4,
    /// M17.
    Fetchadd8,
    /// I18, M48 and B9, with the number 0.
    Hint,
    /// I18, M48 and B9.
    HintImm,
    /// M24.
    Invala,
    /// M26.
    InvalaE,
    /// M1.
    Ld1,
    /// M2.
    Ld1Reg,
    /// M3.
    Ld1Imm,
    /// M1.
    Ld2,
    /// M2.
    Ld2Reg,
    /// M3.
    Ld2Imm,
    /// M1.
    Ld4,
    /// M2.
    Ld4Reg,
    /// M3.
    Ld4Imm,
    /// M1.
    Ld8,
    /// M2.
    Ld8Reg,
    /// M3.
    Ld8Imm,
    /// M24.
    Mf,
    /// A4, with the number 0.
    MovGr,
    /// A5, with r0.
    MovImm,
    /// I21, with the tag 0.
    MovToBr,
    /// I21.
    MovToBrTag,
    /// I22.
    MovFromBr,
    /// I23, with the whole mask.
    MovToPr,
    /// I23.
    MovToPrMask,
    /// I24.
    MovToPrRot,
    /// I25.
    MovFromIp,
    /// I25.
    MovFromPr,
    /// I26 or M29, by the register.
    MovToAr,
    /// I28 or M31, by the register.
    MovFromAr,
    /// I26.
    MovToArI,
    /// I27.
    MovToArImmI,
    /// I28.
    MovFromArI,
    /// M29.
    MovToArM,
    /// M30.
    MovToArImmM,
    /// M31.
    MovFromArM,
    /// X2.
    Movl,
    /// X2, with the address of the label.
    MovlLabel,
    /// Of any unit (I18, M48, B9, F16 and X5), with the number 0.
    Nop,
    /// Of a unit with short slots (I18, M48, B9 and F16).
    NopImm,
    /// X5.
    NopLong,
    /// A1.
    Or,
    /// A3.
    OrImm,
    /// A9.
    Padd1,
    /// A9.
    Padd2,
    /// A9.
    Padd4,
    /// A9.
    Pcmp1,
    /// A9.
    Pcmp2,
    /// A9.
    Pcmp4,
    /// I9.
    Popcnt,
    /// A9.
    Psub1,
    /// A9.
    Psub2,
    /// A9.
    Psub4,
    /// I7.
    Shl,
    /// I12, with as many bits as are left of 64.
    ShlNumber,
    /// A2.
    Shladd,
    /// A2.
    Shladdp4,
    /// I5.
    Shr,
    /// I11, with as many bits as are left of 64.
    ShrNumber,
    /// I10.
    Shrp,
    /// M4.
    St1,
    /// M5.
    St1Imm,
    /// M4.
    St2,
    /// M5.
    St2Imm,
    /// M4.
    St4,
    /// M5.
    St4Imm,
    /// M4.
    St8,
    /// M5.
    St8Imm,
    /// A1.
    Sub,
    /// A1.
    SubOne,
    /// A3.
    SubImm,
    /// I29.
    Sxt1,
    /// I29.
    Sxt2,
    /// I29.
    Sxt4,
    /// I16.
    Tbit,
    /// I16 with the targets exchanged.
    TbitNz,
    /// I17.
    Tnat,
    /// I17 with the targets exchanged.
    TnatNz,
    /// M16.
    Xchg1,
    /// M16.
    Xchg2,
    /// M16.
    Xchg4,
    /// M16.
    Xchg8,
    /// A1.
    Xor,
    /// A3.
    XorImm,
    /// I29.
    Zxt1,
    /// I29.
    Zxt2,
    /// I29.
    Zxt4,
}

impl Default for Form {
    ghost is_default = { λ form. form ≡ forms.Data };

    /// The form of `.data`.
    fn default() -> Self {
        Form::Data
    }
}

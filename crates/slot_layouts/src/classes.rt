//! Which slots an operation fits.

ghost use Rattle.std.specs.Prelude.{◌≡◌};
ghost use Rattle.slot_layouts.specs.Classes.{class_of_unit, class_of_branch, class_of, has_place};

use ia_insn::{Ar, BranchKind, Op, Unit};

/// The slots that a listed instruction fits (volume 1, chapter 3, instruction encoding).
#[derive(Clone, Copy, Debug, Default, PartialEq, Eq)]
pub enum SlotClass {
    /// M and I slots.
    #[default]
    A,
    /// I slots.
    I,
    /// M slots.
    M,
    /// F slots.
    F,
    /// B slots.
    B,
    /// Slot 2, where it is a B slot: the loop branches (volume 3, chapter 2, `br`).
    Loop,
    /// Slot 1 over L and X: the long instructions.
    X,
}

impl SlotClass {
    /// Whether an instruction of the class may stand in this slot of its bundle, 0 to 2, where the template has
    /// this unit. A long instruction stands in slot 1.
    pub fn has_place(self, unit: Unit, slot: u8) -> bool
        ensures { result ≡ has_place self unit slot }
    {
        match (self, unit) {
            (SlotClass::A, Unit::M | Unit::I)
            | (SlotClass::I, Unit::I)
            | (SlotClass::M, Unit::M)
            | (SlotClass::F, Unit::F)
            | (SlotClass::B, Unit::B) => true,
            (SlotClass::Loop, Unit::B) => slot == 2,
            (SlotClass::X, Unit::L | Unit::X) => slot == 1,
            _ => false,
        }
    }
}

/// The class of what is of this unit alone.
fn class_of_unit(unit: Unit) -> SlotClass
    ensures { result ≡ class_of_unit unit }
{
    match unit {
        Unit::M => SlotClass::M,
        Unit::I => SlotClass::I,
        Unit::F => SlotClass::F,
        Unit::B => SlotClass::B,
        Unit::L | Unit::X => SlotClass::X,
    }
}

/// The class of a direct branch other than a call: the loop branches stand in slot 2.
fn class_of_branch(kind: BranchKind) -> SlotClass
    ensures { result ≡ class_of_branch kind }
{
    if kind == BranchKind::Cond {
        SlotClass::B
    } else {
        SlotClass::Loop
    }
}

/// The class of an operation: which slots a listed instruction with it fits.
pub fn class_of(op: &Op) -> SlotClass
    ensures { result ≡ class_of op.now }
{
    match *op {
        Op::Alu { .. }
        | Op::ShlAdd { .. }
        | Op::AluImm8 { .. }
        | Op::AddImm14 { .. }
        | Op::AddImm22 { .. }
        | Op::Cmp { .. }
        | Op::CmpZero { .. }
        | Op::CmpImm { .. }
        | Op::Lane { .. } => SlotClass::A,
        Op::ChkS { unit, .. }
        | Op::Break { unit, .. }
        | Op::Nop { unit, .. }
        | Op::Hint { unit, .. } => class_of_unit(unit),
        Op::MovToAr { ar: Ar::Unat, .. }
        | Op::MovToArImm { ar: Ar::Unat, .. }
        | Op::MovFromAr { ar: Ar::Unat, .. }
        | Op::Load { .. }
        | Op::Store { .. }
        | Op::Xchg { .. }
        | Op::FetchAdd { .. }
        | Op::ChkA { .. }
        | Op::Invala
        | Op::Mf
        | Op::InvalaE { .. }
        | Op::Alloc { .. } => SlotClass::M,
        Op::Br { kind, .. } => class_of_branch(kind),
        Op::BrCall { .. }
        | Op::BrInd { .. }
        | Op::BrRet { .. }
        | Op::BrCallInd { .. }
        | Op::Clrrrb { .. } => SlotClass::B,
        Op::Movl { .. } => SlotClass::X,
        _ => SlotClass::I,
    }
}

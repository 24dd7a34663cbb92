//! The parts of a long immediate: what the L slot and what the X slot holds.

ghost use Rattle.std.specs.Prelude.{◌≡◌, ◌<◌, ◌^◌, ◌↔◌, IsTrue};
ghost use Rattle.formats_b.specs.PartsX.{number_part, move_part, whole_number, whole_move, low_of, slot_op, whole_op, HasNumberInRange};
ghost use Rattle.formats_b.specs.ListedX.{slot_part};

use bundle_bits::Field;
use ia_insn::{Insn, Op};

/// What the X slot holds of the number of a break or nop: its top bit and its 20 low bits.
fn number_part(number: u64) -> u64
    ensures { result ≡ number_part number }
{
    (Field::<61, 1>::get(number) << 20) + Field::<0, 20>::get(number)
}

/// What the X slot holds of the immediate of a move: i, imm9d, imm5c, ic and imm7b.
fn move_part(imm: u64) -> u64
    ensures { result ≡ move_part imm }
{
    (Field::<63, 1>::get(imm) << 22)
        + (Field::<7, 9>::get(imm) << 13)
        + (Field::<16, 5>::get(imm) << 8)
        + (Field::<21, 1>::get(imm) << 7)
        + Field::<0, 7>::get(imm)
}

/// The number of a break or nop whose parts these are.
fn whole_number(low: u64, part: u64) -> u64
    requires { low < 2 ^ 41 }
    ensures { result ≡ whole_number low part }
{
    (Field::<20, 1>::get(part) << 61) + (low << 20) + Field::<0, 20>::get(part)
}

/// The immediate of a move whose parts these are.
fn whole_move(low: u64, part: u64) -> u64
    requires { low < 2 ^ 41 }
    ensures { result ≡ whole_move low part }
{
    let high = (Field::<22, 1>::get(part) << 63) + (low << 22) + (Field::<7, 1>::get(part) << 21);
    high + (Field::<8, 5>::get(part) << 16)
        + (Field::<13, 9>::get(part) << 7)
        + Field::<0, 7>::get(part)
}

/// The word of the L slot: imm41, 41 bits of the immediate.
pub(crate) fn low_of(op: &Op) -> u64
    ensures value { result ≡ low_of op.now }
    ensures within { result < 2 ^ 41 }
{
    match *op {
        Op::Movl { imm, .. } => Field::<22, 41>::get(imm),
        Op::Break { imm, .. } | Op::Nop { imm, .. } => Field::<20, 41>::get(imm),
        _ => 0,
    }
}

/// The operation with what the X slot holds of its immediate in place of it.
fn slot_op(op: &Op) -> Op
    ensures { result ≡ slot_op op.now }
{
    match *op {
        Op::Movl { r1, imm } => Op::Movl {
            r1,
            imm: move_part(imm),
        },
        Op::Break { unit, imm } => Op::Break {
            unit,
            imm: number_part(imm),
        },
        Op::Nop { unit, imm } => Op::Nop {
            unit,
            imm: number_part(imm),
        },
        op => op,
    }
}

/// The operation whose immediate has these parts.
fn whole_op(low: u64, op: Op) -> Op
    requires { low < 2 ^ 41 }
    ensures { result ≡ whole_op low op }
{
    match op {
        Op::Movl { r1, imm } => Op::Movl {
            r1,
            imm: whole_move(low, imm),
        },
        Op::Break { unit, imm } => Op::Break {
            unit,
            imm: whole_number(low, imm),
        },
        Op::Nop { unit, imm } => Op::Nop {
            unit,
            imm: whole_number(low, imm),
        },
        op => op,
    }
}

/// The law that a number of 64 bits is below 2 to the power of 64. It does nothing.
fn has_64_bits(number: u64)
    ensures { number < 2 ^ 64 }
{}

/// Whether a long immediate has its bits: 62 of a break or nop.
pub(crate) fn is_within(op: &Op) -> bool
    ensures { IsTrue result ↔ HasNumberInRange op.now }
{
    match *op {
        Op::Movl { imm, .. } => {
            has_64_bits(imm);
            true
        }
        Op::Break { imm, .. } | Op::Nop { imm, .. } => imm < 1 << 62,
        _ => true,
    }
}

/// The instruction with what the X slot holds of its immediate.
pub(crate) fn slot_part(insn: &Insn) -> Insn
    ensures { result ≡ slot_part insn.now }
{
    Insn {
        qp: insn.qp,
        op: slot_op(&insn.op),
    }
}

/// The instruction whose immediate has these parts.
pub(crate) fn whole(low: u64, part: Insn) -> Insn
    requires { low < 2 ^ 41 }
    ensures { result ≡ record { qp = part.qp; op = whole_op low part.op } }
{
    Insn {
        qp: part.qp,
        op: whole_op(low, part.op),
    }
}

//! What completers and operands an instruction is printed with.

ghost use Rattle.std.specs.Prelude.{◌≡◌};
ghost use Rattle.asm_canonical.specs.Canonical.{number, natural, ones_number, is_said, completer_of, value_token, register_of, operand_of};

use asm_forms::{Completer, CompleterSet, Kind, Said, members};
use asm_lexemes::Token;
use ia_insn::Ar;
use insn_rows::{Opcode, Value};

/// A number by sign and magnitude.
fn number(z: i64) -> Token
    ensures { result ≡ number z }
{
    Token::Number {
        negative: z < 0,
        magnitude: z.unsigned_abs(),
    }
}

/// A number without a sign.
pub(crate) fn natural(n: u64) -> Token
    ensures { result ≡ natural n }
{
    Token::Number {
        negative: false,
        magnitude: n,
    }
}

/// 0, or -1 for ones.
fn ones_number(ones: bool) -> Token
    ensures { result ≡ ones_number ones }
{
    if ones { number(-1) } else { number(0) }
}

/// Whether what is said is so of an instruction of this opcode, where it speaks of a value, of this one.
pub(crate) fn is_said(said: Said, opcode: Opcode, value: &Value) -> bool
    ensures { result ≡ is_said said opcode value.now }
{
    match said {
        Said::Flag(own) => match *value {
            Value::Flag(flag) => { if own { flag } else { !flag } }
            _ => false,
        },
        Said::Small(own) => match *value {
            Value::Small(number) => own == number,
            _ => false,
        },
        Said::Mask(own) => match *value {
            Value::Mask(mask) => own == mask,
            _ => false,
        },
        Said::Relation(own) => match opcode {
            Opcode::Cmp(rel, _) | Opcode::CmpZero(rel, _) | Opcode::CmpImm(rel, _) => own == rel,
            _ => true,
        },
        Said::Compare(own) => match opcode {
            Opcode::Cmp(_, kind) | Opcode::CmpZero(_, kind) | Opcode::CmpImm(_, kind) => own
                == kind,
            _ => true,
        },
        Said::Lane(own) => match opcode {
            Opcode::Lane(f) => own == f,
            _ => true,
        },
        Said::Shift(own) => match opcode {
            Opcode::ShiftVar(f) => own == f,
            _ => true,
        },
        Said::Load(own) => match opcode {
            Opcode::Load(kind, _) => own == kind,
            _ => true,
        },
        Said::Store(own) => match opcode {
            Opcode::Store(kind, _) => own == kind,
            _ => true,
        },
        Said::Branch(own) => match opcode {
            Opcode::Br(kind) => own == kind,
            _ => true,
        },
        Said::Unit(own) => match opcode {
            Opcode::ChkS(unit) | Opcode::Break(unit) | Opcode::Nop(unit) | Opcode::Hint(unit) => own
                == unit,
            _ => true,
        },
        Said::Nothing | Said::NoUnit => true,
    }
}

/// The completer of a set that an instruction of this opcode is printed with, and of this value, where the set says one:
/// the first that says what is so.
pub(crate) fn completer_of(set: &CompleterSet, opcode: Opcode, value: &Value) -> Completer
    ensures { result ≡ completer_of set.now opcode value.now }
{
    for completer in members(set) {
        if is_said(completer.says, opcode, value) {
            return *completer;
        }
    }
    Completer::default()
}

/// The token that a value is printed as; a target is a name.
fn value_token(value: Value) -> Token
    ensures { result ≡ value_token value }
{
    match value {
        Value::Gr(register) => Token::Gr(register),
        Value::Pr(register) => Token::Pr(register),
        Value::Br(register) => Token::Br(register),
        Value::Flag(value) => ones_number(value),
        Value::Small(value) => natural(u64::from(value)),
        Value::Wide(value) => natural(value),
        Value::Mask(value) => natural(u64::from(value)),
        Value::Signed(value) => number(value),
        Value::Short(value) => number(i64::from(value)),
        Value::Displacement(_) => Token::Name,
        Value::Absent => Token::OtherMark,
    }
}

/// The application register of an opcode.
fn register_of(opcode: Opcode) -> Ar
    ensures { result ≡ register_of opcode }
{
    match opcode {
        Opcode::MovToAr(register) | Opcode::MovToArImm(register) | Opcode::MovFromAr(register) =>
            register,
        _ => Ar::Unat,
    }
}

/// The token of an operand: its value's, or an application register.
pub(crate) fn operand_of(kind: Kind, opcode: Opcode, value: Value) -> Token
    ensures { result ≡ operand_of kind opcode value }
{
    match kind {
        Kind::Ar => Token::Ar(register_of(opcode)),
        _ => value_token(value),
    }
}

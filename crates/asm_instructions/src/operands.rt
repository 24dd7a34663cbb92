//! What the operands and the completers of a line say, as values of an instruction. Where another token stands there, the
//! answer is the first value of the kind.

ghost use Rattle.std.specs.Prelude.{◌≡◌, ◌<◌, ◌≤◌, ◌≢◌, negsuc};
ghost use Rattle.asm_instructions.specs.Operands.{token_at, magnitude_at, is_negative_at, small, small_at, u32_at, long, short, wrapped, even, number_value, operand_value, said_value, bytes};

use asm_forms::{AccessSize, Kind, NumberField, Said};
use asm_lexemes::Token;
use insn_rows::Value;

fn token_at(tokens: &[Token], at: usize) -> Token
    ensures { result ≡ token_at tokens.now at }
{
    match tokens.get(at) {
        Some(token) => *token,
        None => Token::OtherMark,
    }
}

/// The number at a position, without its sign.
pub(crate) fn magnitude_at(tokens: &[Token], at: usize) -> u64
    ensures { result ≡ magnitude_at tokens.now at }
{
    match token_at(tokens, at) {
        Token::Number { magnitude, .. } => magnitude,
        _ => 0,
    }
}

/// Whether a `-` stands before the number at a position.
pub(crate) fn is_negative_at(tokens: &[Token], at: usize) -> bool
    ensures { result ≡ is_negative_at tokens.now at }
{
    match token_at(tokens, at) {
        Token::Number { negative, .. } => negative,
        _ => false,
    }
}

/// The number, where it is below 256.
fn small(magnitude: u64) -> u8
    ensures { result ≡ small magnitude }
{
    if magnitude < 256 { magnitude as u8 } else { 0 }
}

/// The number at a position, where it is below 256.
pub(crate) fn small_at(tokens: &[Token], at: usize) -> u8
    ensures { result ≡ small_at tokens.now at }
{
    small(magnitude_at(tokens, at))
}

/// The number at a position, where it is below 2^32, and 0 otherwise.
pub fn u32_at(tokens: &[Token], at: usize) -> u32
    ensures { result ≡ u32_at tokens.now at }
{
    let magnitude = magnitude_at(tokens, at);
    if magnitude < 4_294_967_296 {
        magnitude as u32
    } else {
        0
    }
}

/// The number with its sign, where 64 bits have room for it.
fn long(negative: bool, magnitude: u64) -> i64
    ensures value { result ≡ long negative magnitude }
    ensures room { result ≢ negsuc 9223372036854775807 }
{
    if magnitude >= 9_223_372_036_854_775_808 {
        0
    } else if negative {
        -(magnitude as i64)
    } else {
        magnitude as i64
    }
}

/// The number with its sign, where 16 bits have room for it.
fn short(negative: bool, magnitude: u64) -> i16
    ensures { result ≡ short negative magnitude }
{
    if magnitude >= 32_768 {
        0
    } else if negative {
        -(magnitude as i16)
    } else {
        magnitude as i16
    }
}

/// A number of this sign modulo a power of two, as two's complement has it.
pub fn wrapped_below(modulus: u64, negative: bool, magnitude: u64) -> u64
    requires { 1 ≤ modulus }
    ensures value { result ≡ wrapped modulus negative magnitude }
    ensures bound { result < modulus }
{
    let low = magnitude % modulus;
    if negative {
        (modulus - low) % modulus
    } else {
        low
    }
}

/// The low 17 bits of a mask, the lowest of them cleared.
fn mask(negative: bool, magnitude: u64) -> u32
    ensures { result ≡ even (wrapped 131072 negative magnitude) }
{
    let mask = wrapped_below(131_072, negative, magnitude);
    (mask - mask % 2) as u32
}

/// A number modulo 2^64.
fn wide(negative: bool, magnitude: u64) -> u64
    ensures { result ≡ wrapped 18446744073709551616 negative magnitude }
{
    if negative {
        0_u64.wrapping_sub(magnitude)
    } else {
        magnitude
    }
}

/// The value that a number is by its field.
fn number_value(field: NumberField, negative: bool, magnitude: u64) -> Value
    ensures { result ≡ number_value field negative magnitude }
{
    match field {
        NumberField::Imm8 | NumberField::Imm14 | NumberField::Imm22 | NumberField::RotatingMask =>
            Value::Signed(long(negative, magnitude)),
        NumberField::Less8 => Value::Signed(long(negative, magnitude) - 1),
        NumberField::Imm9 | NumberField::Tag | NumberField::Increment => Value::Short(short(
            negative, magnitude,
        )),
        NumberField::Imm21 | NumberField::Imm62 => Value::Wide(magnitude),
        NumberField::Imm64 => Value::Wide(wide(negative, magnitude)),
        NumberField::ZeroOrMinusOne => Value::Flag(magnitude != 0),
        NumberField::Mask => Value::Mask(mask(negative, magnitude)),
        _ => Value::Small(small(magnitude)),
    }
}

/// The value that an operand is by its kind. A target that is a label counts 0 until its name is put in.
pub(crate) fn operand_value(kind: Kind, token: Token) -> Value
    ensures { result ≡ operand_value kind token }
{
    match kind {
        Kind::Gr => match token {
            Token::Gr(register) => Value::Gr(register),
            _ => Value::Absent,
        },
        Kind::Pr => match token {
            Token::Pr(register) => Value::Pr(register),
            _ => Value::Absent,
        },
        Kind::Br => match token {
            Token::Br(register) => Value::Br(register),
            _ => Value::Absent,
        },
        Kind::Ar => Value::Absent,
        Kind::Number(field) => match token {
            Token::Number {
                negative,
                magnitude,
            } => number_value(field, negative, magnitude),
            _ => Value::Absent,
        },
        Kind::Label => Value::Displacement(0),
    }
}

/// The value that is said, absent where it is a part of the opcode or nothing.
pub(crate) fn said_value(said: Said) -> Value
    ensures { result ≡ said_value said }
{
    match said {
        Said::Flag(value) => Value::Flag(value),
        Said::Small(value) => Value::Small(value),
        Said::Mask(value) => Value::Mask(value),
        _ => Value::Absent,
    }
}

/// How many bytes: 1, 2, 4 or 8.
pub fn bytes(size: AccessSize) -> u8
    ensures value { result ≡ bytes size }
    ensures bound { result ≤ 8 }
{
    match size {
        AccessSize::One => 1,
        AccessSize::Two => 2,
        AccessSize::Four => 4,
        AccessSize::Eight => 8,
    }
}

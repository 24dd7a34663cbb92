//! The numbers that digits write.

ghost use Rattle.std.specs.Prelude.{◌≡◌, ◌≤◌, ◌<◌, ◌^◌, ◌*◌, ◌+◌};
ghost use Rattle.std.specs.Option.{SomeIff};
ghost use Rattle.std.specs.Char.{digit_value};
ghost use Rattle.asm_lexemes.specs.Numbers.{are_digits, numeral, based, unsigned_token, after_zero, number_token};

use crate::tokens::Token;

// What a number is, by its text with its `-`.
pub(crate) fn number_token(number: &[u8]) -> Token
    ensures { result ≡ number_token number.now }
{
    match number {
        [b'-', rest @ ..] => unsigned_token(true, rest),
        _ => unsigned_token(false, number),
    }
}

fn unsigned_token(negative: bool, number: &[u8]) -> Token
    ensures { result ≡ unsigned_token negative number.now }
{
    match number {
        [b'0', rest @ ..] => after_zero(negative, number, rest),
        _ => based(negative, 10, number),
    }
}

fn after_zero(negative: bool, number: &[u8], rest: &[u8]) -> Token
    ensures { result ≡ after_zero negative number.now rest.now }
{
    match rest {
        [b'x', digits @ ..] => based(negative, 16, digits),
        _ => based(negative, 10, number),
    }
}

fn based(negative: bool, base: u8, digits: &[u8]) -> Token
    requires { 1 ≤ base }
    ensures { result ≡ based negative base digits.now }
{
    if digits.is_empty() || !are_digits(base, digits) {
        return Token::Malformed;
    }
    match numeral(base, digits) {
        Some(magnitude) => Token::Number {
            negative,
            magnitude,
        },
        None => Token::TooLarge,
    }
}

// Whether each byte is a digit of the base.
pub(crate) fn are_digits(base: u8, digits: &[u8]) -> bool
    ensures { result ≡ are_digits base digits.now }
{
    for byte in digits {
        if digit_value(*byte) >= base {
            return false;
        }
    }
    true
}

// The number that the digits write, where 64 bits hold it.
pub(crate) fn numeral(base: u8, digits: &[u8]) -> Option<u64>
    requires { 1 ≤ base }
    ensures { result ≡ numeral base digits.now }
{
    let mut total: u64 = 0;
    for byte in digits {
        match with_digit(total, base, digit_value(*byte)) {
            Some(next) => total = next,
            None => return None,
        }
    }
    Some(total)
}

// The number with a digit after it, where 64 bits hold it.
fn with_digit(total: u64, base: u8, digit: u8) -> Option<u64>
    ensures { SomeIff result (total * base + digit < 2 ^ 64) (total * base + digit) }
{
    match total.checked_mul(u64::from(base)) {
        Some(higher) => higher.checked_add(u64::from(digit)),
        None => None,
    }
}

// The value of a digit or a letter, and 36 for another byte.
fn digit_value(byte: u8) -> u8
    ensures value { result ≡ digit_value byte }
    ensures bound { result ≤ 36 }
{
    if byte >= b'0' && byte <= b'9' {
        byte - b'0'
    } else if byte >= b'A' && byte <= b'Z' {
        byte - b'A' + 10
    } else if byte >= b'a' && byte <= b'z' {
        byte - b'a' + 10
    } else {
        36
    }
}

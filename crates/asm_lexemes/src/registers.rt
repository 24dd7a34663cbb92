//! The registers that names spell.

ghost use Rattle.std.specs.Prelude.{◌≡◌, ◌≤◌, ◌<◌, IfSome};
ghost use Rattle.std.specs.Option.{option_map};
ghost use Rattle.asm_lexemes.specs.Registers.{alias_of, numbered, numbered_register, register_of, has_needless_zero};
ghost use Rattle.asm_lexemes.specs.declared.tokens.Token.TheVariants as t;

use crate::bytes::is_digit_byte;
use crate::tokens::Token;
use ia_insn::{Ar, Br, Gr, Pr};

/// The register that the name spells by its number: `r0` to `r127`, `p0` to `p63` and `b0` to `b7`,
/// with no needless zero in front. No label has such a name.
#[inline(always)]
pub fn numbered_register(name: &[u8]) -> Option<Token>
    ensures { result ≡ numbered_register name.now }
{
    match name {
        [b'r', digits @ ..] => numbered_gr(digits),
        [b'p', digits @ ..] => numbered_pr(digits),
        [b'b', digits @ ..] => numbered_br(digits),
        _ => None,
    }
}

#[inline(always)]
fn numbered_gr(digits: &[u8]) -> Option<Token>
    ensures { result ≡ option_map (λ n. t.Gr n) (numbered 128 digits.now) }
{
    match numbered(128, digits) {
        Some(n) => Some(Token::Gr(Gr::of_field(u64::from(n)))),
        None => None,
    }
}

#[inline(always)]
fn numbered_pr(digits: &[u8]) -> Option<Token>
    ensures { result ≡ option_map (λ n. t.Pr n) (numbered 64 digits.now) }
{
    match numbered(64, digits) {
        Some(n) => Some(Token::Pr(Pr::of_field(u64::from(n)))),
        None => None,
    }
}

#[inline(always)]
fn numbered_br(digits: &[u8]) -> Option<Token>
    ensures { result ≡ option_map (λ n. t.Br n) (numbered 8 digits.now) }
{
    match numbered(8, digits) {
        Some(n) => Some(Token::Br(Br::of_field(u64::from(n)))),
        None => None,
    }
}

// A number below the limit, spelled with no zero in front.
#[inline(always)]
fn numbered(limit: u8, digits: &[u8]) -> Option<u8>
    requires { 1 ≤ limit }
    ensures value { result ≡ numbered limit digits.now }
    ensures bound { IfSome result (λ n. n < limit) }
{
    if has_needless_zero(digits) {
        return None;
    }
    let mut n: u8 = 0;
    for byte in digits {
        if !is_digit_byte(*byte) {
            return None;
        }
        let next = u16::from(n) * 10 + u16::from(*byte - b'0');
        if next >= u16::from(limit) {
            return None;
        }
        n = next as u8;
    }
    Some(n)
}

// No digit, or a zero before others.
#[inline(always)]
fn has_needless_zero(digits: &[u8]) -> bool
    ensures { result ≡ has_needless_zero digits.now }
{
    match digits {
        [] => true,
        [_] => false,
        [first, ..] => *first == b'0',
    }
}

// The register that the name spells, by its number or by a name of its own. No name does both.
#[tactic(auto, using(crate::proofs::OneRegister::by_own_name))]
#[inline(always)]
pub(crate) fn register_of(name: &[u8]) -> Option<Token>
    ensures { result ≡ register_of name.now }
{
    match numbered_register(name) {
        Some(register) => Some(register),
        None => alias_of(name),
    }
}

// The registers with names of their own.
#[inline(never)]
fn alias_of(name: &[u8]) -> Option<Token>
    ensures { result ≡ alias_of name.now }
{
    if name == b"gp".as_slice() {
        Some(gr(1))
    } else if name == b"sp".as_slice() {
        Some(gr(12))
    } else if name == b"tp".as_slice() {
        Some(gr(13))
    } else if name == b"ret0".as_slice() {
        Some(gr(8))
    } else if name == b"ret1".as_slice() {
        Some(gr(9))
    } else if name == b"ret2".as_slice() {
        Some(gr(10))
    } else if name == b"ret3".as_slice() {
        Some(gr(11))
    } else if name == b"rp".as_slice() {
        Some(Token::Br(Br::of_field(0)))
    } else if name == b"ar.unat".as_slice() {
        Some(Token::Ar(Ar::Unat))
    } else if name == b"ar.pfs".as_slice() {
        Some(Token::Ar(Ar::Pfs))
    } else if name == b"ar.lc".as_slice() {
        Some(Token::Ar(Ar::Lc))
    } else if name == b"ar.ec".as_slice() {
        Some(Token::Ar(Ar::Ec))
    } else if name == b"pr".as_slice() {
        Some(Token::Predicates)
    } else if name == b"pr.rot".as_slice() {
        Some(Token::RotatingPredicates)
    } else if name == b"ip".as_slice() {
        Some(Token::Ip)
    } else {
        None
    }
}

fn gr(n: u64) -> Token
    requires { n < 128 }
    ensures { result ≡ t.Gr n }
{
    Token::Gr(Gr::of_field(n))
}

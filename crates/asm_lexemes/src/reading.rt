//! The token of a lexeme.

ghost use Rattle.std.specs.Prelude.{◌≡◌};
ghost use Rattle.asm_lexemes.specs.Bytes.{begins_letter};
ghost use Rattle.asm_lexemes.specs.Tokens.{name_token, unregistered_name, quoted_token, mark_token, token_of};

use crate::bytes::is_letter;
use crate::lexeme::LexemeKind;
use crate::limits::NAME_LIMIT;
use crate::numbers::number_token;
use crate::registers::register_of;
use crate::tokens::Token;

/// What a lexeme of this kind and text may be read as.
#[inline(always)]
pub fn token(kind: LexemeKind, text: &[u8]) -> Token
    ensures { result ≡ token_of kind text.now }
{
    match kind {
        LexemeKind::Name => name_token(text),
        LexemeKind::Number => number_token(text),
        LexemeKind::Quoted => quoted_token(text),
        LexemeKind::Mark => mark_token(text),
    }
}

#[inline(always)]
fn name_token(name: &[u8]) -> Token
    ensures { result ≡ name_token name.now }
{
    match register_of(name) {
        Some(register) => register,
        None => unregistered_name(name),
    }
}

// A name that is no register.
fn unregistered_name(name: &[u8]) -> Token
    ensures { result ≡ unregistered_name name.now }
{
    if begins_letter(name) {
        if name.len() <= NAME_LIMIT {
            Token::Name
        } else {
            Token::LongName
        }
    } else if name.len() <= NAME_LIMIT {
        Token::Symbol
    } else {
        Token::LongSymbol
    }
}

fn begins_letter(name: &[u8]) -> bool
    ensures { result ≡ begins_letter name.now }
{
    match name {
        [first, ..] => is_letter(*first),
        _ => false,
    }
}

fn quoted_token(lexeme: &[u8]) -> Token
    ensures { result ≡ quoted_token lexeme.now }
{
    if lexeme == b"\"mutex\"".as_slice() {
        Token::Mutex
    } else {
        Token::Quoted
    }
}

#[inline(always)]
fn mark_token(mark: &[u8]) -> Token
    ensures { result ≡ mark_token mark.now }
{
    match mark {
        b"=" => Token::Equals,
        b"," => Token::Comma,
        b"[" => Token::OpenBracket,
        b"]" => Token::CloseBracket,
        b"(" => Token::OpenParenthesis,
        b")" => Token::CloseParenthesis,
        b"{" => Token::OpenBrace,
        b"}" => Token::CloseBrace,
        b":" => Token::Colon,
        b";;" => Token::Stop,
        _ => Token::OtherMark,
    }
}

//! The rows of lexemes and tokens.

use asm_lexemes::limits::LINE_LIMIT;
use asm_lexemes::{Lexeme, LexemeKind, Token, lexemes, token};
use std::alloc::{AllocError, Global};

/// Whether a row of a line's lexemes is right: of each lexeme its kind, its start and its end, with blanks
/// between them, a `|`, and the line.
pub fn is_cut(rest: &str) -> bool {
    let Some((wanted, line)) = rest.split_once('|') else {
        return false;
    };
    if line.len() > LINE_LIMIT {
        return false;
    }
    match lexemes(line.as_bytes()) {
        Ok(lexemes) => are_lexemes(lexemes.as_slice(), wanted),
        Err(_) => false,
    }
}

/// Whether these are the lexemes of the text.
fn are_lexemes(lexemes: &[Lexeme], text: &str) -> bool {
    let mut parts = text.split_whitespace();
    for lexeme in lexemes {
        let (Some(kind), Some(start), Some(end)) = (parts.next(), parts.next(), parts.next()) else {
            return false;
        };
        if !is_lexeme(lexeme, kind, start, end) {
            return false;
        }
    }
    parts.next().is_none()
}

/// Whether the lexeme has this kind, this start and this end.
fn is_lexeme(lexeme: &Lexeme, kind: &str, start: &str, end: &str) -> bool {
    kind == kind_name(lexeme.kind)
        && start.parse::<usize>() == Ok(lexeme.start)
        && end.parse::<usize>() == Ok(lexeme.end)
}

/// The name of a kind of lexeme in the input.
fn kind_name(kind: LexemeKind) -> &'static str {
    match kind {
        LexemeKind::Name => "name",
        LexemeKind::Number => "number",
        LexemeKind::Quoted => "quoted",
        LexemeKind::Mark => "mark",
    }
}

/// Whether a row of a token is right: the debug text of the token, a `|`, and the line, which is one lexeme.
pub fn is_token_row(alloc: Global, rest: &str) -> Result<bool, AllocError> {
    let Some((wanted, line)) = rest.split_once('|') else {
        return Ok(false);
    };
    match token_of_lexeme(line.as_bytes()) {
        Some(token) => is_token(alloc, token, wanted),
        None => Ok(false),
    }
}

/// Whether the token has this debug text.
fn is_token(alloc: Global, token: Token, wanted: &str) -> Result<bool, AllocError> {
    let text = format!(in alloc; "{token:?}")?;
    Ok(text.as_str() == wanted)
}

/// The token of a line that is one lexeme.
fn token_of_lexeme(line: &[u8]) -> Option<Token> {
    if line.len() > LINE_LIMIT {
        return None;
    }
    match lexemes(line) {
        Ok(lexemes) => match lexemes.as_slice() {
            [lexeme] => Some(token(lexeme.kind, lexeme.text(line))),
            _ => None,
        },
        Err(_) => None,
    }
}

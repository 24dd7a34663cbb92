//! The lexemes of a line.

ghost use Rattle.std.specs.Prelude.{◌≡◌, ◌≤◌, length, [], IfOk, IfErr, OnOk, OnErr, true, false, IsTrue, ◌<◌, ◌+◌};
ghost use Rattle.asm_lexemes.specs.declared.limits.TheConstants.{LINE_LIMIT};
ghost use Rattle.asm_lexemes.specs.Bytes.{has_only_plain};
ghost use Rattle.asm_lexemes.specs.Slices.{AreSlices, LeavesOutGaps};
ghost use Rattle.asm_lexemes.specs.Lexemes.{name_run, has_quote, quoted_run, kind_at, more_at, has_sharp, sharp_at, begins_comment, is_plain_lexeme, lexemes_from};

use crate::bytes::{
    begins_digit, begins_with, has_only_plain, is_blank, is_digit_byte, is_name_byte, is_plain_byte,
};
use crate::fault::LineFault;
use crate::lexeme::{Lexeme, LexemeKind};
use crate::lexeme_list::LexemeList;
use crate::limits::LINE_LIMIT;

/// The lexemes of a line, in order; or Char where a byte is neither a tab nor one from 0x20 to 0x7e,
/// in a comment too. The lexemes are parts of the line, in order; what they leave out is spaces, tabs,
/// a `#` directly after a name, and the comment from `//` to the end. A `//` between two quotation marks
/// begins no comment.
pub fn lexemes(line: &[u8]) -> Result<LexemeList, LineFault>
    requires { length line.now ≤ LINE_LIMIT }
    ensures ok { IfOk result (λ ws. (has_only_plain line.now ≡ true) × (ws ≡ lexemes_from 0 0 line.now)) }
    ensures slices { IfOk result (λ ws. AreSlices line.now ws) }
    ensures left_out { IfOk result (λ ws. LeavesOutGaps line.now false 0 ws) }
    ensures err { IfErr result (λ e. (has_only_plain line.now ≡ false) × (e ≡ LineFault.Char)) }
{
    let mut list = LexemeList::new();
    lexemes_into(line, &mut list)?;
    Ok(list)
}

/// Puts the lexemes of a line, as [`lexemes`] has them, into a list, instead of what it held, so that
/// one list serves many lines. After Char it is empty.
pub fn lexemes_into(line: &[u8], list: &mut LexemeList) -> Result<(), LineFault>
    requires { length line.now ≤ LINE_LIMIT }
    ensures ok { OnOk result ((has_only_plain line.now ≡ true) × (list.new ≡ lexemes_from 0 0 line.now)) }
    ensures slices { OnOk result (AreSlices line.now list.new) }
    ensures left_out { OnOk result (LeavesOutGaps line.now false 0 list.new) }
    ensures err { IfErr result (λ e. (has_only_plain line.now ≡ false) × (e ≡ LineFault.Char)) }
    ensures emptied { OnErr result (list.new ≡ []) }
{
    list.clear();
    if cut(line, list) {
        Ok(())
    } else {
        list.clear();
        Err(LineFault::Char)
    }
}

// Puts the lexemes of a line into an empty list, and says whether the line has only plain bytes. Of those of a name or a number,
// of spaces and of tabs that is known.
#[inline(always)]
fn cut(line: &[u8], lexemes: &mut LexemeList) -> bool
    requires short { length line.now ≤ LINE_LIMIT }
    requires empty { lexemes.old ≡ [] }
    ensures plain { result ≡ has_only_plain line.now }
    ensures lexemes { IsTrue result → lexemes.new ≡ lexemes_from 0 0 line.now }
{
    let mut at = 0;
    while at < line.len() {
        let first = line[at];
        if is_blank(first) {
            at += 1;
        } else {
            let rest = &line[at + 1..];
            let kind = kind_at(first, rest);
            if is_comment(kind, first, rest) {
                return has_only_plain(rest);
            }
            let (more, sharp) = lexeme_at(kind, first, rest);
            if !is_plain_lexeme(kind, first, &rest[..more]) {
                return false;
            }
            lexemes.push(Lexeme {
                kind,
                start: at,
                end: at + 1 + more,
            });
            at = at + 1 + more + sharp;
        }
    }
    true
}

// Whether a lexeme of this kind has only plain bytes, the first and these: a name or a number always has.
#[inline(always)]
fn is_plain_lexeme(kind: LexemeKind, first: u8, more: &[u8]) -> bool
    ensures { result ≡ is_plain_lexeme kind first more.now }
{
    match kind {
        LexemeKind::Name | LexemeKind::Number => true,
        LexemeKind::Quoted | LexemeKind::Mark => is_plain_byte(first) && has_only_plain(more),
    }
}

// Of the lexeme of this kind that begins with a byte, how many more bytes it has, and how many that follow belong to no lexeme.
#[inline(always)]
fn lexeme_at(kind: LexemeKind, first: u8, rest: &[u8]) -> (usize, usize)
    requires { kind ≡ kind_at first rest.now }
    ensures more { result.0 ≡ more_at first rest.now }
    ensures sharp { result.1 ≡ sharp_at first rest.now }
    ensures bound { result.0 + result.1 ≤ length rest.now }
{
    let more = more_at(kind, first, rest);
    let after = &rest[more..];
    if has_sharp(kind, after) {
        (more, 1)
    } else {
        (more, 0)
    }
}

#[tactic(auto, using(crate::proofs::Lexing::digit_is_name))]
#[inline(always)]
fn kind_at(first: u8, rest: &[u8]) -> LexemeKind
    ensures { result ≡ kind_at first rest.now }
{
    if is_name_byte(first) {
        if is_digit_byte(first) {
            LexemeKind::Number
        } else {
            LexemeKind::Name
        }
    } else if first == b'-' && begins_digit(rest) {
        LexemeKind::Number
    } else if first == b'"' && has_quote(rest) {
        LexemeKind::Quoted
    } else {
        LexemeKind::Mark
    }
}

#[inline(never)]
fn has_quote(bytes: &[u8]) -> bool
    ensures { result ≡ has_quote bytes.now }
{
    for byte in bytes {
        if *byte == b'"' {
            return true;
        }
    }
    false
}

// How many bytes after the first belong to the lexeme of this kind.
#[inline(always)]
fn more_at(kind: LexemeKind, first: u8, rest: &[u8]) -> usize
    requires { kind ≡ kind_at first rest.now }
    ensures value { result ≡ more_at first rest.now }
    ensures bound { result ≤ length rest.now }
{
    match kind {
        LexemeKind::Quoted => quoted_run(rest),
        LexemeKind::Mark => {
            if first == b';' && begins_with(b';', rest) {
                1
            } else {
                0
            }
        }
        _ => name_run(rest),
    }
}

// How many bytes at the front belong to names and numbers.
#[inline(always)]
fn name_run(bytes: &[u8]) -> usize
    ensures value { result ≡ name_run bytes.now }
    ensures bound { result ≤ length bytes.now }
{
    let mut run = 0;
    for byte in bytes {
        if !is_name_byte(*byte) {
            return run;
        }
        run += 1;
    }
    run
}

// How many bytes there are up to the first `"`, it among them, or all where there is none.
#[inline(never)]
fn quoted_run(bytes: &[u8]) -> usize
    ensures value { result ≡ quoted_run bytes.now }
    ensures bound { result ≤ length bytes.now }
{
    let mut at = 0;
    while at < bytes.len() {
        if bytes[at] == b'"' {
            return at + 1;
        }
        at += 1;
    }
    at
}

// Whether a sharp follows a name.
#[inline(always)]
fn has_sharp(kind: LexemeKind, rest: &[u8]) -> bool
    ensures value { result ≡ has_sharp kind rest.now }
    ensures bound { IsTrue result → 0 < length rest.now }
{
    match kind {
        LexemeKind::Name => begins_with(b'#', rest),
        _ => false,
    }
}

// Whether a comment begins where a lexeme of this kind would: only a mark does.
#[inline(always)]
fn is_comment(kind: LexemeKind, first: u8, rest: &[u8]) -> bool
    requires { kind ≡ kind_at first rest.now }
    ensures { result ≡ begins_comment first rest.now }
{
    match kind {
        LexemeKind::Mark => begins_comment(first, rest),
        LexemeKind::Name | LexemeKind::Number | LexemeKind::Quoted => false,
    }
}

fn begins_comment(first: u8, rest: &[u8]) -> bool
    ensures { result ≡ begins_comment first rest.now }
{
    first == b'/' && begins_with(b'/', rest)
}

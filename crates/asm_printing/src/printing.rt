//! The canonical slot line.

ghost use Rattle.std.specs.Prelude.{◌≡◌, ◌+◌, ◌*◌, ◌++◌, ◌∷◌, ◌<◌, ◌≤◌, codes, length, vec_len, vec_capacity, OnOk, OnErr, Some, false, decimal, flat_map};
ghost use Rattle.std.specs.Io.{StartsWith};
ghost use Rattle.asm_forms.specs.Completers.{text_of};
ghost use Rattle.asm_forms.specs.Items.{fixed_token};
ghost use Rattle.ia_program.specs.Listed.{IsListed};
ghost use Rattle.asm_canonical.specs.Canonical.{syntax_of};
ghost use Rattle.asm_printing.specs.SlotTexts.{is_hex, ar_text, number_text, token_text, operands_text, spaced, mnemonic_text, predicate_text, stop_text, target_of, or_zero, HasTarget, line_text, slot_text};

use crate::numerals::{push_bytes, put_bytes, put_decimal, put_hex};
use asm_canonical::{Syntax, syntax_of};
use asm_forms::{Completer, Fixed, FormItem, Kind, NumberField, Row, fixed_token, text};
use asm_lexemes::Token;
use ia_insn::{Ar, Insn, Op, Pr};
use ia_program::Place;
use std::alloc::AllocError;

/// How many bytes an operand or a fixed token has at most: a sign and the digits of a number.
const ITEM_ROOM: usize = 21;

/// How many bytes the operands and the fixed tokens of a form have at most, with the space before them.
const OPERANDS_ROOM: usize = 1 + 16 * ITEM_ROOM;

/// How many bytes there are at most before a mnemonic.
const START_ROOM: usize = 26;

/// Puts a number as an operand has it, where there is room for an operand.
#[tactic(auto, using(crate::proofs::Rooms::decimal_is_short, crate::proofs::Rooms::hex_fits, std::proofs::lemmas::Grind::common_steps))]
fn put_number(out: &mut Vec<u8>, hex: bool, negative: bool, magnitude: u64)
    requires { vec_len out.old + ITEM_ROOM ≤ vec_capacity out.old }
    ensures items { out.new.items ≡ out.old.items ++ number_text hex negative magnitude }
    ensures len { vec_len out.new ≤ vec_len out.old + ITEM_ROOM }
    ensures capacity { vec_capacity out.new ≡ vec_capacity out.old }
{
    if negative {
        out.push_reserved(b'-');
    }
    if hex {
        out.push_reserved(b'0');
        out.push_reserved(b'x');
        put_hex(out, magnitude);
    } else {
        put_decimal(out, magnitude);
    }
}

/// Puts a letter and a number, as a register or a label has them, where there is room for an operand.
#[tactic(auto, using(crate::proofs::Rooms::decimal_is_short, std::proofs::lemmas::Grind::common_steps))]
fn put_named(out: &mut Vec<u8>, letter: u8, number: u64)
    requires { vec_len out.old + ITEM_ROOM ≤ vec_capacity out.old }
    ensures items { out.new.items ≡ out.old.items ++ letter ∷ decimal number }
    ensures len { vec_len out.new ≤ vec_len out.old + ITEM_ROOM }
    ensures capacity { vec_capacity out.new ≡ vec_capacity out.old }
{
    out.push_reserved(letter);
    put_decimal(out, number);
}

fn ar_text(ar: Ar) -> &'static [u8]
    ensures text { result.now ≡ ar_text ar }
    ensures short { length result.now ≤ ITEM_ROOM }
{
    match ar {
        Ar::Unat => b"ar.unat",
        Ar::Pfs => b"ar.pfs",
        Ar::Lc => b"ar.lc",
        Ar::Ec => b"ar.ec",
    }
}

/// Puts an operand, where a name is the label of the target and there is room for an operand.
fn put_token(out: &mut Vec<u8>, target: u64, hex: bool, token: Token)
    requires { vec_len out.old + ITEM_ROOM ≤ vec_capacity out.old }
    ensures items { out.new.items ≡ out.old.items ++ token_text target hex token }
    ensures len { vec_len out.new ≤ vec_len out.old + ITEM_ROOM }
    ensures capacity { vec_capacity out.new ≡ vec_capacity out.old }
{
    match token {
        Token::Gr(r) => put_named(out, b'r', u64::from(r.number())),
        Token::Pr(p) => put_named(out, b'p', u64::from(p.number())),
        Token::Br(b) => put_named(out, b'b', u64::from(b.number())),
        Token::Ar(ar) => put_bytes(out, ar_text(ar)),
        Token::Predicates => put_bytes(out, b"pr"),
        Token::RotatingPredicates => put_bytes(out, b"pr.rot"),
        Token::Ip => put_bytes(out, b"ip"),
        Token::Number {
            negative,
            magnitude,
        } => put_number(out, hex, negative, magnitude),
        Token::Name => put_named(out, b'L', target),
        Token::Equals => out.push_reserved(b'='),
        Token::Comma => out.push_reserved(b','),
        Token::OpenBracket => out.push_reserved(b'['),
        Token::CloseBracket => out.push_reserved(b']'),
        _ => {}
    }
}

/// Puts a fixed token, where there is room for an operand.
fn put_fixed(out: &mut Vec<u8>, target: u64, fixed: Fixed)
    requires { vec_len out.old + ITEM_ROOM ≤ vec_capacity out.old }
    ensures items { out.new.items ≡ out.old.items ++ token_text target false (fixed_token fixed) }
    ensures len { vec_len out.new ≤ vec_len out.old + ITEM_ROOM }
    ensures capacity { vec_capacity out.new ≡ vec_capacity out.old }
{
    match fixed {
        Fixed::Comma => out.push_reserved(b','),
        Fixed::Equals => out.push_reserved(b'='),
        _ => put_token(out, target, false, fixed_token(fixed)),
    }
}

/// Whether the numbers of the kind are printed in hexadecimal: masks, and the numbers of movl, break, nop
/// and hint.
fn is_hex(kind: Kind) -> bool
    ensures { result ≡ is_hex kind }
{
    match kind {
        Kind::Number(field) => matches!(
            field,
            NumberField::Mask | NumberField::Imm21 | NumberField::Imm62 | NumberField::Imm64
        ),
        _ => false,
    }
}

/// Puts the fixed tokens and the operands of a form, item by item, where there is room for each.
fn put_items(out: &mut Vec<u8>, target: u64, items: &[FormItem], operands: &[Token])
    requires { vec_len out.old + length items.now * ITEM_ROOM ≤ vec_capacity out.old }
    ensures items { out.new.items ≡ out.old.items ++ operands_text target items.now operands.now }
    ensures capacity { vec_capacity out.new ≡ vec_capacity out.old }
{
    match items {
        [] => {}
        [FormItem::Is(fixed), items @ ..] => {
            put_fixed(out, target, *fixed);
            put_items(out, target, items, operands);
        }
        [FormItem::Takes(kind, _), items @ ..] => match operands {
            [] => {}
            [operand, operands @ ..] => {
                put_token(out, target, is_hex(*kind), *operand);
                put_items(out, target, items, operands);
            }
        },
    }
}

/// The texts of the completers, one after the other.
#[tactic(auto, using(crate::proofs::Kept::kept_before))]
fn push_completers(out: &mut Vec<u8>, completers: &[Completer]) -> Result<(), AllocError>
    ensures ok { OnOk result (out.new.items ≡ out.old.items ++ flat_map text_of completers.now) }
    ensures err { OnErr result (StartsWith out.new.items out.old.items) }
{
    match completers {
        [] => Ok(()),
        [completer, completers @ ..] => {
            push_bytes(out, text(*completer))?;
            push_completers(out, completers)
        }
    }
}

#[tactic(auto, using(crate::proofs::Kept::kept_before))]
fn push_mnemonic(out: &mut Vec<u8>, row: &Row, completers: &[Completer]) -> Result<(), AllocError>
    ensures ok { OnOk result (out.new.items ≡ out.old.items ++ mnemonic_text row.now completers.now) }
    ensures err { OnErr result (StartsWith out.new.items out.old.items) }
{
    push_bytes(out, row.stem())?;
    push_completers(out, completers)
}

/// The bundle of the target of a direct branch or check.
fn target_of(bundle: u32, op: &Op) -> Option<u64>
    requires { HasTarget bundle op.now }
    ensures { result ≡ target_of bundle op.now }
{
    match op.displacement() {
        Some(disp) => Some((i64::from(bundle) + i64::from(disp)) as u64),
        None => None,
    }
}

/// Two spaces, and the qualifying predicate, where it isn't p0.
#[tactic(auto, using(crate::proofs::Rooms::decimal_is_short, crate::proofs::Kept::kept_before))]
fn push_start(out: &mut Vec<u8>, qp: Pr) -> Result<(), AllocError>
    ensures ok { OnOk result (out.new.items ≡ out.old.items ++ (codes "  " ++ predicate_text qp)) }
    ensures err { OnErr result (StartsWith out.new.items out.old.items) }
{
    out.reserve(START_ROOM)?;
    out.push_reserved(b' ');
    out.push_reserved(b' ');
    if qp.number() != 0 {
        out.push_reserved(b'(');
        out.push_reserved(b'p');
        put_decimal(out, u64::from(qp.number()));
        out.push_reserved(b')');
        out.push_reserved(b' ');
    }
    Ok(())
}

/// The fixed tokens and the operands after one space, where there are any.
#[tactic(auto, using(crate::proofs::Kept::kept_before, crate::proofs::Spaced::spaced_nothing, crate::proofs::Spaced::spaced_something))]
fn push_operands(
    out: &mut Vec<u8>,
    target: u64,
    items: &[FormItem],
    operands: &[Token],
) -> Result<(), AllocError>
    requires { length items.now ≤ 16 }
    ensures ok { OnOk result (out.new.items ≡ out.old.items ++ spaced (operands_text target items.now operands.now)) }
    ensures err { OnErr result (StartsWith out.new.items out.old.items) }
{
    out.reserve(OPERANDS_ROOM)?;
    let before = out.len();
    out.push_reserved(b' ');
    let start = out.len();
    put_items(out, target, items, operands);
    if out.len() == start {
        out.truncate(before);
    }
    Ok(())
}

fn push_stop(out: &mut Vec<u8>, stop: bool) -> Result<(), AllocError>
    ensures ok { OnOk result (out.new.items ≡ out.old.items ++ stop_text stop) }
    ensures err { OnErr result (StartsWith out.new.items out.old.items) }
{
    if stop {
        push_bytes(out, b" ;;")
    } else {
        Ok(())
    }
}

/// A slot line by how its instruction is printed.
#[tactic(auto, using(crate::proofs::Kept::kept_before))]
fn push_syntax(
    out: &mut Vec<u8>,
    target: u64,
    qp: Pr,
    syntax: &Syntax,
    stop: bool,
) -> Result<(), AllocError>
    ensures ok { OnOk result (out.new.items ≡ out.old.items ++ line_text target qp syntax.now.form syntax.now.completers syntax.now.operands stop) }
    ensures err { OnErr result (StartsWith out.new.items out.old.items) }
{
    push_start(out, qp)?;
    push_mnemonic(out, syntax.row(), syntax.completers())?;
    push_operands(out, target, syntax.row().items(), syntax.operands())?;
    push_stop(out, stop)
}

/// The bundle of the target, and 0 where there is none.
fn target_or_zero(bundle: u32, op: &Op) -> u64
    requires { HasTarget bundle op.now }
    ensures { result ≡ or_zero (target_of bundle op.now) }
{
    match target_of(bundle, op) {
        Some(target) => target,
        None => 0,
    }
}

fn push_slot(out: &mut Vec<u8>, bundle: u32, insn: &Insn, stop: bool) -> Result<(), AllocError>
    requires { HasTarget bundle insn.now.op }
    ensures ok { OnOk result (out.new.items ≡ out.old.items ++ slot_text insn.now bundle stop) }
    ensures err { OnErr result (StartsWith out.new.items out.old.items) }
{
    let target = target_or_zero(bundle, &insn.op);
    push_syntax(out, target, insn.qp, &syntax_of(&insn.op), stop)
}

/// Appends the canonical slot line of an instruction, without its line feed. The instruction is a
/// listed one, and the target of a direct branch or check, counted from the bundle of the place, is
/// no bundle before the first. Want of memory leaves `out` as it was.
pub fn print_slot(
    insn: &Insn,
    place: Place,
    stop: bool,
    out: &mut Vec<u8>,
) -> Result<(), AllocError>
    requires listed { IsListed insn.now }
    requires target { HasTarget place.bundle insn.now.op }
    ensures ok { OnOk result (out.new.items ≡ out.old.items ++ slot_text insn.now place.bundle stop) }
    ensures err { OnErr result (out.new.items ≡ out.old.items) }
{
    let before = out.len();
    match push_slot(out, place.bundle, insn, stop) {
        Ok(()) => Ok(()),
        Err(error) => {
            out.truncate(before);
            Err(error)
        }
    }
}

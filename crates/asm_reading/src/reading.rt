//! Reading a line: from its lexemes to its value or its first fault.

ghost use Rattle.std.specs.Prelude.{◌≡◌, ◌≤◌, ◌<◌, ◌+◌, ◌-◌, ◌*◌, ◌^◌, ◌↔◌, IsTrue, IfOk, IfErr, OnOk, IfSome, length, take, drop, slice_range, Some, Ok, true, false};
ghost use Rattle.std.specs.Option.{option_map};
ghost use Rattle.asm_lexemes.specs.declared.limits.TheConstants.{LINE_LIMIT};
ghost use Rattle.asm_lexemes.specs.Tokens.{token_of};
ghost use Rattle.asm_lexemes.specs.Lexemes.{pick};
ghost use Rattle.asm_reading.specs.declared.line.Line.TheVariants as said;
ghost use Rattle.asm_reading.specs.Lines.{put, AreParts, texts, tokens, name_of, label_name, lead_at, past_parenthesis, ends_in_stop, without_stop, predicate_of, is_bare, completers_or_none, slot_under, slot_of, directive_value, directive_of, alone, data_of, relation_of, line_by_forms, line_led_by_name, lone_mark, template_name_of, opening_brace, line_led_by, line_without_label, is_colon, is_open, is_close, label_of, line_of, reading_of, IsListedLine, LineOf, FaultOf};
ghost use Rattle.asm_reading.specs.SlotReading.{slot_line, is_directive_name};

use crate::buffers::{LineBuffers, Tokens};
use crate::data::data_of;
use crate::line::{Draft, Line};
use crate::relation::relation_of;
use crate::template_name::template_name_of;
use asm_forms::{
    AccessSize, Completer, Completers, Form, FormItem, Row, Said, completers, find_spelled,
    is_label_item, named_forms,
};
use asm_instructions::{op_of, u32_at};
use asm_lexemes::limits::LINE_LIMIT;
use asm_lexemes::{
    Lexeme, LexemeKind, LineFault, Name, Token, lexemes_into, numbered_register, token,
};
use asm_matching::read_form;
use ia_insn::{Insn, Pr};
use ia_program::is_listed;

/// Puts what the lexemes may be read as into the buffer, instead of what it held.
fn tokens_into(line: &[u8], lexemes: &[Lexeme], buffer: &mut Tokens)
    requires few { length lexemes.now ≤ LINE_LIMIT }
    requires parts { AreParts line.now lexemes.now }
    ensures { buffer.new ≡ tokens (texts line.now lexemes.now) }
{
    buffer.clear();
    for lexeme in lexemes {
        buffer.push(token(lexeme.kind, lexeme.text(line)));
    }
}

/// How many lexemes stand before the leading one: a qualifying predicate, or nothing.
fn lead_at(line: &[u8], lexemes: &[Lexeme]) -> Option<usize>
    requires { AreParts line.now lexemes.now }
    ensures { result ≡ lead_at (tokens (texts line.now lexemes.now)) }
{
    match lexemes {
        [] => None,
        [first, ..] => {
            if is_open(first, line) {
                past_parenthesis(line, lexemes)
            } else {
                Some(0)
            }
        }
    }
}

/// Whether the lexeme is `(`.
#[tactic(auto, using(crate::proofs::NoMarks::name_opens_nothing))]
fn is_open(lexeme: &Lexeme, line: &[u8]) -> bool
    requires { (lexeme.now.start ≤ lexeme.now.end) × (lexeme.now.end ≤ length line.now) }
    ensures { result ≡ is_open (token_of lexeme.now.kind (slice_range line.now lexeme.now.start lexeme.now.end)) }
{
    !is_name(lexeme)
        && matches!(
            token(lexeme.kind, lexeme.text(line)),
            Token::OpenParenthesis
        )
}

/// Whether the lexeme is `)`.
#[tactic(auto, using(crate::proofs::NoMarks::name_closes_nothing))]
fn is_close(lexeme: &Lexeme, line: &[u8]) -> bool
    requires { (lexeme.now.start ≤ lexeme.now.end) × (lexeme.now.end ≤ length line.now) }
    ensures { result ≡ is_close (token_of lexeme.now.kind (slice_range line.now lexeme.now.start lexeme.now.end)) }
{
    !is_name(lexeme)
        && matches!(
            token(lexeme.kind, lexeme.text(line)),
            Token::CloseParenthesis
        )
}

/// How many lexemes there are up to the first `)`.
fn past_parenthesis(line: &[u8], lexemes: &[Lexeme]) -> Option<usize>
    requires { AreParts line.now lexemes.now }
    ensures { result ≡ past_parenthesis (tokens (texts line.now lexemes.now)) }
{
    for (at, lexeme) in lexemes.iter().enumerate() {
        if is_close(lexeme, line) {
            return Some(at + 1);
        }
    }
    None
}

fn ends_in_stop(tokens: &[Token]) -> bool
    ensures value { result ≡ ends_in_stop tokens.now }
    ensures some { IsTrue result → 0 < length tokens.now }
{
    match tokens.last() {
        Some(token) => matches!(token, Token::Stop),
        None => false,
    }
}

/// The operands, without the stop after them.
fn without_stop(tokens: &[Token]) -> &[Token]
    ensures { result.now ≡ without_stop tokens.now }
{
    if ends_in_stop(tokens) {
        &tokens[..tokens.len() - 1]
    } else {
        tokens
    }
}

/// The qualifying predicate: a register between parentheses, and p0 where no lexeme stands before the leading
/// one.
fn predicate_of(tokens: &[Token]) -> Result<Pr, LineFault>
    ensures { result ≡ predicate_of tokens.now }
{
    match tokens {
        [] => Ok(Pr::default()),
        [_, Token::Pr(register), Token::CloseParenthesis] => Ok(*register),
        [_] | [_, Token::Pr(_), ..] => Err(LineFault::Form),
        [_, _, ..] => Err(LineFault::Register),
    }
}

/// The qualifying predicate of the lexemes before the leading one.
fn predicate(line: &[u8], before: &[Lexeme], buffer: &mut Tokens) -> Result<Pr, LineFault>
    requires few { length before.now ≤ LINE_LIMIT }
    requires parts { AreParts line.now before.now }
    ensures { result ≡ predicate_of (tokens (texts line.now before.now)) }
{
    match before {
        [] => Ok(Pr::default()),
        [_, ..] => {
            tokens_into(line, before, buffer);
            predicate_of(buffer.as_slice())
        }
    }
}

/// Whether the unit letter is missing.
fn is_bare(completers: &[Completer]) -> bool
    ensures { result ≡ is_bare completers.now }
{
    completers
        .iter()
        .any(|completer| matches!(completer.says, Said::NoUnit))
}

/// The completers of the form in the name, and none where it has others.
fn completers_or_none(form: Form, name: &[u8]) -> Completers
    ensures { result.items ≡ completers_or_none form name.now }
{
    match completers(form, name) {
        Some(completers) => completers,
        None => Completers::new(),
    }
}

/// The name with these bytes, and None where they are not 1 to 63.
fn name_of(text: &[u8]) -> Option<Name>
    ensures { result ≡ name_of text.now }
{
    Name::of(text)
}

/// The name at the position of the label among these items.
fn label_name(line: &[u8], items: &[FormItem], lexemes: &[Lexeme]) -> Option<Name>
    requires { AreParts line.now lexemes.now }
    ensures { result ≡ label_name items.now (texts line.now lexemes.now) }
{
    let mut left = lexemes;
    for item in items {
        let [lexeme, rest @ ..] = left else {
            return None;
        };
        if is_label_item(*item) {
            return name_of(lexeme.text(line));
        }
        left = rest;
    }
    None
}

/// Puts the slot line of this row, with these completers and the tokens after its name, into a draft and whether a stop
/// follows. None where they make no instruction.
#[inline(never)]
fn fill(
    qp: Pr,
    row: &Row,
    completers: &[Completer],
    tokens: &[Token],
    line: &[u8],
    lexemes: &[Lexeme],
    draft: &mut Draft,
    stop: &mut bool,
) -> Option<()>
    requires { AreParts line.now lexemes.now }
    ensures { option_map (λ x. said.Slot draft.new stop.new) result ≡ slot_line qp row.now completers.now tokens.now (texts line.now lexemes.now) }
{
    let op = op_of(row, completers, without_stop(tokens))?;
    draft.insn = Insn { qp, op };
    draft.target = label_name(line, row.items(), lexemes);
    draft.bare = is_bare(completers);
    *stop = ends_in_stop(tokens);
    Some(())
}

/// Puts the slot line of this row, with these completers and the tokens after its name, into `value`: where that is one
/// already, its parts alone. None where they make no instruction.
fn slot_line(
    qp: Pr,
    row: &Row,
    completers: &[Completer],
    tokens: &[Token],
    line: &[u8],
    lexemes: &[Lexeme],
    value: &mut Line,
) -> Option<()>
    requires { AreParts line.now lexemes.now }
    ensures { option_map (λ x. value.new) result ≡ slot_line qp row.now completers.now tokens.now (texts line.now lexemes.now) }
{
    match value {
        Line::Slot { draft, stop } => {
            fill(qp, row, completers, tokens, line, lexemes, draft, stop)
        }
        _ => {
            let (mut draft, mut stop) = (Draft::blank(), false);
            fill(
                qp, row, completers, tokens, line, lexemes, &mut draft, &mut stop,
            )?;
            *value = Line::Slot { draft, stop };
            Some(())
        }
    }
}

/// A slot line under a predicate by its name and the tokens after that.
fn slot_under(
    qp: Pr,
    forms: &[Form],
    name: &[u8],
    tokens: &[Token],
    line: &[u8],
    lexemes: &[Lexeme],
) -> Result<Line, LineFault>
    requires { AreParts line.now lexemes.now }
    ensures { result ≡ slot_under qp forms.now name.now tokens.now (texts line.now lexemes.now) }
{
    let form = read_form(forms, without_stop(tokens), tokens)?;
    let completers = completers_or_none(form, name);
    let mut value = Line::Empty;
    match slot_line(
        qp,
        &form.row(),
        &completers,
        tokens,
        line,
        lexemes,
        &mut value,
    ) {
        Some(()) => Ok(value),
        None => Err(LineFault::Form),
    }
}

/// The value of a directive's form.
fn directive_value(
    form: Form,
    line: &[u8],
    lexemes: &[Lexeme],
    operands: &[Token],
) -> Result<Line, LineFault>
    requires parts { AreParts line.now lexemes.now }
    requires operands { operands.now ≡ tokens (texts line.now lexemes.now) }
    ensures { result ≡ directive_value form (texts line.now lexemes.now) }
{
    match form {
        Form::Text => Ok(Line::Text),
        Form::Data => Ok(Line::Data),
        Form::Entry => match label_name(line, Form::Entry.items(), lexemes) {
            Some(name) => Ok(Line::Entry { name }),
            None => Err(LineFault::Form),
        },
        Form::Global | Form::Proc | Form::Endp => Ok(Line::Ignored),
        Form::Skip => Ok(Line::Skip {
            count: u32_at(operands, 0),
        }),
        _ => Err(LineFault::Form),
    }
}

/// A slot line, by its forms.
fn slot_of(
    forms: &[Form],
    name: &[u8],
    line: &[u8],
    before: &[Lexeme],
    after: &[Lexeme],
    buffer: &mut Tokens,
) -> Result<Line, LineFault>
    requires few { (length before.now ≤ LINE_LIMIT) × (length after.now ≤ LINE_LIMIT) }
    requires parts { AreParts line.now before.now × AreParts line.now after.now }
    ensures { result ≡ slot_of forms.now name.now (texts line.now before.now) (texts line.now after.now) }
{
    let qp = predicate(line, before, buffer)?;
    tokens_into(line, after, buffer);
    slot_under(qp, forms, name, buffer.as_slice(), line, after)
}

/// A data line, before which no predicate stands.
fn data_line(
    size: AccessSize,
    line: &[u8],
    before: &[Lexeme],
    after: &[Lexeme],
    buffer: &mut Tokens,
) -> Result<Line, LineFault>
    requires few { length after.now ≤ LINE_LIMIT }
    requires parts { AreParts line.now after.now }
    ensures { result ≡ alone (texts line.now before.now) (data_of size (tokens (texts line.now after.now))) }
{
    match before {
        [] => {
            tokens_into(line, after, buffer);
            data_of(size, buffer.as_slice())
        }
        [_, ..] => Err(LineFault::Form),
    }
}

/// A relation line, before which no predicate stands.
fn relation_line(
    line: &[u8],
    before: &[Lexeme],
    after: &[Lexeme],
    buffer: &mut Tokens,
) -> Result<Line, LineFault>
    requires few { length after.now ≤ LINE_LIMIT }
    requires parts { AreParts line.now after.now }
    ensures { result ≡ alone (texts line.now before.now) (relation_of (tokens (texts line.now after.now))) }
{
    match before {
        [] => {
            tokens_into(line, after, buffer);
            relation_of(buffer.as_slice())
        }
        [_, ..] => Err(LineFault::Form),
    }
}

/// A directive, by its forms, before which no predicate stands.
fn directive_line(
    forms: &[Form],
    line: &[u8],
    before: &[Lexeme],
    after: &[Lexeme],
    buffer: &mut Tokens,
) -> Result<Line, LineFault>
    requires few { length after.now ≤ LINE_LIMIT }
    requires parts { AreParts line.now after.now }
    ensures { result ≡ alone (texts line.now before.now) (directive_of forms.now (texts line.now after.now)) }
{
    match before {
        [] => {
            tokens_into(line, after, buffer);
            let operands = buffer.as_slice();
            let form = read_form(forms, operands, operands)?;
            directive_value(form, line, after, operands)
        }
        [_, ..] => Err(LineFault::Form),
    }
}

/// A line whose leading name names these forms, the first of which decides what the line is.
fn line_by_forms(
    forms: &[Form],
    name: &[u8],
    line: &[u8],
    before: &[Lexeme],
    after: &[Lexeme],
    buffer: &mut Tokens,
) -> Result<Line, LineFault>
    requires few { (length before.now ≤ LINE_LIMIT) × (length after.now ≤ LINE_LIMIT) }
    requires parts { AreParts line.now before.now × AreParts line.now after.now }
    ensures { result ≡ line_by_forms forms.now name.now (texts line.now before.now) (texts line.now after.now) }
{
    match forms {
        [] => Err(LineFault::Name),
        [Form::Data1, ..] => data_line(AccessSize::One, line, before, after, buffer),
        [Form::Data2, ..] => data_line(AccessSize::Two, line, before, after, buffer),
        [Form::Data4, ..] => data_line(AccessSize::Four, line, before, after, buffer),
        [Form::Data8, ..] => data_line(AccessSize::Eight, line, before, after, buffer),
        [Form::PredRel, ..] => relation_line(line, before, after, buffer),
        [form, ..] => {
            if form.is_instruction() {
                slot_of(forms, name, line, before, after, buffer)
            } else {
                directive_line(forms, line, before, after, buffer)
            }
        }
    }
}

/// Whether a name that leads a line can be that of a directive alone: the name of no instruction begins so.
fn is_directive_name(name: &[u8]) -> bool
    ensures { result ≡ is_directive_name name.now }
{
    matches!(name, [b'.', ..] | [b'd', b'a', ..])
}

/// Puts a slot line that has no fault into `value`, by the one row that its name and its operands spell. None where it
/// has a fault.
fn slot_without_fault(
    name: &[u8],
    line: &[u8],
    before: &[Lexeme],
    after: &[Lexeme],
    buffer: &mut Tokens,
    value: &mut Line,
) -> Option<()>
    requires few { (length before.now ≤ LINE_LIMIT) × (length after.now ≤ LINE_LIMIT) }
    requires parts { AreParts line.now before.now × AreParts line.now after.now }
    requires slot { is_directive_name name.now ≡ false }
    ensures { IfSome result (λ x. line_led_by_name name.now (texts line.now before.now) (texts line.now after.now) ≡ Ok value.new) }
{
    let Ok(qp) = predicate(line, before, buffer) else {
        return None;
    };
    tokens_into(line, after, buffer);
    let tokens = buffer.as_slice();
    let mut completers = Completers::new();
    let Some(row) = find_spelled(name, without_stop(tokens), &mut completers) else {
        return None;
    };
    slot_line(qp, &row, &completers, tokens, line, after, value)
}

/// Puts a line that a name leads into `value`. All forms of the name are asked for only where a slot line has a fault.
fn line_led_by_name(
    name: &[u8],
    line: &[u8],
    before: &[Lexeme],
    after: &[Lexeme],
    buffer: &mut Tokens,
    value: &mut Line,
) -> Result<(), LineFault>
    requires few { (length before.now ≤ LINE_LIMIT) × (length after.now ≤ LINE_LIMIT) }
    requires parts { AreParts line.now before.now × AreParts line.now after.now }
    ensures { put result value.new ≡ line_led_by_name name.now (texts line.now before.now) (texts line.now after.now) }
{
    if !is_directive_name(name) {
        if let Some(()) = slot_without_fault(name, line, before, after, buffer, value) {
            return Ok(());
        }
    }
    worded_by_forms(name, line, before, after, buffer, value)
}

/// Puts a line that a name leads into `value`, by all forms of the name.
#[inline(never)]
fn worded_by_forms(
    name: &[u8],
    line: &[u8],
    before: &[Lexeme],
    after: &[Lexeme],
    buffer: &mut Tokens,
    value: &mut Line,
) -> Result<(), LineFault>
    requires few { (length before.now ≤ LINE_LIMIT) × (length after.now ≤ LINE_LIMIT) }
    requires parts { AreParts line.now before.now × AreParts line.now after.now }
    ensures { put result value.new ≡ line_led_by_name name.now (texts line.now before.now) (texts line.now after.now) }
{
    *value = line_by_forms(&named_forms(name), name, line, before, after, buffer)?;
    Ok(())
}

/// Puts what a mark that stands alone says into `value`.
fn lone_mark(
    said: Line,
    line: &[u8],
    before: &[Lexeme],
    after: &[Lexeme],
    value: &mut Line,
) -> Result<(), LineFault>
    ensures { put result value.new ≡ lone_mark said (texts line.now before.now) (texts line.now after.now) }
{
    match (before, after) {
        ([], []) => {
            *value = said;
            Ok(())
        }
        _ => Err(LineFault::Form),
    }
}

/// Puts `{` and a template name into `value`.
fn opening_brace(
    line: &[u8],
    before: &[Lexeme],
    after: &[Lexeme],
    value: &mut Line,
) -> Result<(), LineFault>
    requires { AreParts line.now after.now }
    ensures { put result value.new ≡ opening_brace (texts line.now before.now) (texts line.now after.now) }
{
    match after {
        [lexeme, rest @ ..] => match template_name_of(lexeme.text(line)) {
            Some(name) => lone_mark(Line::Open { name }, line, before, rest, value),
            None => Err(LineFault::Name),
        },
        [] => Err(LineFault::Name),
    }
}

/// Puts a line that this lexeme leads into `value`.
fn line_led_by(
    lexeme: &Lexeme,
    line: &[u8],
    before: &[Lexeme],
    after: &[Lexeme],
    buffer: &mut Tokens,
    value: &mut Line,
) -> Result<(), LineFault>
    requires few { (length before.now ≤ LINE_LIMIT) × (length after.now ≤ LINE_LIMIT) }
    requires parts { AreParts line.now before.now × AreParts line.now after.now }
    requires lexeme { (lexeme.now.start ≤ lexeme.now.end) × (lexeme.now.end ≤ length line.now) }
    ensures { put result value.new ≡ line_led_by (lexeme.now.kind, slice_range line.now lexeme.now.start lexeme.now.end) (texts line.now before.now) (texts line.now after.now) }
{
    let text = lexeme.text(line);
    match lexeme.kind {
        LexemeKind::Name => line_led_by_name(text, line, before, after, buffer, value),
        LexemeKind::Number | LexemeKind::Quoted => Err(LineFault::Name),
        LexemeKind::Mark => match token(LexemeKind::Mark, text) {
            Token::Stop => lone_mark(Line::Stop, line, before, after, value),
            Token::CloseBrace => lone_mark(Line::Close, line, before, after, value),
            Token::OpenBrace => opening_brace(line, before, after, value),
            _ => Err(LineFault::Name),
        },
    }
}

/// The lexemes before a position.
fn before(lexemes: &[Lexeme], at: usize) -> &[Lexeme]
    requires { at ≤ length lexemes.now }
    ensures { result.now ≡ take at lexemes.now }
{
    &lexemes[..at]
}

/// The lexemes from a position on.
fn from(lexemes: &[Lexeme], at: usize) -> &[Lexeme]
    requires { at ≤ length lexemes.now }
    ensures { result.now ≡ drop at lexemes.now }
{
    &lexemes[at..]
}

/// Puts a line that is no label into `value`.
fn line_without_label(
    line: &[u8],
    lexemes: &[Lexeme],
    buffer: &mut Tokens,
    value: &mut Line,
) -> Result<(), LineFault>
    requires few { length lexemes.now ≤ LINE_LIMIT }
    requires parts { AreParts line.now lexemes.now }
    ensures { put result value.new ≡ line_without_label (texts line.now lexemes.now) }
{
    let Some(lead) = lead_at(line, lexemes) else {
        return Err(LineFault::Name);
    };
    if lead >= lexemes.len() {
        return Err(LineFault::Name);
    }
    line_led_by(
        &lexemes[lead],
        line,
        before(lexemes, lead),
        from(lexemes, lead + 1),
        buffer,
        value,
    )
}

/// A label: it stands alone, and is spelled as no register by number.
fn label_of(text: &[u8], line: &[u8], rest: &[Lexeme]) -> Result<Line, LineFault>
    ensures { result ≡ label_of text.now (texts line.now rest.now) }
{
    match rest {
        [] => {
            if numbered_register(text).is_some() {
                return Err(LineFault::Form);
            }
            match name_of(text) {
                Some(name) => Ok(Line::Label { name }),
                None => Err(LineFault::Form),
            }
        }
        [_, ..] => Err(LineFault::Form),
    }
}

/// Whether the lexeme is a name.
fn is_name(lexeme: &Lexeme) -> bool
    ensures { result ≡ pick lexeme.now.kind true false false false }
{
    matches!(lexeme.kind, LexemeKind::Name)
}

/// Whether the lexeme is a colon.
#[tactic(auto, using(crate::proofs::NoMarks::name_is_no_colon))]
fn is_colon(lexeme: &Lexeme, line: &[u8]) -> bool
    requires { (lexeme.now.start ≤ lexeme.now.end) × (lexeme.now.end ≤ length line.now) }
    ensures { result ≡ is_colon (token_of lexeme.now.kind (slice_range line.now lexeme.now.start lexeme.now.end)) }
{
    !is_name(lexeme) && matches!(token(lexeme.kind, lexeme.text(line)), Token::Colon)
}

/// Puts what the lexemes of a line say into `value`.
fn line_of(
    line: &[u8],
    lexemes: &[Lexeme],
    buffer: &mut Tokens,
    value: &mut Line,
) -> Result<(), LineFault>
    requires few { length lexemes.now ≤ LINE_LIMIT }
    requires parts { AreParts line.now lexemes.now }
    ensures { put result value.new ≡ line_of (texts line.now lexemes.now) }
{
    match lexemes {
        [] => {
            *value = Line::Empty;
            Ok(())
        }
        [_] => line_without_label(line, lexemes, buffer, value),
        [name, colon, rest @ ..] => {
            if is_name(name) && is_colon(colon, line) {
                *value = label_of(name.text(line), line, rest)?;
                Ok(())
            } else {
                line_without_label(line, lexemes, buffer, value)
            }
        }
    }
}

/// Puts what a line says, but for whether its instruction is listed, into `value`.
fn reading_of(line: &[u8], buffers: &mut LineBuffers, value: &mut Line) -> Result<(), LineFault>
    requires { length line.now ≤ LINE_LIMIT }
    ensures { put result value.new ≡ reading_of line.now }
{
    lexemes_into(line, &mut buffers.lexemes)?;
    line_of(line, buffers.lexemes.as_slice(), &mut buffers.tokens, value)
}

/// Whether the instruction of a slot line is listed.
fn is_listed_line(value: &Line) -> bool
    ensures { IsTrue result ↔ IsListedLine value.now }
{
    match value {
        Line::Slot { draft, .. } => is_listed(&draft.insn),
        _ => true,
    }
}

/// What a line says, or its first fault: of its bytes, its leading lexeme, what stands before that, and the tokens
/// after it from left to right ([`faults_in_order`](crate::faults_in_order)).
///
/// The line is at most [`LINE_LIMIT`] bytes long, and has no line feed. A leading lexeme names one or more forms. Its
/// operands are followed as far as any of them goes, and what those that got there want next decides: a
/// register, a number, or anything else. Form comes too where all is read and the instruction is none of
/// the profile. It takes no memory.
pub fn read_line(line: &[u8]) -> Result<Line, LineFault>
    requires { length line.now ≤ LINE_LIMIT }
    ensures ok { IfOk result (LineOf line.now) }
    ensures err { IfErr result (FaultOf line.now) }
{
    let mut value = Line::Empty;
    read_line_into(line, &mut LineBuffers::new(), &mut value)?;
    Ok(value)
}

/// Puts what a line says, as [`read_line`] has it, into `value`, instead of what it held. The buffers are lent to it;
/// they and the value serve many lines, which saves making them anew for each. After a fault nothing is said of what the
/// value holds.
pub fn read_line_into(
    line: &[u8],
    buffers: &mut LineBuffers,
    value: &mut Line,
) -> Result<(), LineFault>
    requires { length line.now ≤ LINE_LIMIT }
    ensures ok { OnOk result (LineOf line.now value.new) }
    ensures err { IfErr result (FaultOf line.now) }
{
    reading_of(line, buffers, value)?;
    if is_listed_line(value) {
        Ok(())
    } else {
        Err(LineFault::Form)
    }
}

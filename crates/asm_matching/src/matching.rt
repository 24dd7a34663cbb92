//! Which form a line's operands have, and the first fault where they have none.

ghost use Rattle.std.specs.Prelude.{◌≡◌, ◌≤◌, ◌<◌, length, drop, IsTrue, Some};
ghost use Rattle.std.specs.List.{find};
ghost use Rattle.asm_forms.specs.Spelled.{is_spelled};
ghost use Rattle.asm_matching.specs.Matching.{agreed, agreed_items, is_stop_next, reach, wants, wants_next, fault_at, fault_of, number_fault, read_form, is_of};

use asm_forms::{
    Form, FormItem, accepts, are_accepted, begins_with_letter, is_label_item, is_long_name,
    is_number, is_register, is_stop,
};
use asm_lexemes::{LineFault, Token};

/// A class of items.
#[derive(Clone, Copy)]
enum Class {
    Register,
    Number,
    Label,
}

fn is_of(class: Class, item: Option<FormItem>) -> bool
    ensures { result ≡ is_of class item }
{
    match (item, class) {
        (None, _) => false,
        (Some(item), Class::Register) => is_register(item),
        (Some(item), Class::Number) => is_number(item),
        (Some(item), Class::Label) => is_label_item(item),
    }
}

/// On how many tokens at the front the items agree.
fn agreed_items(items: &[FormItem], tokens: &[Token]) -> usize
    ensures value { result ≡ agreed_items items.now tokens.now }
    ensures bound { result ≤ length tokens.now }
{
    let mut at = 0;
    while at < items.len() && at < tokens.len() && accepts(items[at], tokens[at]) {
        at += 1;
    }
    at
}

/// Whether the token at this position is a stop.
fn is_stop_at(tokens: &[Token], at: usize) -> bool
    ensures value { result ≡ is_stop_next (drop at tokens.now) }
    ensures room { IsTrue result → at < length tokens.now }
{
    match tokens.get(at) {
        Some(token) => is_stop(token),
        None => false,
    }
}

/// On how many tokens at the front a form with these items agrees: on a stop too where it stands after
/// all of them.
#[tactic(auto, unfolding(crate::specs::Matching::agreed))]
fn agreed(items: &[FormItem], tokens: &[Token]) -> usize
    ensures value { result ≡ agreed items.now tokens.now }
    ensures bound { result ≤ length tokens.now }
{
    let at = agreed_items(items, tokens);
    if at == items.len() && is_stop_at(tokens, at) {
        at + 1
    } else {
        at
    }
}

/// The most tokens on which a form agrees.
fn reach(forms: &[Form], tokens: &[Token]) -> usize
    ensures value { result ≡ reach forms.now tokens.now }
    ensures bound { result ≤ length tokens.now }
{
    let mut most = 0;
    for form in forms {
        most = most.max(agreed(form.items(), tokens));
    }
    most
}

/// Whether a form that agrees so far wants an item of the class next.
fn wants(class: Class, forms: &[Form], tokens: &[Token], at: usize) -> bool
    ensures { result ≡ wants class forms.now tokens.now at }
{
    for form in forms {
        if wants_next(class, form.items(), tokens, at) {
            return true;
        }
    }
    false
}

/// Whether the items agree so far, and one of the class is next.
fn wants_next(class: Class, items: &[FormItem], tokens: &[Token], at: usize) -> bool
    ensures { result ≡ wants_next class items.now tokens.now at }
{
    agreed(items, tokens) == at && is_of(class, items.get(at).copied())
}

/// The fault at a token where a register, a number or a label is wanted, several of them, or none.
pub fn fault_at(register: bool, number: bool, label: bool, token: Option<Token>) -> LineFault
    ensures { result ≡ fault_at register number label token }
{
    match token {
        Some(token) => fault_of_token(register, number, label, &token),
        None => LineFault::Form,
    }
}

fn fault_of_token(register: bool, number: bool, label: bool, token: &Token) -> LineFault
    ensures { result ≡ fault_at register number label (Some token.now) }
{
    if label && is_long_name(token) {
        LineFault::Form
    } else if register && (begins_with_letter(token) || !number) {
        LineFault::Register
    } else if number {
        number_fault(token)
    } else {
        LineFault::Form
    }
}

fn number_fault(token: &Token) -> LineFault
    ensures { result ≡ number_fault token.now }
{
    match token {
        Token::Number { .. } | Token::TooLarge => LineFault::Range,
        _ => LineFault::Number,
    }
}

/// The fault at the first token on which no form agrees.
fn fault_of(forms: &[Form], tokens: &[Token]) -> LineFault
    ensures { result ≡ fault_of forms.now tokens.now }
{
    let at = reach(forms, tokens);
    fault_at(
        wants(Class::Register, forms, tokens, at),
        wants(Class::Number, forms, tokens, at),
        wants(Class::Label, forms, tokens, at),
        tokens.get(at).copied(),
    )
}

fn find_form(forms: &[Form], operands: &[Token]) -> Option<Form>
    ensures { result ≡ find (is_spelled operands.now) forms.now }
{
    for form in forms {
        if are_accepted(form.items(), operands) {
            return Some(*form);
        }
    }
    None
}

/// The first of the forms that the operands spell, and otherwise the first fault of the tokens, which
/// are the operands and a stop after them where one stands.
pub fn read_form(forms: &[Form], operands: &[Token], tokens: &[Token]) -> Result<Form, LineFault>
    ensures { result ≡ read_form forms.now operands.now tokens.now }
{
    match find_form(forms, operands) {
        Some(form) => Ok(form),
        None => Err(fault_of(forms, tokens)),
    }
}

//! Reading a mnemonic: the forms that it names, and their completers.

ghost use Rattle.std.specs.Prelude.{◌≡◌, ◌≤◌, nat_eq, false, length, drop, filter, map, IfSome, IsTrue, Some, None, is_some, option_map};
ghost use Rattle.std.specs.List.{find, starts_with};
ghost use Rattle.asm_forms.specs.Completers.{text_of};
ghost use Rattle.asm_forms.specs.Naming.{begins, ends_part, completers_in, is_named, named_forms, completers};
ghost use Rattle.asm_forms.specs.Rows.{seen, row_of};

use crate::completer::{Completer, CompleterSet, Suffix, members, text};
use crate::form::Form;
use crate::rows::{TableRow, rows_c_to_i, rows_from_s, rows_l_to_n, rows_o_to_r, rows_to_b};
use arrayvec::ArrayVec;

/// The completers of a form, in order.
pub type Completers = ArrayVec<Completer, 4>;

/// The forms that a mnemonic names, in their order.
pub type Named = ArrayVec<Form, 64>;

/// Whether a dot or nothing follows.
fn ends_part(rest: &[u8]) -> bool
    ensures { result ≡ ends_part rest.now }
{
    match rest {
        [] => true,
        [first, ..] => *first == b'.',
    }
}

/// Whether the name has another byte, or none, where the text ends, so that it doesn't begin with the text. To look
/// at one byte is shorter than to compare the texts, and tells most stems and completers apart.
fn differ_at_the_end(name: &[u8], text: &[u8]) -> bool
    ensures value { IsTrue result → starts_with nat_eq name.now text.now ≡ false }
    ensures room { result ≡ false → length text.now ≤ length name.now }
{
    match text {
        [.., last] => text.len() > name.len() || name[text.len() - 1] != *last,
        [] => false,
    }
}

/// Whether the name begins with the text, as a part of its own.
pub(crate) fn begins(name: &[u8], text: &[u8]) -> bool
    ensures value { result ≡ begins name.now text.now }
    ensures room { IsTrue result → length text.now ≤ length name.now }
{
    !differ_at_the_end(name, text) && ends_part(&name[text.len()..]) && name.starts_with(text)
}

/// Whether the name begins with the completer, as a part of its own. No name at all does so with the one that is not written
/// alone.
fn begins_with(completer: Completer, name: &[u8]) -> bool
    ensures { result ≡ begins name.now (text_of completer) }
{
    match name {
        [] => matches!(completer.suffix, Suffix::Absent),
        [_, ..] => begins(name, text(completer)),
    }
}

/// The first of the completers with which the name begins.
fn find_completer(completers: &[Completer], name: &[u8]) -> Option<Completer>
    ensures value { result ≡ find (λ c. begins name.now (text_of c)) completers.now }
    ensures room { IfSome result (λ c. length (text_of c) ≤ length name.now) }
{
    for completer in completers {
        if begins_with(*completer, name) {
            return Some(*completer);
        }
    }
    None
}

/// Whether the text is a completer of each set, one after the other.
fn has_completers(sets: &[(CompleterSet, u8)], name: &[u8]) -> bool
    ensures { result ≡ is_some (completers_in sets.now name.now) }
{
    match sets {
        [] => name.is_empty(),
        [(set, _), sets @ ..] => match find_completer(members(set), name) {
            Some(completer) => has_completers(sets, &name[text(completer).len()..]),
            None => false,
        },
    }
}

/// Whether the name is the row's stem and completers.
fn is_named(name: &[u8], row: &TableRow) -> bool
    ensures { result ≡ is_named name.now (seen row.now) }
{
    begins(name, row.stem) && has_completers(row.sets, &name[row.stem.len()..])
}

/// The rows among which those of the name's stem are.
pub(crate) fn rows_by_letter(name: &[u8]) -> &'static [TableRow]
    ensures value { map (λ r. r.form) (filter (is_named name.now) (map seen result.now)) ≡ named_forms name.now }
    ensures listed { map (λ r. row_of r.form) (map seen result.now) ≡ map seen result.now }
    ensures few { length result.now ≤ 64 }
{
    match name {
        [first, ..] => {
            if *first < b'c' {
                rows_to_b()
            } else if *first < b'l' {
                rows_c_to_i()
            } else if *first < b'o' {
                rows_l_to_n()
            } else if *first < b's' {
                rows_o_to_r()
            } else {
                rows_from_s()
            }
        }
        [] => rows_to_b(),
    }
}

/// The forms whose stems and completers this name is, in the order of the rows.
pub fn named_forms(name: &[u8]) -> Named
    ensures { result.items ≡ named_forms name.now }
{
    named_among(rows_by_letter(name), name)
}

fn named_among(rows: &[TableRow], name: &[u8]) -> Named
    requires { length rows.now ≤ 64 }
    ensures { result.items ≡ map (λ r. r.form) (filter (is_named name.now) (map seen rows.now)) }
{
    let mut named = Named::new();
    for row in rows {
        if is_named(name, row) {
            named.push(row.form);
        }
    }
    named
}

/// What follows the stem in the name.
fn past<'a>(stem: &[u8], name: &'a [u8]) -> &'a [u8]
    ensures { result.now ≡ drop (length stem.now) name.now }
{
    if stem.len() <= name.len() {
        &name[stem.len()..]
    } else {
        &[]
    }
}

/// The completers of the form in a name that the form's stem begins, and None where it has others.
pub fn completers(form: Form, name: &[u8]) -> Option<Completers>
    ensures { option_map (λ cs. cs.items) result ≡ completers form name.now }
{
    let row = form.row();
    let mut list = Completers::new();
    if completers_into(row.sets(), past(row.stem(), name), &mut list) {
        Some(list)
    } else {
        None
    }
}

/// Puts one completer of each set, one after the other, into the list, instead of what it held. False where the
/// name has others.
pub(crate) fn completers_into(
    sets: &[(CompleterSet, u8)],
    name: &[u8],
    list: &mut Completers,
) -> bool
    requires { length sets.now ≤ 4 }
    ensures read { IsTrue result → completers_in sets.now name.now ≡ Some list.new.items }
    ensures others { result ≡ false → completers_in sets.now name.now ≡ None }
{
    *list = Completers::new();
    let mut at = 0;
    for (set, _) in sets {
        let Some(completer) = find_completer(members(set), rest_of(name, at)) else {
            return false;
        };
        list.push(completer);
        at += text(completer).len();
    }
    if at != name.len() {
        return false;
    }
    true
}

/// What stands from the position on.
fn rest_of(name: &[u8], at: usize) -> &[u8]
    requires { at ≤ length name.now }
    ensures { result.now ≡ drop at name.now }
{
    &name[at..]
}

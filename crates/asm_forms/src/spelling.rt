//! The form that a mnemonic and its operands spell.

ghost use Rattle.std.specs.Prelude.{◌≡◌, ◌&&◌, IsTrue, IfSome, Some};
ghost use Rattle.std.specs.Cmp.Lexicographic.{pointwise};
ghost use Rattle.std.specs.List.{find};
ghost use Rattle.asm_forms.specs.Items.{accepts};
ghost use Rattle.asm_forms.specs.Naming.{is_named, named_forms, completers};
ghost use Rattle.asm_forms.specs.Rows.{row_of, seen};
ghost use Rattle.asm_forms.specs.Spelled.{is_spelled};

use crate::items::are_accepted;
use crate::naming::{Completers, begins, completers_into, rows_by_letter};
use crate::rows::{Row, TableRow};
use asm_lexemes::Token;

/// Whether the mnemonic is the row's stem with completers, which are then put into the list, and the operands are the row's.
#[inline(always)]
fn is_spelled(row: &TableRow, name: &[u8], operands: &[Token], list: &mut Completers) -> bool
    requires { row_of row.now.form ≡ seen row.now }
    ensures value { result ≡ (is_named name.now (seen row.now) && pointwise accepts row.now.items.now operands.now) }
    ensures read { IsTrue result → completers row.now.form name.now ≡ Some list.new.items }
{
    begins(name, row.stem)
        && are_accepted(row.items, operands)
        && completers_into(row.sets, &name[row.stem.len()..], list)
}

/// The row of the first of the forms that the mnemonic names whose operands these are, with the mnemonic's completers in the
/// list, and None where they are those of none.
pub fn find_spelled(name: &[u8], operands: &[Token], list: &mut Completers) -> Option<Row>
    ensures value { result ≡ find (is_spelled operands.now) (named_forms name.now) }
    ensures read { IfSome result (λ form. completers form name.now ≡ Some list.new.items) }
{
    let rows = rows_by_letter(name);
    for row in rows {
        if is_spelled(row, name, operands, list) {
            return Some(Row::of(row));
        }
    }
    None
}

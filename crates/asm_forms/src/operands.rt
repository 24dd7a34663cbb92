//! The operands between a form's fixed tokens.

ghost use Rattle.std.specs.Prelude.{◌≡◌, ◌≤◌, ◌+◌, ◌++◌, length};
ghost use Rattle.arrayvec.specs.ArrayVec.{array_vec_len};
ghost use Rattle.asm_forms.specs.Items.{operands as operands_of, taken};

use crate::items::FormItem;
use arrayvec::ArrayVec;
use asm_lexemes::Token;

/// The operands of a line, of which no form takes more than 5.
pub type Operands = ArrayVec<Token, 5>;

/// The operands among the tokens of the items.
pub fn taken(items: &[FormItem], tokens: &[Token]) -> Operands
    requires { length (operands_of items.now) ≤ 5 }
    ensures { result.items ≡ taken items.now tokens.now }
{
    let mut operands = Operands::new();
    take_into(items, tokens, &mut operands);
    operands
}

/// Appends the operands among the tokens of the items.
fn take_into(items: &[FormItem], tokens: &[Token], operands: &mut Operands)
    requires { array_vec_len operands.old + length (operands_of items.now) ≤ 5 }
    ensures { operands.new.items ≡ operands.old.items ++ taken items.now tokens.now }
{
    match (items, tokens) {
        ([FormItem::Takes(..), items @ ..], [token, tokens @ ..]) => {
            operands.push(*token);
            take_into(items, tokens, operands);
        }
        ([FormItem::Is(_), items @ ..], [_, tokens @ ..]) => take_into(items, tokens, operands),
        _ => {}
    }
}

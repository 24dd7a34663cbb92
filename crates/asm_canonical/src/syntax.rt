//! A syntax: a form, its completers and its operands.

ghost use Rattle.std.specs.Prelude.{◌≡◌, ◌≤◌, ◌+◌, ◌++◌, length, map};
ghost use Rattle.arrayvec.specs.ArrayVec.{array_vec_len};
ghost use Rattle.asm_forms.specs.Items.{operands as operands_of};
ghost use Rattle.insn_rows.specs.Values.{at};
ghost use Rattle.asm_canonical.specs.Canonical.{Syntax as SyntaxOf, syntax, completer_of, operand_of, frame_values, written, syntax_by, syntax_of};

use crate::fields::{completer_of, operand_of};
use crate::forms::form_of;
use asm_forms::{Completer, CompleterSet, Completers, FormItem, Operands, Row};
use asm_lexemes::Token;
use ia_insn::{Insn, Op, Pr};
use insn_rows::{Opcode, Value, Values, opcode_of, small, value_at, values_of};
use std::marker::Model;

/// How an instruction is printed: its form, a completer for each set of the form, and its operands. Contracts see
/// the two as lists.
#[derive(Drop)]
pub struct Syntax {
    row: Row,
    completers: Completers,
    operands: Operands,
}

impl Model for Syntax {
    ghost Value = { SyntaxOf };

    ghost view = { λ s. syntax s.row s.completers.items s.operands.items };
}

impl Syntax {
    /// The row of the form.
    pub fn row(&self) -> &Row
        ensures { result.now ≡ self.now.form }
    {
        &self.row
    }

    /// A completer for each set of the form, in order.
    pub fn completers(&self) -> &[Completer]
        ensures { result.now ≡ self.now.completers }
    {
        self.completers.as_slice()
    }

    /// The operands, in order; a target is a name.
    pub fn operands(&self) -> &[Token]
        ensures { result.now ≡ self.now.operands }
    {
        self.operands.as_slice()
    }
}

/// The completers that a row's sets are printed with.
fn completers_by(sets: &[(CompleterSet, u8)], opcode: Opcode, values: &Values) -> Completers
    requires { length sets.now ≤ 4 }
    ensures { result.items ≡ map (λ s. completer_of s.0 opcode (at values.now s.1)) sets.now }
{
    let mut completers = Completers::new();
    for (set, at) in sets {
        completers.push(completer_of(set, opcode, &value_at(values, usize::from(*at))));
    }
    completers
}

/// The operands that the items are printed with.
fn operands_by(items: &[FormItem], opcode: Opcode, values: &Values) -> Operands
    requires { length (operands_of items.now) ≤ 5 }
    ensures { result.items ≡ map (λ k. operand_of k.0 opcode (at values.now k.1)) (operands_of items.now) }
{
    let mut operands = Operands::new();
    put_operands(items, opcode, values, &mut operands);
    operands
}

/// Appends the operands that the items are printed with.
fn put_operands(items: &[FormItem], opcode: Opcode, values: &Values, operands: &mut Operands)
    requires { array_vec_len operands.old + length (operands_of items.now) ≤ 5 }
    ensures { operands.new.items ≡ operands.old.items ++ map (λ k. operand_of k.0 opcode (at values.now k.1)) (operands_of items.now) }
{
    match items {
        [] => {}
        [FormItem::Is(_), items @ ..] => put_operands(items, opcode, values, operands),
        [FormItem::Takes(kind, at), items @ ..] => {
            operands.push(operand_of(*kind, opcode, value_at(values, usize::from(*at))));
            put_operands(items, opcode, values, operands);
        }
    }
}

/// The syntax of an opcode and values by the row of a form.
fn syntax_by(row: Row, opcode: Opcode, values: &Values) -> Syntax
    ensures { result ≡ syntax_by row opcode values.now }
{
    Syntax {
        completers: completers_by(row.sets(), opcode, values),
        operands: operands_by(row.items(), opcode, values),
        row,
    }
}

/// The values of a frame as it is written, by its parts: inputs, of which there are none, locals, outputs and rotating
/// registers.
fn frame_values(values: &Values) -> Values
    ensures { result ≡ frame_values (at values.now) }
{
    let sof = small(values, 2);
    let sol = small(values, 3);
    [
        Value::Absent,
        value_at(values, 1),
        Value::Wide(0),
        Value::Wide(u64::from(sol)),
        Value::Wide(u64::from(sof.saturating_sub(sol))),
        Value::Wide(8 * u64::from(small(values, 4))),
        Value::Absent,
    ]
}

/// The values as they are written: those of a frame by its parts.
fn written(opcode: Opcode, values: Values) -> Values
    ensures { result ≡ written opcode values }
{
    match opcode {
        Opcode::Alloc => frame_values(&values),
        _ => values,
    }
}

/// How the instruction is printed, under whatever predicate; a target is a name.
pub fn syntax_of(op: &Op) -> Syntax
    ensures { result ≡ syntax_of op.now }
{
    let opcode = opcode_of(op);
    let values = values_of(&Insn {
        qp: Pr::default(),
        op: *op,
    });
    let row = form_of(opcode, &values);
    syntax_by(row, opcode, &written(opcode, values))
}

//! Words by rows, and back.

ghost use Rattle.std.specs.Prelude.{◌≡◌, ℕ, ◌<◌, ◌≤◌, ◌^◌, ◌↔◌, IsTrue, IsNone, IsSome, IfSome, Some, length, slice_index_or, false, true, List, map};
ghost use Rattle.bundle_bits.specs.Words.{word_of};
ghost use Rattle.ia_insn.specs.declared.insn.Insn.{Insn};
ghost use Rattle.insn_rows.specs.declared.row.Row.{Row};
ghost use Rattle.insn_rows.specs.declared.value.Value.{Value};
ghost use Rattle.insn_rows.specs.Values.{at};
ghost use Rattle.insn_rows.specs.Scattered.{list_of, scattered};
ghost use Rattle.insn_rows.specs.Reading.{gathered, value, read, matches};
ghost use Rattle.insn_rows.specs.Codings.{Takes, code};
ghost use Rattle.insn_rows.specs.Rows.{operand_width, listed, operands, AllTake, parts, Agrees, AreOther, IsFrame, HasWord, row_word};
ghost use Rattle.insn_rows.specs.WellMade.{is_sized, are_apart_fields, AreMade, is_well_made, is_table};
ghost use Rattle.insn_rows.specs.Indexes.{are_inside, is_index};
ghost use Rattle.insn_rows.specs.Arms.{opcode_of};
ghost use Rattle.insn_rows.specs.Codes.{IsOfRow, HasRow, IsListedBy, IsRowIndexOf};

use crate::arms::{insn_of, value_at, values_of};
use crate::bits::Bits;
use crate::coding::{code_of, set_value, takes};
use crate::row::{Check, Coding, Operand, OperandList, Row};
use crate::value::{Value, Values};
use ia_insn::Insn;

/// Whether two registers of one kind differ.
fn are_other(x: Value, y: Value) -> bool
    ensures { IsTrue result ↔ AreOther x y }
{
    match x {
        Value::Gr(r) => match y {
            Value::Gr(s) => r.number() != s.number(),
            _ => false,
        },
        Value::Pr(p) => match y {
            Value::Pr(q) => p.number() != q.number(),
            _ => false,
        },
        _ => false,
    }
}

/// Whether these are the sizes of a frame.
fn is_frame(x: Value, y: Value, z: Value) -> bool
    ensures { IsTrue result ↔ IsFrame x y z }
{
    match x {
        Value::Small(sof) => match y {
            Value::Small(sol) => match z {
                Value::Small(sor) => {
                    sof <= 96 && sol <= sof && 8 * u64::from(sor) <= u64::from(sof)
                }
                _ => false,
            },
            _ => false,
        },
        _ => false,
    }
}

/// Whether the values are to each other what a format wants.
fn agrees(check: Check, values: &Values) -> bool
    ensures { IsTrue result ↔ Agrees check values.now }
{
    match check {
        Check::Free => true,
        Check::Differ(i, j) => are_other(value_at(values, i), value_at(values, j)),
        Check::Frame(i, j, k) => is_frame(
            value_at(values, i),
            value_at(values, j),
            value_at(values, k),
        ),
    }
}

/// Whether each operand may have its value.
#[tactic(auto, unfolding(crate::specs::Rows::listed))]
fn all_take(operands: &OperandList, values: &Values) -> bool
    requires { AreMade (listed operands.now) }
    ensures { IsTrue result ↔ AllTake (listed operands.now) values.now }
{
    let [a, b, c, d, e, f, g] = values;
    takes(&operands.first, a)
        && takes(&operands.second, b)
        && takes(&operands.third, c)
        && takes(&operands.fourth, d)
        && takes(&operands.fifth, e)
        && takes(&operands.sixth, f)
        && takes(&operands.seventh, g)
}

/// Whether a row has a word for values.
#[tactic(auto, using(crate::proofs::RowWords::are_made))]
fn has_word(row: &Row, values: &Values) -> bool
    requires { IsTrue (is_well_made row.now) }
    ensures { IsTrue result ↔ HasWord row.now values.now }
{
    all_take(&row.format.operands, values) && agrees(row.format.check, values)
}

/// The word that has the code of a value in the bits of the operand, and zeros elsewhere.
#[inline]
fn code_in(operand: &Operand, value: &Value) -> u64
    requires sized { IsTrue (is_sized operand.now) }
    requires apart { IsTrue (are_apart_fields (list_of operand.now.bits)) }
    requires takes { Takes operand.now.coding (operand_width operand.now) value.now }
    ensures code { result ≡ word_of (scattered (list_of operand.now.bits) (code operand.now.coding (operand_width operand.now) value.now)) }
    ensures within { result < 2 ^ 41 }
{
    match operand.bits {
        Bits::None => 0,
        bits => bits.put(code_of(operand, value)),
    }
}

/// The word that has the codes of values in the bits of the operands, and zeros elsewhere.
#[tactic(auto, unfolding(crate::specs::Rows::listed), using(crate::proofs::Parts::seven_parts))]
fn codes_in(operands: &OperandList, values: &Values) -> u64
    requires made { AreMade (listed operands.now) }
    requires takes { AllTake (listed operands.now) values.now }
    ensures codes { result ≡ word_of (parts (listed operands.now) values.now) }
    ensures within { result < 2 ^ 44 }
{
    let [a, b, c, d, e, f, g] = values;
    code_in(&operands.first, a)
        + (code_in(&operands.second, b)
            + (code_in(&operands.third, c)
                + (code_in(&operands.fourth, d)
                    + (code_in(&operands.fifth, e)
                        + (code_in(&operands.sixth, f) + code_in(&operands.seventh, g))))))
}

/// The word that a row gives to values.
#[tactic(auto, using(crate::proofs::RowWords::are_made, crate::proofs::RowWords::fixed_below, crate::proofs::RowWords::word_below))]
fn word_by(row: &Row, values: &Values) -> u64
    requires made { IsTrue (is_well_made row.now) }
    requires listed { HasWord row.now values.now }
    ensures word { result ≡ row_word row.now values.now }
    ensures within { result < 2 ^ 41 }
{
    row.fixed + codes_in(&row.format.operands, values)
}

/// Sets a value to the one whose code a word has in the bits of the operand, and says whether the operand may have it.
#[inline(never)]
fn read_code(operand: &Operand, word: u64, target: &mut Value) -> bool
    requires sized { IsTrue (is_sized operand.now) }
    requires apart { IsTrue (are_apart_fields (list_of operand.now.bits)) }
    ensures takes { IsTrue result ↔ Takes operand.now.coding (operand_width operand.now) target.new }
    ensures value { target.new ≡ value operand.now.coding (operand_width operand.now) (gathered (list_of operand.now.bits) word) }
{
    set_value(operand, operand.bits.get(word), target)
}

/// The same; most operands are absent ones.
#[inline(always)]
fn read_value(operand: &Operand, word: u64, target: &mut Value) -> bool
    requires sized { IsTrue (is_sized operand.now) }
    requires apart { IsTrue (are_apart_fields (list_of operand.now.bits)) }
    ensures takes { IsTrue result ↔ Takes operand.now.coding (operand_width operand.now) target.new }
    ensures value { target.new ≡ value operand.now.coding (operand_width operand.now) (gathered (list_of operand.now.bits) word) }
{
    match operand.coding {
        Coding::Absent => {
            *target = Value::Absent;
            true
        }
        _ => read_code(operand, word, target),
    }
}

/// Sets values to those whose codes a word has in the bits of the operands, and says whether each operand may have its own.
#[tactic(auto, unfolding(crate::specs::Rows::listed), using(crate::proofs::Parts::seven_values))]
fn read_values(operands: &OperandList, word: u64, values: &mut Values) -> bool
    requires { AreMade (listed operands.now) }
    ensures takes { IsTrue result ↔ AllTake (listed operands.now) values.new }
    ensures values { values.new ≡ read (listed operands.now) word }
{
    let first = read_value(&operands.first, word, &mut values[0]);
    let second = read_value(&operands.second, word, &mut values[1]);
    let third = read_value(&operands.third, word, &mut values[2]);
    let fourth = read_value(&operands.fourth, word, &mut values[3]);
    let fifth = read_value(&operands.fifth, word, &mut values[4]);
    let sixth = read_value(&operands.sixth, word, &mut values[5]);
    let seventh = read_value(&operands.seventh, word, &mut values[6]);
    first && second && third && fourth && fifth && sixth && seventh
}

/// Sets values to those whose codes a word has by a row, and says whether the row has a word for them.
#[tactic(auto, using(crate::proofs::RowWords::are_made))]
fn read_row(row: &Row, word: u64, values: &mut Values) -> bool
    requires { IsTrue (is_well_made row.now) }
    ensures has { IsTrue result ↔ HasWord row.now values.new }
    ensures values { values.new ≡ read (operands row.now) word }
{
    read_values(&row.format.operands, word, values) && agrees(row.format.check, values)
}

/// The instruction of a row whose word this is, where it has the bits of the row.
fn decode_by(row: &Row, word: u64) -> Option<Insn>
    requires made { IsTrue (is_well_made row.now) }
    requires matches { IsTrue (matches row.now word) }
    ensures found { IfSome result (λ i. IsOfRow row.now i word) }
    ensures only { (i : Insn) → IsOfRow row.now i word → result ≡ Some i }
{
    let mut values = [Value::Absent; 7];
    if read_row(row, word, &mut values) {
        Some(insn_of(row.opcode, &values))
    } else {
        None
    }
}

/// Which of the rows at these indexes has the bits of the word.
fn find_row(rows: &[Row], row_indexes: &[u8], word: u64) -> Option<usize>
    requires { IsTrue (are_inside rows.now row_indexes.now) }
    ensures found { IfSome result (λ n. (n < length rows.now) × ((r : Row) → matches (slice_index_or rows.now n r) word ≡ true)) }
    ensures none { IsNone result → (k : ℕ) (r : Row) → k < length row_indexes.now → matches (slice_index_or rows.now (slice_index_or row_indexes.now k 0) r) word ≡ false }
{
    for row_index in row_indexes {
        let n = usize::from(*row_index);
        let row = &rows[n];
        if word & row.format.mask == row.fixed {
            return Some(n);
        }
    }
    None
}

/// The instruction of the rows of a table whose word this is, and None exactly where it is that of none. The index has for
/// each major opcode, the top four bits of a word, the indexes of its rows.
pub fn decode_with(rows: &[Row], index: &[&[u8]; 16], word: u64) -> Option<Insn>
    requires table { IsTrue (is_table rows.now) }
    requires index { IsTrue (is_index rows.now (map (λ row_indexes. row_indexes.now) index.now)) }
    ensures found { IfSome result (λ i. HasRow rows.now i word) }
    ensures only { (i : Insn) → HasRow rows.now i word → result ≡ Some i }
{
    if word >= 1 << 41 {
        return None;
    }
    match find_row(rows, index[(word >> 37) as usize], word) {
        Some(n) => decode_by(&rows[n], word),
        None => None,
    }
}

/// Whether the rows of a table list an instruction, where `row_index` is that of its opcode's row.
pub fn lists_with(rows: &[Row], row_index: Option<usize>, insn: &Insn) -> bool
    requires table { IsTrue (is_table rows.now) }
    requires row_index { IsRowIndexOf rows.now row_index (opcode_of insn.now.op) }
    ensures { IsTrue result ↔ IsListedBy rows.now insn.now }
{
    match row_index {
        Some(n) => has_word(&rows[n], &values_of(insn)),
        None => false,
    }
}

/// The word of an instruction by the rows of a table, where `row_index` is that of its opcode's row, and None exactly where
/// no row lists it.
pub fn encode_with(rows: &[Row], row_index: Option<usize>, insn: &Insn) -> Option<u64>
    requires table { IsTrue (is_table rows.now) }
    requires row_index { IsRowIndexOf rows.now row_index (opcode_of insn.now.op) }
    ensures listed { IsSome result ↔ IsListedBy rows.now insn.now }
    ensures found { IfSome result (λ w. HasRow rows.now insn.now w) }
    ensures only { (w : ℕ) → HasRow rows.now insn.now w → result ≡ Some w }
    ensures within { IfSome result (λ w. w < 2 ^ 41) }
{
    match row_index {
        Some(n) => {
            let values = values_of(insn);
            if has_word(&rows[n], &values) {
                Some(word_by(&rows[n], &values))
            } else {
                None
            }
        }
        None => None,
    }
}

/// The word of an instruction that the rows of a table list, where `row_index` is that of its opcode's row.
pub fn word_with(rows: &[Row], row_index: Option<usize>, insn: &Insn) -> u64
    requires table { IsTrue (is_table rows.now) }
    requires row_index { IsRowIndexOf rows.now row_index (opcode_of insn.now.op) }
    requires listed { IsListedBy rows.now insn.now }
    ensures code { HasRow rows.now insn.now result }
    ensures within { result < 2 ^ 41 }
{
    let n = row_index.unwrap();
    word_by(&rows[n], &values_of(insn))
}

//! The relations that lines declare.

ghost use Rattle.std.specs.Prelude.{◌≡◌, ◌↔◌, ◌⊎◌, ◌∷◌, [], IsTrue, IfOk, IfErr, OnOk, Contains};
ghost use Rattle.first_fault.specs.Stages.{ArePassed, IsFirstFault};
ghost use Rattle.asm_build.specs.declared.reason.TextError.TheVariants as error;
ghost use Rattle.asm_build.specs.Relations.{related, all_related, relation_stages, AreRelationsOf};
ghost use Rattle.loose_text.specs.LooseTexts.{IsAfterCall, IsItemEntry};

use asm_build::{Reason, RelationLine, TextError, fault, relate_line};
use ia_program::Relation;
use loose_items::{Item, is_call};
use std::alloc::Global;
use std::collections::BTreeSet;

/// Whether the instruction before the n-th is a call.
fn is_after_call(items: &[Item], n: u32) -> bool
    ensures { IsTrue result ↔ IsAfterCall items.now n }
{
    if n == 0 {
        return false;
    }
    match items.get(n as usize - 1) {
        Some(before) => is_call(&before.insn.op),
        None => false,
    }
}

/// Whether an entry is among the declared ones.
fn is_declared(entries: &[u32], n: u32) -> bool
    ensures { IsTrue result ↔ Contains entries.now n }
{
    entries.contains(&n)
}

/// Whether the n-th instruction is an entry: the first, a declared one, or one after a call.
fn is_entry(items: &[Item], entries: &[u32], n: u32) -> bool
    ensures { IsTrue result ↔ IsItemEntry items.now entries.now n }
{
    if n as usize >= items.len() {
        return false;
    }
    n == 0 || is_declared(entries, n) || is_after_call(items, n)
}

/// Adds the relations that a line declares, or gives the line's fault.
fn relate_by(
    relations: &mut BTreeSet<Relation>,
    items: &[Item],
    entries: &[u32],
    line: &RelationLine,
) -> Result<(), TextError>
    ensures ok { OnOk result (ArePassed (relation_stages (IsItemEntry items.now entries.now) relations.old.keys (line.now ∷ [])) × (relations.new.keys ≡ related relations.old.keys line.now)) }
    ensures good { OnOk result (AreRelationsOf (IsItemEntry items.now entries.now) relations.old.keys → AreRelationsOf (IsItemEntry items.now entries.now) relations.new.keys) }
    ensures err { IfErr result (λ e. (e ≡ error.Memory) ⊎ IsFirstFault (relation_stages (IsItemEntry items.now entries.now) relations.old.keys (line.now ∷ [])) e) }
{
    if !is_entry(items, entries, line.bundle) {
        return Err(fault(line.line, Reason::Relation));
    }
    relate_line(relations, line)
}

/// The relations that lines declare, rising, or the fault of the first of these lines with one.
pub(crate) fn all_related(
    alloc: Global,
    items: &[Item],
    entries: &[u32],
    lines: &[RelationLine],
) -> Result<BTreeSet<Relation>, TextError>
    ensures ok { IfOk result (λ relations. ArePassed (relation_stages (IsItemEntry items.now entries.now) [] lines.now) × (relations.keys ≡ all_related [] lines.now)) }
    ensures good { IfOk result (λ relations. AreRelationsOf (IsItemEntry items.now entries.now) relations.keys) }
    ensures err { IfErr result (λ e. (e ≡ error.Memory) ⊎ IsFirstFault (relation_stages (IsItemEntry items.now entries.now) [] lines.now) e) }
{
    let mut relations = BTreeSet::new(alloc);
    for line in lines {
        relate_by(&mut relations, items, entries, line)?;
    }
    Ok(relations)
}

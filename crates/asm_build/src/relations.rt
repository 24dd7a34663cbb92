//! The relations that lines declare.

ghost use Rattle.std.specs.Prelude.{◌≡◌, ◌≤◌, ◌⊎◌, ◌∷◌, [], length, IfOk, IfErr, OnOk};
ghost use Rattle.first_fault.specs.Stages.{ArePassed, IsFirstFault};
ghost use Rattle.ia_program.specs.declared.limits.TheConstants.{RELATION_LIMIT};
ghost use Rattle.ia_program.specs.Programs.{IsEntryOf};
ghost use Rattle.asm_matching.specs.Related.{ArePredicates};
ghost use Rattle.asm_build.specs.declared.reason.Reason.TheVariants as reason;
ghost use Rattle.asm_build.specs.declared.reason.TextError.TheVariants as error;
ghost use Rattle.asm_build.specs.Relations.{relations_above, relations_among, with_relations, related, all_related, relation_stages, AreRelationsOf};

use crate::reason::{Reason, TextError, fault};
use crate::text_parts::RelationLine;
use ia_program::limits::RELATION_LIMIT;
use ia_program::{BundleOf, Relation, is_entry};
use std::alloc::{AllocError, Global};
use std::collections::BTreeSet;

/// Adds the relations of a bundle between a predicate and the higher ones of these.
fn relate_above(
    relations: &mut BTreeSet<Relation>,
    bundle: u32,
    p: u8,
    predicates: &[u8],
) -> Result<(), AllocError>
    ensures { OnOk result (relations.new.keys ≡ with_relations relations.old.keys (relations_above bundle p predicates.now)) }
{
    for q in predicates {
        if p < *q {
            relations.insert(Relation { bundle, p, q: *q })?;
        }
    }
    Ok(())
}

/// Adds the relations of a bundle between each two of these predicates.
fn relate(
    relations: &mut BTreeSet<Relation>,
    bundle: u32,
    predicates: &[u8],
) -> Result<(), AllocError>
    ensures { OnOk result (relations.new.keys ≡ with_relations relations.old.keys (relations_among bundle predicates.now)) }
{
    for p in predicates {
        relate_above(relations, bundle, *p, predicates)?;
    }
    Ok(())
}

/// Adds the relations that a line declares.
///
/// # Errors
///
/// `Limit` of the line for declared relations past [`RELATION_LIMIT`], or want of memory.
pub fn relate_line(relations: &mut BTreeSet<Relation>, line: &RelationLine) -> Result<(), TextError>
    ensures ok { OnOk result ((length (related relations.old.keys line.now) ≤ RELATION_LIMIT) × (relations.new.keys ≡ related relations.old.keys line.now)) }
    ensures fit { ArePredicates line.now.predicates }
    ensures err { IfErr result (λ e. (e ≡ error.Memory) ⊎ ((e ≡ error.Fault line.now.line reason.Limit) × ¬ (length (related relations.old.keys line.now) ≤ RELATION_LIMIT))) }
{
    relate(relations, line.bundle, line.predicates.numbers())?;
    if relations.len() > RELATION_LIMIT {
        return Err(fault(line.line, Reason::Limit));
    }
    Ok(())
}

/// Adds the relations that a line declares, or gives the line's fault.
fn relate_by(
    relations: &mut BTreeSet<Relation>,
    bundles: &[BundleOf],
    entries: &[u32],
    line: &RelationLine,
) -> Result<(), TextError>
    ensures ok { OnOk result (ArePassed (relation_stages (IsEntryOf bundles.now entries.now) relations.old.keys (line.now ∷ [])) × (relations.new.keys ≡ related relations.old.keys line.now)) }
    ensures good { OnOk result (AreRelationsOf (IsEntryOf bundles.now entries.now) relations.old.keys → AreRelationsOf (IsEntryOf bundles.now entries.now) relations.new.keys) }
    ensures err { IfErr result (λ e. (e ≡ error.Memory) ⊎ IsFirstFault (relation_stages (IsEntryOf bundles.now entries.now) relations.old.keys (line.now ∷ [])) e) }
{
    if !is_entry(bundles, entries, line.bundle) {
        return Err(fault(line.line, Reason::Relation));
    }
    relate_line(relations, line)
}

/// The relations that lines declare, rising, or the fault of the first of these lines with one.
pub(crate) fn all_related(
    alloc: Global,
    bundles: &[BundleOf],
    entries: &[u32],
    lines: &[RelationLine],
) -> Result<BTreeSet<Relation>, TextError>
    ensures ok { IfOk result (λ relations. ArePassed (relation_stages (IsEntryOf bundles.now entries.now) [] lines.now) × (relations.keys ≡ all_related [] lines.now)) }
    ensures good { IfOk result (λ relations. AreRelationsOf (IsEntryOf bundles.now entries.now) relations.keys) }
    ensures err { IfErr result (λ e. (e ≡ error.Memory) ⊎ IsFirstFault (relation_stages (IsEntryOf bundles.now entries.now) [] lines.now) e) }
{
    let mut relations = BTreeSet::new(alloc);
    for line in lines {
        relate_by(&mut relations, bundles, entries, line)?;
    }
    Ok(relations)
}

//! Declared relations of predicates.

ghost use Rattle.std.specs.Prelude.{◌≡◌, ◌^◌, ◌<◌, MatchOption, IsTrue, ◌↔◌, length};
ghost use Rattle.std.specs.List.Sorted.{IsNonDecreasingBy};
ghost use Rattle.ia_program.specs.Programs.{IsRelationBefore, IsDeclarable, AreRelations, IsFirstMisdeclared, relations_at, IsCountBelow};

use crate::bundle::BundleOf;
use crate::entries::is_entry;

/// A declared relation: whoever lands on the entry promises that not both predicates are 1. Relations
/// are ordered by bundle, then by the lower predicate, then by the higher one.
#[derive(Clone, Copy, Debug, PartialEq, Eq, PartialOrd, Ord)]
pub struct Relation {
    /// The number of the bundle, from 0, an entry.
    pub bundle: u32,
    /// The lower predicate, 1 to 14.
    pub p: u8,
    /// The higher predicate, up to 15.
    pub q: u8,
}

impl Relation {
    /// Below every relation that may be declared.
    const NONE: Relation = Relation {
        bundle: 0,
        p: 0,
        q: 0,
    };

    /// Whether this relation comes before another. It is the derived order, `<`.
    pub fn is_before(&self, other: &Relation) -> bool
        ensures { IsTrue result ↔ IsRelationBefore self.now other.now }
    {
        self < other
    }
}

/// Whether the relation may be declared after another one.
fn is_declarable(
    bundles: &[BundleOf],
    entries: &[u32],
    before: Relation,
    relation: Relation,
) -> bool
    ensures { IsTrue result ↔ IsDeclarable bundles.now entries.now before relation }
{
    before.is_before(&relation)
        && is_entry(bundles, entries, relation.bundle)
        && relation.p >= 1
        && relation.p < relation.q
        && relation.q <= 15
}

/// The number of the first relation that doesn't come after the one before it, isn't of an entry, or
/// isn't of two of p1 to p15, the lower one first. None exactly where there is none.
pub(crate) fn misdeclared_relation(
    bundles: &[BundleOf],
    entries: &[u32],
    relations: &[Relation],
) -> Option<u32>
    requires { length relations.now < 2 ^ 32 }
    ensures { MatchOption result (AreRelations bundles.now entries.now relations.now) (λ n. IsFirstMisdeclared bundles.now entries.now relations.now n) }
{
    let mut before = Relation::NONE;
    for n in 0..relations.len() {
        let relation = relations[n];
        if !is_declarable(bundles, entries, before, relation) {
            return Some(n as u32);
        }
        before = relation;
    }
    None
}

/// How many relations are of bundles below this one, of relations whose bundles don't fall. They stand
/// first.
fn count_below(relations: &[Relation], bundle: u64) -> usize
    requires { IsNonDecreasingBy (λ r. r.bundle) relations.now }
    ensures { IsCountBelow relations.now bundle result }
{
    relations.partition_point(|r| (r.bundle as u64) < bundle)
}

/// The relations of a bundle, of relations whose bundles don't fall.
pub(crate) fn relations_at(relations: &[Relation], bundle: u32) -> &[Relation]
    requires { IsNonDecreasingBy (λ r. r.bundle) relations.now }
    ensures { result.now ≡ relations_at relations.now bundle }
{
    let start = count_below(relations, bundle as u64);
    let end = count_below(relations, bundle as u64 + 1);
    &relations[start..end]
}

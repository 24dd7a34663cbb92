//! The accesses of an instruction, with what tells soon that another one can't clash with it.

ghost use Rattle.std.specs.Prelude.{◌≡◌, ◌<◌, ◌++◌, ◌∷◌, [], ℕ, false, List};
ghost use Rattle.ia_meaning.specs.Arithmetic.{bit};
ghost use Rattle.resource_sets.specs.declared.access.Access.{Access};
ghost use Rattle.resource_sets.specs.Accesses.{placed_rows, accesses_of};
ghost use Rattle.resource_sets.specs.AccessSets.{IsSetOf, ArePartsOf};
ghost use Rattle.resource_sets.specs.Clashes.{writes_guard, may_write_guard};
ghost use Rattle.resource_sets.specs.InsnAccesses.{may_clash, is_first, is_second, IsSummary};
ghost use Rattle.resource_sets.specs.Ranges.{IsNumberInRange, AreInRange};
ghost use Rattle.resource_sets.specs.Rows.{listed};

use crate::access::{Access, Kind, Resource};
use crate::access_sets::{
    AccessSet, Parts, named_accesses, placed_accesses, placed_kind, resources_of,
};
use crate::sets::ResourceSet;
use ia_insn::Pr;
use ia_meaning::Action;
use std::marker::Model;

/// The bits of p16 to p63.
const ROTATING: u64 = 0xffff_ffff_ffff_0000;

/// What the accesses of an instruction have in all.
#[derive(Clone, Copy, Debug)]
pub(crate) struct Summary {
    /// The resources of accesses that may clash with a later one.
    pub barred: ResourceSet,
    /// The resources of accesses that may clash with an earlier one.
    pub made: ResourceSet,
    /// The predicates that may be written: bit g is that of the predicate g.
    pub written: u64,
}

/// The accesses of an instruction, with what these have in all. Contracts see the list of the accesses.
#[derive(Drop)]
pub struct InsnAccesses {
    qp: Pr,
    action: Action,
    parts: Parts,
    summary: Summary,
}

impl Model for InsnAccesses {
    ghost use Rattle.std.specs.Prelude.{List};
    ghost use Rattle.resource_sets.specs.declared.access.Access.{Access};
    ghost use Rattle.resource_sets.specs.Accesses.{accesses_of};
    ghost use Rattle.resource_sets.specs.InsnAccesses.{AreSummed};

    ghost Value = { List Access };

    ghost view = { λ m. accesses_of m.qp m.action };

    ghost invariant = { λ m. AreSummed (accesses_of m.qp m.action) m.parts m.summary };
}

/// Whether an access of this kind may clash with a later one: all but reads.
fn is_first(kind: Kind) -> bool
    ensures { result ≡ is_first kind }
{
    !matches!(kind, Kind::Read | Kind::Fill)
}

/// Whether an access of this kind may clash with an earlier one: all but what branches read.
fn is_second(kind: Kind) -> bool
    ensures { result ≡ is_second kind }
{
    kind != Kind::BranchRead
}

/// The predicates that an access may write.
fn written_by(access: &Access) -> u64
    requires { IsNumberInRange access.now.resource }
    ensures { (g : ℕ) → g < 64 → bit result g ≡ writes_guard g access.now.resource access.now.kind }
{
    match (access.resource, access.kind) {
        (Resource::Pr(p), Kind::Write) => 1 << p,
        (Resource::Pr(p), Kind::LoopWrite) => 1 << p,
        (Resource::Pr(p), Kind::OrWrite) => 1 << p,
        (Resource::Pr(p), Kind::AndWrite) => 1 << p,
        (Resource::Cfm, Kind::Write) => ROTATING,
        _ => 0,
    }
}

impl Summary {
    /// No access has anything.
    fn none() -> Summary
        ensures { IsSummary [] result }
    {
        Summary {
            barred: ResourceSet::empty(),
            made: ResourceSet::empty(),
            written: 0,
        }
    }

    /// Takes in one more access.
    fn add(&mut self, access: &Access)
        requires { IsNumberInRange access.now.resource }
        ensures { (earlier : List Access) → IsSummary earlier self.old → IsSummary (earlier ++ access.now ∷ []) self.new }
    {
        self.barred
            .insert_if(is_first(access.kind), access.resource);
        self.made.insert_if(is_second(access.kind), access.resource);
        self.written |= written_by(access);
    }

    /// Takes in more accesses.
    fn add_all(&mut self, accesses: &[Access])
        requires { AreInRange accesses.now }
        ensures { (earlier : List Access) → IsSummary earlier self.old → IsSummary (earlier ++ accesses.now) self.new }
    {
        for n in 0..accesses.len() {
            self.add(&accesses[n]);
        }
    }
}

/// Takes in the accesses of predicates by place, and returns the set of them.
fn add_placed(summary: &mut Summary, qp: Pr, action: &Action) -> AccessSet
    ensures sums { (earlier : List Access) → IsSummary earlier summary.old → IsSummary (earlier ++ listed qp (placed_rows action.now)) summary.new }
    ensures set { IsSetOf (listed qp (placed_rows action.now)) result }
{
    let Some(kind) = placed_kind(action) else {
        return AccessSet::empty();
    };
    let accesses = placed_accesses(qp, action);
    summary.add_all(accesses.as_slice());
    AccessSet {
        resources: resources_of(accesses.as_slice()),
        kind,
        guard: qp,
    }
}

impl InsnAccesses {
    /// The accesses by name, and those by place.
    pub fn parts(&self) -> &Parts
        ensures { ArePartsOf self.now result.now }
    {
        &self.parts
    }

    /// The predicates that the instruction may write, by their names: those that it writes, and from p16 on all if it
    /// writes the frame, but not as `alloc` does. Bit g is that of the predicate g.
    pub fn written_predicates(&self) -> u64
        ensures { (g : ℕ) → g < 64 → bit result g ≡ may_write_guard g self.now }
    {
        self.summary.written
    }
}

/// The masks of an instruction by its qualifying predicate and its action.
pub fn accesses_for(qp: Pr, action: &Action) -> InsnAccesses
    ensures { result ≡ accesses_of qp action.now }
{
    let named = named_accesses(qp, action);
    let mut summary = Summary::none();
    summary.add_all(named.as_slice());
    let placed = add_placed(&mut summary, qp, action);
    InsnAccesses {
        qp,
        action: *action,
        parts: Parts { named, placed },
        summary,
    }
}

/// Whether some access of the first may clash with some access of the second, if the first stands in an earlier slot
/// of the group. False only where `clash` names no rule for any two of them.
pub fn may_clash(first: &InsnAccesses, second: &InsnAccesses) -> bool
    ensures { result ≡ false → may_clash first.now second.now ≡ false }
{
    first.summary.barred.meets(&second.summary.made)
}

/// Whether an access may clash with some access of the second, if it is made in an earlier slot of the group. False only
/// where `clash` names no rule for it and any of them.
pub fn may_clash_with(first: &Access, second: &InsnAccesses) -> bool
    requires { IsNumberInRange first.now.resource }
    ensures { result ≡ false → may_clash (first.now ∷ []) second.now ≡ false }
{
    is_first(first.kind) && second.summary.made.has(first.resource)
}

//! The accesses of an instruction: those by name, and the set of those of predicates by place.

ghost use Rattle.std.specs.Prelude.{◌≡◌, ◌++◌, ◌∷◌, [], None};
ghost use Rattle.std.specs.List.{list_any};
ghost use Rattle.resource_sets.specs.declared.access.Resource.{Resource};
ghost use Rattle.resource_sets.specs.Clashes.{is_resource};
ghost use Rattle.resource_sets.specs.Rows.{listed};
ghost use Rattle.resource_sets.specs.Accesses.{placed_rows, rows_by_name};
ghost use Rattle.resource_sets.specs.Ranges.{IsNumberInRange, AreInRange};
ghost use Rattle.resource_sets.specs.ResourceSets.{has_resource};
ghost use Rattle.resource_sets.specs.AccessSets.{IsSetOf, placed_kind};

use crate::access::{Access, Kind};
use crate::insn_accesses::{frame_row, own_rows, placed_rows, qp_rows};
use crate::row::{push, push_all};
use crate::sets::ResourceSet;
use arrayvec::ArrayVec;
use ia_insn::Pr;
use ia_meaning::{Action, CallTarget, FetchSource};

/// Accesses of an instruction, of one kind and under one guard.
#[derive(Clone, Copy, Debug)]
pub struct AccessSet {
    /// What is accessed.
    pub resources: ResourceSet,
    /// How.
    pub kind: Kind,
    /// p0, or the qualifying predicate.
    pub guard: Pr,
}

/// How many accesses by name an instruction has at most.
pub const NAMED_LIMIT: usize = 11;

/// The accesses of an instruction: those by name, and the set of those of predicates by place, which is empty where there
/// are none.
#[derive(Drop)]
pub struct Parts {
    /// By name.
    pub named: ArrayVec<Access, NAMED_LIMIT>,
    /// By place.
    pub placed: AccessSet,
}

/// The resources of accesses.
pub(crate) fn resources_of(accesses: &[Access]) -> ResourceSet
    requires { AreInRange accesses.now }
    ensures { (q : Resource) → has_resource result q ≡ list_any (λ a. is_resource a.resource q) accesses.now }
{
    let mut resources = ResourceSet::empty();
    for n in 0..accesses.len() {
        resources.insert(accesses[n].resource);
    }
    resources
}

impl AccessSet {
    /// No access. It has the kind that clashes least.
    pub(crate) fn empty() -> AccessSet
        ensures { IsSetOf [] result }
    {
        AccessSet {
            resources: ResourceSet::empty(),
            kind: Kind::BranchRead,
            guard: Pr::of_field(0),
        }
    }

    /// The set of one access.
    pub fn of(access: &Access) -> AccessSet
        requires { IsNumberInRange access.now.resource }
        ensures { IsSetOf (access.now ∷ []) result }
    {
        let mut resources = ResourceSet::empty();
        resources.insert(access.resource);
        AccessSet {
            resources,
            kind: access.kind,
            guard: access.guard,
        }
    }
}

/// The accesses by name of an instruction by its qualifying predicate and its action.
pub(crate) fn named_accesses(qp: Pr, action: &Action) -> ArrayVec<Access, NAMED_LIMIT>
    ensures items { result.items ≡ listed qp (rows_by_name qp action.now) }
    ensures within { AreInRange result.items }
{
    let own = own_rows(action);
    let mut out = ArrayVec::new();
    push(&mut out, qp, frame_row(qp, action, own.as_slice()));
    push_all(&mut out, qp, &qp_rows(qp, action));
    push_all(&mut out, qp, own.as_slice());
    out
}

/// How an instruction of this action accesses predicates by place. None where it doesn't.
pub(crate) fn placed_kind(action: &Action) -> Option<Kind>
    ensures { result ≡ placed_kind action.now }
{
    match action {
        Action::Fetch {
            source: FetchSource::Predicates,
            ..
        } => Some(Kind::Read),
        Action::ToPredicates { .. } => Some(Kind::Write),
        Action::JumpIndirect { .. }
        | Action::Call {
            callee: CallTarget::Indirect(_),
            ..
        }
        | Action::Return { .. } => Some(Kind::BranchRead),
        _ => None,
    }
}

/// The accesses of predicates by place.
pub(crate) fn placed_accesses(qp: Pr, action: &Action) -> ArrayVec<Access, 63>
    ensures items { result.items ≡ listed qp (placed_rows action.now) }
    ensures within { AreInRange result.items }
{
    let mut out = ArrayVec::new();
    push_all(&mut out, qp, placed_rows(action).as_slice());
    out
}

//! Rows: accesses that are there or not.

ghost use Rattle.std.specs.Prelude.{◌≡◌, ◌+◌, ◌≤◌, ◌<◌, ◌++◌, ◌∷◌, [], length, true, false};
ghost use Rattle.arrayvec.specs.ArrayVec.{array_vec_len};
ghost use Rattle.resource_sets.specs.Rows.{gr, pr, always, access, listed};

use crate::access::{Access, Kind, Resource};
use arrayvec::ArrayVec;
use ia_insn::{Gr, Pr};

/// An access that is there or not.
#[derive(Clone, Copy, Debug, PartialEq, Eq)]
pub(crate) struct AccessRow {
    /// Whether it is there.
    pub there: bool,
    /// Whether it is made under the qualifying predicate, and else under p0.
    pub guarded: bool,
    /// What is accessed.
    pub resource: Resource,
    /// How.
    pub kind: Kind,
}

impl Default for AccessRow {
    ghost use Rattle.std.specs.Prelude.{◌≡◌, false};
    ghost use Rattle.resource_sets.specs.declared.access.Resource.TheVariants.{Cfm};
    ghost use Rattle.resource_sets.specs.declared.access.Kind.TheVariants.{Read};

    ghost is_default = { λ row. row ≡ record { there = false; guarded = false; resource = Cfm; kind = Read } };

    /// A read of the frame that isn't there.
    fn default() -> Self {
        AccessRow {
            there: false,
            guarded: false,
            resource: Resource::Cfm,
            kind: Kind::Read,
        }
    }
}

/// A general register under the qualifying predicate. r0 is no resource.
pub(crate) fn gr(r: Gr, kind: Kind) -> AccessRow
    ensures row { result ≡ gr r kind }
    ensures within { r < 128 }
{
    AccessRow {
        there: !r.is_zero(),
        guarded: true,
        resource: Resource::Gr(r.number()),
        kind,
    }
}

/// A predicate. p0 is no resource.
pub(crate) fn pr(guarded: bool, p: Pr, kind: Kind) -> AccessRow
    ensures row { result ≡ pr guarded p kind }
    ensures within { p < 64 }
{
    AccessRow {
        there: !p.is_zero(),
        guarded,
        resource: Resource::Pr(p.number()),
        kind,
    }
}

/// A resource that has no number that leaves it out, as r0 and p0 are left out.
pub(crate) fn always(guarded: bool, resource: Resource, kind: Kind) -> AccessRow
    ensures { result ≡ always guarded resource kind }
{
    AccessRow {
        there: true,
        guarded,
        resource,
        kind,
    }
}

impl AccessRow {
    /// The access of a row that is there.
    pub fn access(self, qp: Pr) -> Access
        ensures { result ≡ access qp self }
    {
        Access {
            resource: self.resource,
            kind: self.kind,
            guard: if self.guarded { qp } else { Pr::of_field(0) },
        }
    }
}

/// Appends a row's access, where it is there.
pub(crate) fn push<const N: usize>(out: &mut ArrayVec<Access, N>, qp: Pr, row: AccessRow)
    requires { array_vec_len out.old < N }
    ensures items { out.new.items ≡ out.old.items ++ listed qp (row ∷ []) }
    ensures len { array_vec_len out.new ≤ array_vec_len out.old + 1 }
{
    if row.there {
        out.push(row.access(qp));
    }
}

/// Appends the accesses of rows.
pub(crate) fn push_all<const N: usize>(out: &mut ArrayVec<Access, N>, qp: Pr, rows: &[AccessRow])
    requires { array_vec_len out.old + length rows.now ≤ N }
    ensures items { out.new.items ≡ out.old.items ++ listed qp rows.now }
    ensures len { array_vec_len out.new ≤ array_vec_len out.old + length rows.now }
{
    for n in 0..rows.len() {
        push(out, qp, rows[n]);
    }
}

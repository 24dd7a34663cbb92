//! Sets of resources.

ghost use Rattle.std.specs.Prelude.{◌≡◌, ◌||◌, ◌&&◌, ◌+◌, ◌^◌, ◌≤◌, ◌<◌, ◌++◌, ◌∷◌, [], false, filter, length, count_ones};
ghost use Rattle.arrayvec.specs.ArrayVec.{array_vec_len};
ghost use Rattle.resource_sets.specs.declared.access.Resource.{Resource};
ghost use Rattle.resource_sets.specs.declared.access.Resource.TheVariants as spec;
ghost use Rattle.resource_sets.specs.Clashes.{is_resource};
ghost use Rattle.resource_sets.specs.Ranges.{IsNumberInRange};
ghost use Rattle.resource_sets.specs.ResourceSets.{has_resource, numbered, others, resources_in};

use crate::access::Resource;
use arrayvec::ArrayVec;

/// How many resources there are: 128 general registers, 64 predicates, 8 branch registers and 5 that have no number.
pub const RESOURCE_COUNT: usize = 205;

/// A set of resources, a bit for each.
#[derive(Clone, Copy, Debug)]
pub struct ResourceSet {
    registers: u128,
    predicates: u64,
    branches: u8,
    unat: bool,
    pfs: bool,
    lc: bool,
    ec: bool,
    cfm: bool,
}

/// Appends a resource where the set has it.
fn push_if(out: &mut ArrayVec<Resource, RESOURCE_COUNT>, set: &ResourceSet, resource: Resource)
    requires within { IsNumberInRange resource }
    requires room { array_vec_len out.old < RESOURCE_COUNT }
    ensures items { out.new.items ≡ out.old.items ++ filter (has_resource set.now) (resource ∷ []) }
    ensures len { array_vec_len out.new ≤ array_vec_len out.old + 1 }
{
    if set.has(resource) {
        out.push(resource);
    }
}

/// Appends the general registers of the set.
fn push_registers(out: &mut ArrayVec<Resource, RESOURCE_COUNT>, set: &ResourceSet)
    requires { array_vec_len out.old ≡ 0 }
    ensures items { out.new.items ≡ out.old.items ++ filter (has_resource set.now) (numbered spec.Gr 128 0) }
    ensures len { array_vec_len out.new ≤ 128 }
{
    for r in 0..128 {
        push_if(out, set, Resource::Gr(r));
    }
}

/// Appends the predicates of the set.
fn push_predicates(out: &mut ArrayVec<Resource, RESOURCE_COUNT>, set: &ResourceSet)
    requires { array_vec_len out.old ≤ 128 }
    ensures items { out.new.items ≡ out.old.items ++ filter (has_resource set.now) (numbered spec.Pr 64 0) }
    ensures len { array_vec_len out.new ≤ 192 }
{
    for p in 0..64 {
        push_if(out, set, Resource::Pr(p));
    }
}

/// Appends the branch registers of the set.
fn push_branches(out: &mut ArrayVec<Resource, RESOURCE_COUNT>, set: &ResourceSet)
    requires { array_vec_len out.old ≤ 192 }
    ensures items { out.new.items ≡ out.old.items ++ filter (has_resource set.now) (numbered spec.Br 8 0) }
    ensures len { array_vec_len out.new ≤ 200 }
{
    for b in 0..8 {
        push_if(out, set, Resource::Br(b));
    }
}

/// Appends those resources of the set that have no number.
fn push_others(out: &mut ArrayVec<Resource, RESOURCE_COUNT>, set: &ResourceSet)
    requires { array_vec_len out.old ≤ 200 }
    ensures { out.new.items ≡ out.old.items ++ filter (has_resource set.now) others }
{
    push_if(out, set, Resource::Unat);
    push_if(out, set, Resource::Pfs);
    push_if(out, set, Resource::Lc);
    push_if(out, set, Resource::Ec);
    push_if(out, set, Resource::Cfm);
}

/// How many bits these words have. That the words are in the ranges of their types is said for the proof of `len`: a
/// parameter is known to be, and so the words of a set that are handed in are, by these clauses.
fn numbered_len(registers: u128, predicates: u64, branches: u8) -> u32
    ensures count { result ≡ count_ones registers + (count_ones predicates + count_ones branches) }
    ensures registers { registers < 2 ^ 128 }
    ensures predicates { predicates < 2 ^ 64 }
    ensures branches { branches < 2 ^ 8 }
{
    registers.count_ones() + (predicates.count_ones() + branches.count_ones())
}

impl ResourceSet {
    /// No resource.
    pub fn empty() -> ResourceSet
        ensures { (q : Resource) → has_resource result q ≡ false }
    {
        ResourceSet {
            registers: 0,
            predicates: 0,
            branches: 0,
            unat: false,
            pfs: false,
            lc: false,
            ec: false,
            cfm: false,
        }
    }

    /// Whether a resource is in the set.
    pub fn has(&self, resource: Resource) -> bool
        requires { IsNumberInRange resource }
        ensures { result ≡ has_resource self.now resource }
    {
        match resource {
            Resource::Gr(r) => (self.registers >> r) & 1 == 1,
            Resource::Pr(p) => (self.predicates >> p) & 1 == 1,
            Resource::Br(b) => (self.branches >> b) & 1 == 1,
            Resource::Unat => self.unat,
            Resource::Pfs => self.pfs,
            Resource::Lc => self.lc,
            Resource::Ec => self.ec,
            Resource::Cfm => self.cfm,
        }
    }

    /// Adds a resource.
    pub fn insert(&mut self, resource: Resource)
        requires { IsNumberInRange resource }
        ensures { (q : Resource) → has_resource self.new q ≡ (has_resource self.old q || is_resource resource q) }
    {
        match resource {
            Resource::Gr(r) => self.registers |= 1 << r,
            Resource::Pr(p) => self.predicates |= 1 << p,
            Resource::Br(b) => self.branches |= 1 << b,
            Resource::Unat => self.unat = true,
            Resource::Pfs => self.pfs = true,
            Resource::Lc => self.lc = true,
            Resource::Ec => self.ec = true,
            Resource::Cfm => self.cfm = true,
        }
    }

    /// Adds all resources of another set.
    pub fn insert_all(&mut self, other: &ResourceSet)
        ensures { (q : Resource) → has_resource self.new q ≡ (has_resource self.old q || has_resource other.now q) }
    {
        self.registers |= other.registers;
        self.predicates |= other.predicates;
        self.branches |= other.branches;
        self.unat |= other.unat;
        self.pfs |= other.pfs;
        self.lc |= other.lc;
        self.ec |= other.ec;
        self.cfm |= other.cfm;
    }

    /// Adds a resource, where the test holds.
    pub(crate) fn insert_if(&mut self, on: bool, resource: Resource)
        requires { IsNumberInRange resource }
        ensures { (q : Resource) → has_resource self.new q ≡ (has_resource self.old q || (on && is_resource resource q)) }
    {
        if on {
            self.insert(resource);
        }
    }

    /// Whether some resource is in both sets.
    pub fn meets(&self, other: &ResourceSet) -> bool
        ensures { result ≡ false → (q : Resource) → (has_resource self.now q && has_resource other.now q) ≡ false }
    {
        (self.registers & other.registers != 0)
            | (self.predicates & other.predicates != 0)
            | (self.branches & other.branches != 0)
            | (self.unat & other.unat)
            | (self.pfs & other.pfs)
            | (self.lc & other.lc)
            | (self.ec & other.ec)
            | (self.cfm & other.cfm)
    }

    /// The resources that are in both sets.
    pub fn intersection(&self, other: &ResourceSet) -> ResourceSet
        ensures { (q : Resource) → has_resource result q ≡ (has_resource self.now q && has_resource other.now q) }
    {
        ResourceSet {
            registers: self.registers & other.registers,
            predicates: self.predicates & other.predicates,
            branches: self.branches & other.branches,
            unat: self.unat & other.unat,
            pfs: self.pfs & other.pfs,
            lc: self.lc & other.lc,
            ec: self.ec & other.ec,
            cfm: self.cfm & other.cfm,
        }
    }

    /// How many resources the set has.
    pub fn len(&self) -> usize
        ensures count { result ≡ length (resources_in self.now) }
        ensures most { result ≤ RESOURCE_COUNT }
    {
        let others = u32::from(self.unat)
            + u32::from(self.pfs)
            + u32::from(self.lc)
            + u32::from(self.ec)
            + u32::from(self.cfm);
        (numbered_len(self.registers, self.predicates, self.branches) + others) as usize
    }

    /// The resources of the set, in order.
    #[tactic(auto, unfolding(crate::specs::ResourceSets::resources_in))]
    pub fn resources(&self) -> ArrayVec<Resource, RESOURCE_COUNT>
        ensures { result.items ≡ resources_in self.now }
    {
        let mut out = ArrayVec::new();
        push_registers(&mut out, self);
        push_predicates(&mut out, self);
        push_branches(&mut out, self);
        push_others(&mut out, self);
        out
    }
}

//! What two slots of one group break, as sets of resources.

ghost use Rattle.std.specs.Prelude.{◌≡◌, true, false, slice_get};
ghost use Rattle.std.specs.Bool.{OnTrue, OnFalse};
ghost use Rattle.resource_sets.specs.declared.access.Resource.TheVariants as resource;
ghost use Rattle.resource_sets.specs.ResourceSets.{has_resource};
ghost use Rattle.order_laws.specs.declared.violation.Violation.{Violation};
ghost use Rattle.group_checker.specs.Broken.{is_broken, violations_by, violations_of, Gains};

use ia_program::Place;
use order_laws::Violation;
use resource_sets::{Resource, ResourceSet, Rule};

/// Of each rule the resources on which two slots break it.
#[derive(Clone, Copy)]
pub(crate) struct Broken {
    /// Read after write.
    pub raw: ResourceSet,
    /// Write after write.
    pub waw: ResourceSet,
    /// A loop branch writes p63.
    pub war63: ResourceSet,
    /// An `alloc` isn't first.
    pub alloc_first: ResourceSet,
    /// A `clrrrb` isn't last.
    pub clear_last: ResourceSet,
}

/// The violation by two slots of a rule on the first resource of a set. None where the set is empty.
fn first_by(first: Place, second: Place, rule: Rule, resources: &ResourceSet) -> Option<Violation>
    ensures { result ≡ slice_get (violations_by first second rule resources.now) 0 }
{
    if resources.len() == 0 {
        return None;
    }
    let found = resources.resources();
    let resource = *found.as_slice().first()?;
    Some(Violation {
        second,
        first,
        rule,
        resource,
    })
}

impl Broken {
    /// No rule is broken.
    pub fn nothing() -> Broken
        ensures { (v : Violation) → is_broken result v ≡ false }
    {
        Broken {
            raw: ResourceSet::empty(),
            waw: ResourceSet::empty(),
            war63: ResourceSet::empty(),
            alloc_first: ResourceSet::empty(),
            clear_last: ResourceSet::empty(),
        }
    }

    /// Notes that a rule is broken on these resources.
    pub fn add(&mut self, rule: Rule, resources: &ResourceSet)
        ensures { Gains self.old self.new (λ v. (v.rule ≡ rule) × (has_resource resources.now v.resource ≡ true)) }
    {
        match rule {
            Rule::Raw => self.raw.insert_all(resources),
            Rule::Waw => self.waw.insert_all(resources),
            Rule::War63 => self.war63.insert_all(resources),
            Rule::AllocFirst => self.alloc_first.insert_all(resources),
            Rule::ClearLast => self.clear_last.insert_all(resources),
        }
    }

    /// Notes that a rule is broken on the frame, where the test holds.
    pub fn add_frame_if(&mut self, holds: bool, rule: Rule)
        ensures { Gains self.old self.new (λ v. (holds ≡ true) × (v.rule ≡ rule) × (v.resource ≡ resource.Cfm)) }
    {
        if holds {
            let mut frame = ResourceSet::empty();
            frame.insert(Resource::Cfm);
            self.add(rule, &frame);
        }
    }

    /// Whether no rule is broken.
    pub fn is_nothing(&self) -> bool
        ensures nothing { OnTrue result ((v : Violation) → is_broken self.now v ≡ false) }
        ensures something { OnFalse result ((v : Violation) × (is_broken self.now v ≡ true)) }
    {
        let found = self.raw.len()
            + self.waw.len()
            + self.war63.len()
            + self.alloc_first.len()
            + self.clear_last.len();
        found == 0
    }

    /// The first of the violations that this is of two slots. None where no rule is broken.
    pub fn first(&self, first: Place, second: Place) -> Option<Violation>
        ensures { result ≡ slice_get (violations_of first second self.now) 0 }
    {
        first_by(first, second, Rule::Raw, &self.raw)
            .or(first_by(first, second, Rule::Waw, &self.waw))
            .or(first_by(first, second, Rule::War63, &self.war63))
            .or(first_by(first, second, Rule::AllocFirst, &self.alloc_first))
            .or(first_by(first, second, Rule::ClearLast, &self.clear_last))
    }
}

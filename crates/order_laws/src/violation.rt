//! Violations.

use ia_program::Place;
use resource_sets::{Resource, Rule};

/// Two slots of one group that break a rule on a resource, on some walk (volume 1, chapter 3, instruction
/// dependencies). Violations are ordered by the second slot, the first, the rule and the resource.
#[derive(Clone, Copy, Debug, PartialEq, Eq, PartialOrd, Ord)]
pub struct Violation {
    /// The place of the later slot.
    pub second: Place,
    /// The place of the earlier slot.
    pub first: Place,
    /// The rule.
    pub rule: Rule,
    /// The resource. Of `alloc` and `clrrrb` it is the frame marker.
    pub resource: Resource,
}

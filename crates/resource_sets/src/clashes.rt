//! Clashes.

ghost use Rattle.std.specs.Prelude.{◌≡◌};
ghost use Rattle.resource_sets.specs.Clashes.{is_written, is_write, is_read, is_raw, is_waw, is_war63, clash_of, clash};

use crate::access::{Access, Kind};

/// Why two slots of one group clash, in the order in which they are printed.
#[derive(Clone, Copy, Debug, PartialEq, Eq, PartialOrd, Ord)]
pub enum Rule {
    /// Read after write.
    Raw,
    /// Write after write.
    Waw,
    /// p63 is written by a loop branch that rotates, after an instruction of a B slot that reads it.
    War63,
    /// An `alloc` isn't first in its group.
    AllocFirst,
    /// A `clrrrb` isn't last in its group.
    ClearLast,
}

/// Whether a later slot of the group would see what the access writes.
fn is_written(kind: Kind) -> bool
    ensures { result ≡ is_written kind }
{
    matches!(
        kind,
        Kind::Write | Kind::LoopWrite | Kind::OrWrite | Kind::AndWrite | Kind::Spill
    )
}

/// Whether the access writes.
fn is_write(kind: Kind) -> bool
    ensures { result ≡ is_write kind }
{
    kind == Kind::AllocWrite || is_written(kind)
}

/// Whether the access reads what earlier slots of the group might have written.
fn is_read(kind: Kind) -> bool
    ensures { result ≡ is_read kind }
{
    matches!(kind, Kind::Read | Kind::Fill)
}

/// Whether the second reads what the first writes. A fill after a spill comes in program order.
fn is_raw(first: Kind, second: Kind) -> bool
    ensures { result ≡ is_raw first second }
{
    match (first, second) {
        (Kind::Spill, Kind::Fill) => false,
        _ => is_written(first) && is_read(second),
    }
}

/// Whether both write, and may not come in both orders.
fn is_waw(first: Kind, second: Kind) -> bool
    ensures { result ≡ is_waw first second }
{
    match (first, second) {
        (Kind::OrWrite, Kind::OrWrite)
        | (Kind::AndWrite, Kind::AndWrite)
        | (Kind::Spill, Kind::Spill) => false,
        _ => is_write(first) && is_write(second),
    }
}

/// Whether a loop branch that rotates writes p63 after an instruction of a B slot that reads it.
fn is_war63(first: Kind, second: Kind) -> bool
    ensures { result ≡ is_war63 first second }
{
    first == Kind::BranchRead && second == Kind::LoopWrite
}

/// Why an access of the first kind clashes with a later one of the second, of one resource; None exactly where no rule
/// is broken.
#[tactic(auto, unfolding(crate::specs::Clashes::clash_of))]
pub fn clash_of(first: Kind, second: Kind) -> Option<Rule>
    ensures { result ≡ clash_of first second }
{
    if is_raw(first, second) {
        Some(Rule::Raw)
    } else if is_waw(first, second) {
        Some(Rule::Waw)
    } else if is_war63(first, second) {
        Some(Rule::War63)
    } else {
        None
    }
}

/// Why two accesses of one group clash, the first in an earlier slot than the second; None exactly where no
/// rule is broken. AllocFirst and ClearLast are rules on slots, and never the answer.
pub fn clash(first: &Access, second: &Access) -> Option<Rule>
    ensures { result ≡ clash first.now second.now }
{
    if first.resource == second.resource {
        clash_of(first.kind, second.kind)
    } else {
        None
    }
}

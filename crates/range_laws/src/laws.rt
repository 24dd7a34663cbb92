//! The law that ranges decide which instructions there are. It does nothing.

ghost use Rattle.range_laws.specs.Laws.{ListedIsInRange};

/// The law that an instruction of registers that there are is listed exactly where its operands are in their ranges, and
/// its qualifying predicate is one that the operation may have (volume 3, chapter 4). It does nothing.
pub fn listed_iff_in_range()
    ensures { ListedIsInRange }
{}

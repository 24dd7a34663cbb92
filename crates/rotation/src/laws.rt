//! Laws of the numbers behind rotation. They do nothing.

ghost use Rattle.rotation.specs.Laws.{DifferentIndexes, DifferentRotatingIndexes, DifferentPredicateIndexes, IndexesWithin, RotatingIndexesWithin};

/// In one frame different registers have different numbers, those of the rotating part among them.
pub fn different_indexes()
    ensures all { DifferentIndexes }
    ensures rotating { DifferentRotatingIndexes }
{}

/// Different predicates have different numbers.
pub fn different_predicate_indexes()
    ensures { DifferentPredicateIndexes }
{}

/// A register of the frame stands within it, and one of its rotating part within that part.
pub fn indexes_within()
    ensures frame { IndexesWithin }
    ensures rotating { RotatingIndexesWithin }
{}

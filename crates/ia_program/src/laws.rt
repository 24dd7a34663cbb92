//! A law of places and their numbers. It does nothing.

ghost use Rattle.ia_program.specs.Places.{NumbersRise};

use crate::place::Place;

/// The law that of two places, with slots 0 to 2, the one before has the lower number. It does
/// nothing.
pub fn numbers_rise(first: Place, second: Place)
    ensures { NumbersRise first second }
{}

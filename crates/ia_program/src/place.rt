//! Places of slots.

ghost use Rattle.std.specs.Prelude.{◌↔◌, IsTrue, Some};
ghost use Rattle.ia_program.specs.Places.{IsBefore};
ghost use Rattle.ia_program.specs.Texts.{place_text};

use std::fmt;

/// The place of a slot in a program: the number of its bundle, from 0, and its slot, 0 to 2. Places
/// are ordered by bundle, then by slot.
#[derive(Clone, Copy, Debug, Default, PartialEq, Eq, PartialOrd, Ord)]
pub struct Place {
    /// The number of the bundle, from 0.
    pub bundle: u32,
    /// The slot, 0 to 2.
    pub slot: u8,
}

impl Place {
    /// The first place of a program.
    pub const FIRST: Place = Place { bundle: 0, slot: 0 };

    /// Whether this place comes before another. It is the derived order, `<`.
    pub fn is_before(&self, other: &Place) -> bool
        ensures { IsTrue result ↔ IsBefore self.now other.now }
    {
        self < other
    }
}

impl fmt::Display for Place {
    ghost output = { λ p. Some (place_text p) };

    /// The bundle, a dot and the slot, in decimal.
    fn fmt<W: fmt::Write>(&self, f: &mut fmt::Formatter<W>) -> fmt::Result {
        let bundle = self.bundle;
        let slot = self.slot;
        write!(f, "{bundle}.{slot}")
    }
}

//! Laws of loads and stores, and of the ALAT. They do nothing.

ghost use Rattle.nat_alat.specs.Laws.{StoredIsLoaded, OthersStay, EnteredIsHit, InvalidatedIsGone, TouchedIsGone};

/// A load gives the low bytes of what was stored there.
pub fn stored_is_loaded()
    ensures { StoredIsLoaded }
{}

/// A store leaves the other bytes and their number as they were.
pub fn others_stay()
    ensures { OthersStay }
{}

/// An entry that was entered in the ALAT is hit, and no more than its limit are there.
pub fn entered_is_hit()
    ensures { EnteredIsHit }
{}

/// A register that the ALAT has invalidated has no entry, and each other has one if it had one.
pub fn invalidated_is_gone()
    ensures { InvalidatedIsGone }
{}

/// After a store an entry of the ALAT is hit if it was hit before and the store has none of its bytes.
pub fn touched_is_gone()
    ensures { TouchedIsGone }
{}

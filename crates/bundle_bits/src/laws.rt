//! Laws of the numbers of bundles. They do nothing.

ghost use Rattle.bundle_bits.specs.Laws.{OneRaw, OneBytes, SomeRaw};

/// The law that a number is that of at most one bundle. It does nothing.
pub fn one_raw()
    ensures { OneRaw }
{}

/// The law that a number is that of at most one list of sixteen bytes. It does nothing.
pub fn one_bytes()
    ensures { OneBytes }
{}

/// The law that the number of any sixteen bytes is that of a bundle. It does nothing.
pub fn some_raw()
    ensures { SomeRaw }
{}

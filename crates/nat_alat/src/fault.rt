//! The faults of an access.

/// Why an access is refused. They are looked for in this order.
#[derive(Clone, Copy, Debug, PartialEq, Eq)]
pub enum MemFault {
    /// The address isn't a multiple of the access's size.
    Unaligned,
    /// The access reaches past the data.
    BadAddress,
}

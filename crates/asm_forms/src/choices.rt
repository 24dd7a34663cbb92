//! The sizes of numbers of data.

/// How many bytes a number of a line of data has.
#[derive(Clone, Copy)]
pub enum AccessSize {
    /// 1 byte.
    One,
    /// 2 bytes.
    Two,
    /// 4 bytes.
    Four,
    /// 8 bytes.
    Eight,
}

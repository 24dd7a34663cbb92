//! Where bundles and data bytes stand in the memory of a program. The manual leaves that to the loader;
//! here it is fixed, so that a label means one number.

ghost use Rattle.std.specs.Prelude.{◌≡◌};
ghost use Rattle.ia_program.specs.Addresses.{bundle_address, data_address};

/// The address of bundle 0.
pub const BUNDLE_BASE: u64 = 0x1_0000;

/// The address of the first data byte.
pub const DATA_BASE: u64 = 0x10_0000;

/// The address of a bundle, or of the end of the program: a bundle has 16 bytes.
pub fn bundle_address(bundle: u32) -> u64
    ensures { result ≡ bundle_address bundle }
{
    BUNDLE_BASE + 16 * u64::from(bundle)
}

/// The address of a byte of data, or of the end of the data, by how many bytes stand before it.
pub fn data_address(at: u32) -> u64
    ensures { result ≡ data_address at }
{
    DATA_BASE + u64::from(at)
}

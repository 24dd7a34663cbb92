//! Numbers in four bytes each, the lowest byte first.

ghost use Rattle.std.specs.Prelude.{◌≡◌, ◌+◌, ◌/◌, ◌≤◌, ◌++◌, length, IfOk, OnOk};
ghost use Rattle.image_form.specs.Images.{number_bytes};
ghost use Rattle.image_form.specs.Parts.{number_at, numbers};

use byteorder::{ByteOrder, LittleEndian};
use std::alloc::{AllocError, Global};

/// The number in the four bytes from this position on.
pub(crate) fn number_at(bytes: &[u8], at: usize) -> u32
    requires { at + 4 ≤ length bytes.now }
    ensures { result ≡ number_at bytes.now at }
{
    LittleEndian::read_u32(&bytes[at..])
}

/// The numbers that bytes are, one after the other.
#[tactic(auto, using(crate::proofs::NumberBytes::one_more_read))]
pub(crate) fn read_numbers(alloc: Global, bytes: &[u8]) -> Result<Vec<u32>, AllocError>
    ensures { IfOk result (λ read. read.items ≡ numbers (length bytes.now / 4) bytes.now) }
{
    let count = bytes.len() / 4;
    let mut read = Vec::with_capacity(alloc, count)?;
    for n in 0..count {
        read.push(number_at(bytes, 4 * n))?;
    }
    Ok(read)
}

/// Appends numbers, one after the other.
#[tactic(auto, using(crate::proofs::NumberBytes::one_more_written))]
pub(crate) fn push_numbers(bytes: &mut Vec<u8>, numbers: &[u32]) -> Result<(), AllocError>
    ensures { OnOk result (bytes.new.items ≡ bytes.old.items ++ number_bytes numbers.now) }
{
    for number in numbers {
        bytes.extend_from_slice(&number.to_le_bytes())?;
    }
    Ok(())
}

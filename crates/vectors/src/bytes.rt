//! The bytes that a row writes.

use std::alloc::{AllocError, Global};

/// The bytes that parts with `~` between them write, one after the other, or None where one writes none.
pub fn bytes_of(alloc: Global, written: &str) -> Option<Vec<u8>> {
    let mut bytes = Vec::new(alloc);
    for part in written.split('~') {
        add_part(alloc, &mut bytes, part)?;
    }
    Some(bytes)
}

/// Adds a part: a text behind `"`, or digits.
fn add_part(alloc: Global, bytes: &mut Vec<u8>, part: &str) -> Option<()> {
    match part.strip_prefix('"') {
        Some(text) => add_text(bytes, text.as_bytes()).ok(),
        None => add_digits(alloc, bytes, part),
    }
}

/// Adds a text, with a line feed in place of each `\`.
fn add_text(bytes: &mut Vec<u8>, text: &[u8]) -> Result<(), AllocError> {
    for byte in text {
        bytes.push(if *byte == b'\\' { b'\n' } else { *byte })?;
    }
    Ok(())
}

/// Adds what hexadecimal digits write, or so many times that, as `4096*00ff`.
fn add_digits(alloc: Global, bytes: &mut Vec<u8>, part: &str) -> Option<()> {
    let (count, digits) = part.split_once('*').unwrap_or(("1", part));
    let once = hex::decode(alloc, digits).ok()?;
    add_times(bytes, count.parse().ok()?, &once).ok()
}

/// Adds so many times the same bytes.
fn add_times(bytes: &mut Vec<u8>, count: u32, once: &[u8]) -> Result<(), AllocError> {
    for _ in 0..count {
        bytes.extend_from_slice(once)?;
    }
    Ok(())
}

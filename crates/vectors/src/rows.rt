//! A row of the input.

use crate::bundles::is_bundle;
use crate::calls::is_answered;
use crate::lexemes::{is_cut, is_token_row};
use crate::lines::{has_fault, is_line};
use crate::slots::is_slot;
use std::alloc::{AllocError, Global};

/// Whether a row is right: one behind `not` where what stands there isn't.
pub fn is_right(alloc: Global, row: &str) -> Result<bool, AllocError> {
    match row.strip_prefix("not ") {
        Some(wrong) => Ok(!holds(alloc, wrong)?),
        None => holds(alloc, row),
    }
}

/// Whether what a row says is so. Its first word tells of what it speaks.
fn holds(alloc: Global, row: &str) -> Result<bool, AllocError> {
    let Some((kind, rest)) = row.split_once(' ') else {
        return Ok(false);
    };
    let (digits, said) = rest.split_once(' ').unwrap_or((rest, ""));
    match kind.as_bytes() {
        b"#" => Ok(true),
        b"bundle" => is_bundle(alloc, digits, said),
        b"slot" => Ok(is_slot(digits, said)),
        b"line" => Ok(is_line(rest)),
        b"words" => Ok(is_cut(rest)),
        b"token" => is_token_row(alloc, rest),
        b"call" => Ok(is_answered(alloc, rest)),
        _ => Ok(has_fault(rest, kind)),
    }
}

//! `build`, `show`, `list`, `wrap` and `lift`: a program is written in another form.

ghost use Rattle.std.specs.Prelude.{◌≤◌, length, IfOk};
ghost use Rattle.image_form.specs.Images.{IsImage, Written};
ghost use Rattle.image_form.specs.declared.version.Version.TheVariants.{Two};
ghost use Rattle.asm_build.specs.Listing.{IsListing};
ghost use Rattle.ia64_top.specs.declared.limits.TheConstants.{INPUT_LIMIT};
ghost use Rattle.ia64_top.specs.Readings.{as_image, as_bundles, as_text};
ghost use Rattle.ia64_top.specs.Output.{IsCanonical, IsMadeOutput};

use crate::answer::{Answer, refuse, take_image, take_text};
use crate::status::Status;
use asm_build::{canonical_texts_are_read_back, disassemble, list_of};
use image_form::{bundles_of, wrap_raw, write_image, write_image_2_of, write_image_of};
use std::alloc::{AllocError, Global};

/// The answer of `build` to an input within the limit.
pub(crate) fn build_input(alloc: Global, input: &[u8]) -> Result<Answer, AllocError>
    requires { length input.now ≤ INPUT_LIMIT }
    ensures { IfOk result (λ answer. IsMadeOutput as_text Written input.now answer.bytes.items answer.status) }
{
    match take_text(alloc, input)? {
        Ok(program) => Ok(Answer {
            bytes: write_image(alloc, &program)?,
            status: Status::Done,
        }),
        Err(answer) => Ok(answer),
    }
}

/// The answer of `show` to an input within the limit.
pub(crate) fn show_input(alloc: Global, input: &[u8]) -> Result<Answer, AllocError>
    ensures { IfOk result (λ answer. IsMadeOutput as_image IsCanonical input.now answer.bytes.items answer.status) }
{
    canonical_texts_are_read_back();
    match take_image(alloc, input)? {
        Ok(program) => Ok(Answer {
            bytes: disassemble(alloc, &program)?,
            status: Status::Done,
        }),
        Err(answer) => Ok(answer),
    }
}

/// The answer of `list` to an input within the limit.
pub(crate) fn list_input(alloc: Global, input: &[u8]) -> Result<Answer, AllocError>
    ensures { IfOk result (λ answer. IsMadeOutput as_image IsListing input.now answer.bytes.items answer.status) }
{
    match take_image(alloc, input)? {
        Ok(program) => Ok(Answer {
            bytes: list_of(alloc, &program, bundles_of(input))?,
            status: Status::Done,
        }),
        Err(answer) => Ok(answer),
    }
}

/// The answer of `wrap` to an input within the limit.
pub(crate) fn wrap_input(alloc: Global, input: &[u8]) -> Result<Answer, AllocError>
    ensures { IfOk result (λ answer. IsMadeOutput as_bundles Written input.now answer.bytes.items answer.status) }
{
    match wrap_raw(alloc, input) {
        Ok(program) => Ok(Answer {
            bytes: write_image_of(alloc, &program, input)?,
            status: Status::Done,
        }),
        Err(fault) => refuse(alloc, fault),
    }
}

/// The answer of `lift` to an input within the limit.
pub(crate) fn lift_input(alloc: Global, input: &[u8]) -> Result<Answer, AllocError>
    ensures { IfOk result (λ answer. IsMadeOutput as_image (IsImage Two) input.now answer.bytes.items answer.status) }
{
    match take_image(alloc, input)? {
        Ok(program) => Ok(Answer {
            bytes: write_image_2_of(alloc, &program, bundles_of(input))?,
            status: Status::Done,
        }),
        Err(answer) => Ok(answer),
    }
}

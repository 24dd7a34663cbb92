//! Writing images.

ghost use Rattle.std.specs.Prelude.{length, IsTrue, IfOk};
ghost use Rattle.image_form.specs.declared.version.Version.TheVariants.{Two};
ghost use Rattle.image_form.specs.Images.{has_room, AreSpelled, IsImage, Written};

use crate::bundles::spell_bundles;
use crate::head::Head;
use crate::numbers::push_numbers;
use crate::relations::push_relations;
use crate::version::Version;
use ia_program::Program;
use std::alloc::{AllocError, Global};

/// The image of a program, whose bundles have these bytes, in a version that has room for it.
fn image_as(
    alloc: Global,
    version: Version,
    program: &Program,
    bundles: &[u8],
) -> Result<Vec<u8>, AllocError>
    requires room { IsTrue (has_room version (length program.now.bundles) (length program.now.relations)) }
    requires spelled { AreSpelled program.now.bundles bundles.now }
    ensures { IfOk result (λ bytes. IsImage version program.now bytes.items) }
{
    program.is_program();
    let head = Head::of(version, program);
    let mut bytes = Vec::with_capacity(alloc, head.image_len())?;
    head.push(&mut bytes)?;
    push_numbers(&mut bytes, program.entries())?;
    push_relations(&mut bytes, program.relations())?;
    bytes.extend_from_slice(bundles)?;
    bytes.extend_from_slice(program.data())?;
    Ok(bytes)
}

/// The image of a program: the way back from [`read_image`](crate::read_image). It is of version 1
/// where that has room for the program, and else of version 2.
///
/// # Errors
///
/// Only want of memory.
pub fn write_image(alloc: Global, program: &Program) -> Result<Vec<u8>, AllocError>
    // The bytes are its image in the version in which it is written, and it has no other in that.
    ensures { IfOk result (λ bytes. Written program.now bytes.items) }
{
    program.is_program();
    write_image_of(alloc, program, &spell_bundles(alloc, program.bundles())?)
}

/// The image of a program as [`write_image`] gives it, where the bytes of its bundles are known. No
/// bundle is encoded.
///
/// # Errors
///
/// Only want of memory.
pub fn write_image_of(
    alloc: Global,
    program: &Program,
    bundles: &[u8],
) -> Result<Vec<u8>, AllocError>
    requires { AreSpelled program.now.bundles bundles.now }
    ensures { IfOk result (λ bytes. Written program.now bytes.items) }
{
    program.is_program();
    if Version::One.has_room(program.bundles().len(), program.relations().len()) {
        image_as(alloc, Version::One, program, bundles)
    } else {
        image_as(alloc, Version::Two, program, bundles)
    }
}

/// The image of version 2 of a program, whether or not it has relations.
///
/// # Errors
///
/// Only want of memory.
pub fn write_image_2(alloc: Global, program: &Program) -> Result<Vec<u8>, AllocError>
    // The bytes are its image of version 2, and it has no other of that version.
    ensures { IfOk result (λ bytes. IsImage Two program.now bytes.items) }
{
    program.is_program();
    write_image_2_of(alloc, program, &spell_bundles(alloc, program.bundles())?)
}

/// The image of version 2 of a program, where the bytes of its bundles are known. No bundle is encoded.
///
/// # Errors
///
/// Only want of memory.
pub fn write_image_2_of(
    alloc: Global,
    program: &Program,
    bundles: &[u8],
) -> Result<Vec<u8>, AllocError>
    requires { AreSpelled program.now.bundles bundles.now }
    ensures { IfOk result (λ bytes. IsImage Two program.now bytes.items) }
{
    program.is_program();
    image_as(alloc, Version::Two, program, bundles)
}

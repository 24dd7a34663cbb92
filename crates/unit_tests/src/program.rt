//! A program of a text.

use asm_build::assemble;
use ia_program::Program;
use std::alloc::Global;
use std::process::Abort;
use std::test::Fail;

/// The program that a text says.
pub fn program_of(rt: &impl Abort, alloc: Global, text: &str) -> Result<Program, Fail> {
    assert!(rt; text.len() < 1000);
    Ok(assemble(alloc, text.as_bytes())?)
}

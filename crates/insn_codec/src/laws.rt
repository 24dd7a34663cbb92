//! The laws of bundles and their bytes.

ghost use Rattle.insn_codec.specs.Laws.{OneInstructionOfUnit, OneWordOfUnit, OneBundle, OneSpelling, OneFault, NoFaultWhereSpelled, FaultWhereNoneSpelled, BundleOrFault};

use crate::bundle::decode_bundle;
use bundle_bits::{one_bytes, one_raw, some_raw};
use formats_a::FamilyA;
use formats_b::{FamilyB, FamilyF, one_instruction_x, one_long_word};
use formats_i::FamilyI;
use formats_m::FamilyM;
use insn_rows::Family;

/// The law that a word is that of at most one instruction of a unit. It does nothing.
fn one_instruction()
    ensures { OneInstructionOfUnit }
{
    FamilyA::words_are_from();
    FamilyM::words_are_below();
    FamilyI::words_are_below();
    FamilyA::one_instruction();
    FamilyM::one_instruction();
    FamilyI::one_instruction();
    FamilyF::one_instruction();
    FamilyB::one_instruction();
}

/// The law that an instruction has at most one word of a unit. It does nothing.
fn one_word()
    ensures { OneWordOfUnit }
{
    FamilyA::one_word();
    FamilyM::one_word();
    FamilyI::one_word();
    FamilyF::one_word();
    FamilyB::one_word();
}

/// The law that bytes are those of at most one bundle. It does nothing.
pub fn one_bundle()
    ensures { OneBundle }
{
    one_raw();
    one_instruction();
    one_instruction_x();
}

/// The law that a bundle has at most one spelling. It does nothing.
pub fn one_spelling()
    ensures { OneSpelling }
{
    one_bytes();
    one_word();
    one_long_word();
}

/// The law that bytes have at most one first fault. It does nothing.
pub fn one_fault()
    ensures { OneFault }
{
    one_raw();
}

/// The law that the bytes of a bundle have no fault. It does nothing.
pub fn no_fault_where_spelled()
    ensures { NoFaultWhereSpelled }
{
    one_raw();
}

/// The law that sixteen bytes that are those of no bundle have a fault. It does nothing.
pub fn fault_where_none_spelled()
    ensures { FaultWhereNoneSpelled }
{
    some_raw();
}

/// The law that sixteen bytes are those of a bundle or have a fault. It decodes them to find which.
pub fn bundle_or_fault(bytes: &[u8; 16])
    ensures { BundleOrFault bytes.now }
{
    let _answer = decode_bundle(bytes);
}

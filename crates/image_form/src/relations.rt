//! Declared relations in eight bytes each: the bundle in four, the lowest first, the two predicates,
//! and two that are zero.

ghost use Rattle.std.specs.Prelude.{◌≡◌, ◌+◌, ◌/◌, ◌≤◌, ◌<◌, ◌^◌, ◌++◌, ◌↔◌, length, IsTrue, IfOk, OnOk, MatchOption};
ghost use Rattle.image_form.specs.Images.{written_relations};
ghost use Rattle.image_form.specs.Parts.{relation_in, relations_in, IsPadded, ArePadded, IsFirstUnpadded};

use crate::numbers::number_at;
use ia_program::Relation;
use std::alloc::{AllocError, Global};

/// How many bytes a relation has.
const RELATION_LEN: usize = 8;

/// The relation in the eight bytes from a place on, whatever the last two are.
fn relation_in(bytes: &[u8], at: usize) -> Relation
    requires { at + 8 ≤ length bytes.now }
    ensures { result ≡ relation_in bytes.now at }
{
    Relation {
        bundle: number_at(bytes, at),
        p: bytes[at + 4],
        q: bytes[at + 5],
    }
}

/// The relations that bytes are, one after the other.
#[tactic(auto, using(crate::proofs::RelationBytes::one_more_read))]
pub(crate) fn read_relations(alloc: Global, bytes: &[u8]) -> Result<Vec<Relation>, AllocError>
    ensures { IfOk result (λ read. read.items ≡ relations_in (length bytes.now / 8) bytes.now) }
{
    let count = bytes.len() / RELATION_LEN;
    let mut read = Vec::with_capacity(alloc, count)?;
    for n in 0..count {
        read.push(relation_in(bytes, RELATION_LEN * n))?;
    }
    Ok(read)
}

/// Whether the last two bytes of the n-th relation are zero.
fn is_padded(bytes: &[u8], n: usize) -> bool
    requires { n < length bytes.now / 8 }
    ensures { IsTrue result ↔ IsPadded bytes.now n }
{
    bytes[RELATION_LEN * n + 6] == 0 && bytes[RELATION_LEN * n + 7] == 0
}

/// The number of the first relation whose last two bytes aren't zero. None exactly where there is none.
pub(crate) fn unpadded_relation(bytes: &[u8]) -> Option<u32>
    requires { length bytes.now < 2 ^ 32 }
    ensures { MatchOption result (ArePadded (length bytes.now / 8) bytes.now) (λ n. IsFirstUnpadded (length bytes.now / 8) bytes.now n) }
{
    for n in 0..bytes.len() / RELATION_LEN {
        if !is_padded(bytes, n) {
            return Some(n as u32);
        }
    }
    None
}

/// Appends relations, one after the other.
#[tactic(auto, using(crate::proofs::RelationBytes::one_more_written))]
pub(crate) fn push_relations(bytes: &mut Vec<u8>, relations: &[Relation]) -> Result<(), AllocError>
    ensures { OnOk result (bytes.new.items ≡ bytes.old.items ++ written_relations relations.now) }
{
    for relation in relations {
        bytes.extend_from_slice(&relation.bundle.to_le_bytes())?;
        bytes.extend_from_slice(&[relation.p, relation.q, 0, 0])?;
    }
    Ok(())
}

//! Whole reads and whole writes.

ghost use Rattle.std.specs.Prelude.{◌≡◌, ◌≢◌, ℕ, ◌+◌, ◌<◌, ◌≤◌, ◌↔◌, length, take, vec_len, IsSome, IfSome, IfOk, IfErr, OnOk, OnErr, IsErrOf};
ghost use Rattle.std.specs.Io.KnownBytes.{Appends, IsAtEnd};
ghost use Rattle.io_seam.specs.Faults.{Rose};
ghost use Rattle.io_seam.specs.Bytes.{LosesFirst, LosesAtMost};

use crate::sink::Sink;
use crate::source::Source;
use std::alloc::Global;
use thiserror::Error;

/// How many bytes are asked of a source at once.
const PIECE: usize = 8192;

/// Why a whole read gave no bytes.
#[derive(Clone, Copy, Debug, PartialEq, Eq, Error)]
pub enum ReadError {
    /// The source failed.
    #[error("the source failed")]
    ReadFault,
    /// More bytes came than the limit allows.
    #[error("the source has more bytes than the limit")]
    TooLong,
    /// There was no memory for the bytes.
    #[error("out of memory")]
    Memory,
}

/// Why a whole write stopped.
#[derive(Clone, Copy, Debug, PartialEq, Eq, Error)]
pub enum WriteError {
    /// The sink failed. A part of the bytes was given, and never all of them.
    #[error("the sink failed")]
    WriteFault,
}

/// Reads all that a source has left, at most `limit` bytes. It takes at most one byte more than the
/// limit, by which it knows that there are more.
///
/// # Errors
///
/// `ReadFault` only where the source's count of faults rose in this call, `TooLong` exactly where
/// more than `limit` bytes came. `Memory`, where the bytes found no room, may come in place of any
/// other answer. The bytes that were taken are gone after each of them, `limit + 1` after `TooLong`
/// and at most `limit` after the others. The count of faults is as it was after `TooLong` and
/// `Memory`.
pub fn read_all<S: Source>(
    alloc: Global,
    source: &mut S,
    limit: usize,
) -> Result<Vec<u8>, ReadError>
    // What an answer means.
    ensures whole { IfOk result (λ bytes. IfSome (S.left source.old) (λ left. bytes.items ≡ left)) }
    ensures within { IfOk result (λ bytes. vec_len bytes ≤ limit) }
    ensures end { OnOk result (IsAtEnd (S.left source.new)) }
    ensures too_long { IfSome (S.left source.old) (λ left.
        IsErrOf result ReadError.TooLong ↔ LosesFirst (limit + 1) left (S.left source.new)) }
    ensures fault { IsErrOf result ReadError.ReadFault
        → Rose (S.faults source.old) (S.faults source.new) }

    // What is left, whatever the answer.
    ensures taken { IfSome (S.left source.old) (λ left.
        LosesAtMost (limit + 1) left (S.left source.new)) }
    ensures told { IsSome (S.left source.old) ↔ IsSome (S.left source.new) }

    // How often the source failed.
    ensures unchanged_faults { OnOk result (S.faults source.new ≡ S.faults source.old) }
    ensures unchanged_at_refusal { IfErr result (λ error.
        error ≢ ReadError.ReadFault → S.faults source.new ≡ S.faults source.old) }
    ensures never_falls { S.faults source.old ≤ S.faults source.new }
{
    let mut bytes = Vec::new(alloc);
    let mut piece = [0; PIECE];
    loop {
        let room = limit - bytes.len();
        let wanted = room.min(PIECE - 1) + 1;
        let Ok(count) = source.take(&mut piece[..wanted]) else {
            return Err(ReadError::ReadFault);
        };
        if count == 0 {
            return Ok(bytes);
        }
        if count > room {
            return Err(ReadError::TooLong);
        }
        bytes
            .extend_from_slice(&piece[..count])
            .map_err(|_| ReadError::Memory)?;
    }
}

/// Gives all the bytes to a sink, in order. It needs no memory.
///
/// # Errors
///
/// `WriteFault` only where the sink's count of faults rose in this call. A front of the bytes was
/// given then, and never all of them.
pub fn write_all<K: Sink>(sink: &mut K, bytes: &[u8]) -> Result<(), WriteError>
    // What the sink was given.
    ensures ok { OnOk result (Appends (K.given sink.old) (K.given sink.new) bytes.now) }
    ensures prefix { OnErr result ((count : ℕ) × (count < length bytes.now)
        × Appends (K.given sink.old) (K.given sink.new) (take count bytes.now)) }
    ensures told { IsSome (K.given sink.old) ↔ IsSome (K.given sink.new) }

    // How often the sink failed.
    ensures unchanged_faults { OnOk result (K.faults sink.new ≡ K.faults sink.old) }
    ensures fault { OnErr result (Rose (K.faults sink.old) (K.faults sink.new)) }
    ensures never_falls { K.faults sink.old ≤ K.faults sink.new }
{
    let mut given = 0;
    while given < bytes.len() {
        let Ok(count) = sink.give(&bytes[given..]) else {
            return Err(WriteError::WriteFault);
        };
        given += count;
    }
    Ok(())
}

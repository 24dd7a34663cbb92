//! Data, and their text.

ghost use Rattle.std.specs.Prelude.{false, ◌≡◌, ◌++◌, ◌∷◌, [], ◌%◌, ◌||◌, ◌==◌, codes, length, slice_index, if◌then◌else◌, OnOk, IfOk};
ghost use Rattle.std.specs.Fmt.{digits};
ghost use Rattle.asm_build.specs.Names.{padded};
ghost use Rattle.asm_build.specs.CanonicalText.{data_word, words_of, words_text, data_text};

use asm_text::{push_bytes, push_hex};
use std::alloc::AllocError;

/// The data with zeros up to a multiple of eight.
pub(crate) fn padded(mut data: Vec<u8>) -> Result<Vec<u8>, AllocError>
    ensures { IfOk result (λ bytes. bytes.items ≡ padded data.items) }
{
    let more = (8 - data.len() % 8) % 8;
    data.resize(data.len() + more, 0)?;
    Ok(data)
}

/// The word of eight bytes, the lowest first.
fn data_word(bytes: [u8; 8]) -> u64
    ensures { result ≡ data_word (slice_index bytes 0) (slice_index bytes 1) (slice_index bytes 2) (slice_index bytes 3) (slice_index bytes 4) (slice_index bytes 5) (slice_index bytes 6) (slice_index bytes 7) }
{
    u64::from_le_bytes(bytes)
}

/// A word of data lines of eight, `k` words after the first.
fn push_word(out: &mut Vec<u8>, k: usize, word: u64, last: bool) -> Result<(), AllocError>
    ensures { OnOk result (out.new.items ≡ out.old.items ++ ((if k % 8 == 0 then codes "data8 " else codes ",") ++ (48 ∷ 120 ∷ digits 16 false word) ++ (if (k % 8 == 7) || last then 10 ∷ [] else []))) }
{
    if k % 8 == 0 {
        push_bytes(out, b"data8 ")?;
    } else {
        push_bytes(out, b",")?;
    }
    push_bytes(out, b"0x")?;
    push_hex(out, word)?;
    if k % 8 == 7 || last {
        push_bytes(out, b"\n")
    } else {
        Ok(())
    }
}

/// The data directive and the data lines, where there are data.
pub(crate) fn push_data(out: &mut Vec<u8>, bytes: &[u8]) -> Result<(), AllocError>
    requires { length bytes.now % 8 ≡ 0 }
    ensures { OnOk result (out.new.items ≡ out.old.items ++ data_text bytes.now) }
{
    if bytes.is_empty() {
        return Ok(());
    }
    push_bytes(out, b".data\n")?;
    push_words(out, bytes)
}

/// The data lines.
#[tactic(auto, using(crate::proofs::Words::next_word, crate::proofs::Words::no_words))]
fn push_words(out: &mut Vec<u8>, bytes: &[u8]) -> Result<(), AllocError>
    requires { length bytes.now % 8 ≡ 0 }
    ensures { OnOk result (out.new.items ≡ out.old.items ++ words_text 0 (words_of bytes.now)) }
{
    let mut k = 0;
    let mut left = bytes;
    while let [a, b, c, d, e, f, g, h, rest @ ..] = left {
        let word = data_word([*a, *b, *c, *d, *e, *f, *g, *h]);
        push_word(out, k, word, rest.is_empty())?;
        k += 1;
        left = rest;
    }
    Ok(())
}

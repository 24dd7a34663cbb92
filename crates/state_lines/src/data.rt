//! The lines of the data.

ghost use Rattle.std.specs.Prelude.{◌≡◌, ◌++◌, ◌+◌, ◌≤◌, OnOk, codes, length, string_bytes};
ghost use Rattle.ia_meaning.specs.Loads.{bytes_at};
ghost use Rattle.ia_meaning.specs.StateText.{word_text, word_line, data_lines};

use crate::word::WordText;
use ia_program::DATA_BASE;
use std::alloc::AllocError;

/// The word that eight bytes spell, the lowest first.
fn word_at(bytes: &[u8], at: usize) -> u64
    requires { at + 8 ≤ length bytes.now }
    ensures { result ≡ bytes_at bytes.now at 8 }
{
    u64::from_le_bytes([
        bytes[at],
        bytes[at + 1],
        bytes[at + 2],
        bytes[at + 3],
        bytes[at + 4],
        bytes[at + 5],
        bytes[at + 6],
        bytes[at + 7],
    ])
}

/// The line of a word of the data at an address, unless the word is 0.
fn push_word(out: &mut String, address: u64, word: u64) -> Result<(), AllocError>
    ensures { OnOk result (string_bytes out.new ≡ string_bytes out.old ++ word_line (codes "m " ++ word_text address) word) }
{
    if word == 0 {
        return Ok(());
    }
    let (shown_address, shown) = (WordText { word: address }, WordText { word });
    writeln!(out, "m {shown_address} {shown}")
}

/// The lines of the words of the data.
pub(crate) fn push_data(out: &mut String, bytes: &[u8]) -> Result<(), AllocError>
    ensures { OnOk result (string_bytes out.new ≡ string_bytes out.old ++ data_lines bytes.now) }
{
    for n in 0..bytes.len() / 8 {
        push_word(out, DATA_BASE + 8 * n as u64, word_at(bytes, 8 * n))?;
    }
    Ok(())
}

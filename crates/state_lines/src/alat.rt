//! The lines of the ALAT.

ghost use Rattle.std.specs.Prelude.{◌≡◌, ◌++◌, OnOk, Some, codes, decimal, string_bytes};
ghost use Rattle.ia_meaning.specs.StateText.{key_text, word_text, entry_lines};

use crate::word::WordText;
use ia_meaning::{AlatEntry, Spot};
use std::alloc::AllocError;
use std::fmt;

/// The place of a general register, as it is printed.
#[derive(Clone, Copy, Debug)]
struct KeyText {
    key: Spot,
}

impl fmt::Display for KeyText {
    ghost output = { λ shown. Some (key_text shown.key) };

    /// `r` and the number of a static register, or `s` and the number of a cell.
    fn fmt<W: fmt::Write>(&self, f: &mut fmt::Formatter<W>) -> fmt::Result {
        match self.key {
            Spot::Static(n) => write!(f, "r{n}"),
            Spot::Stacked(n) => write!(f, "s{n}"),
        }
    }
}

/// An entry of the ALAT, as it is printed.
#[derive(Clone, Copy, Debug)]
struct EntryText {
    entry: AlatEntry,
}

impl fmt::Display for EntryText {
    ghost output = { λ shown. Some (codes "alat " ++ key_text shown.entry.key ++ codes " " ++ word_text shown.entry.address ++ codes " " ++ decimal shown.entry.size) };

    /// The register, the address, and the size in decimal.
    fn fmt<W: fmt::Write>(&self, f: &mut fmt::Formatter<W>) -> fmt::Result {
        let shown_key = KeyText {
            key: self.entry.key,
        };
        let shown_address = WordText {
            word: self.entry.address,
        };
        let size = self.entry.size;
        write!(f, "alat {shown_key} {shown_address} {size}")
    }
}

/// The lines of the entries.
#[tactic(auto, using(crate::proofs::Counting::one_item_more))]
pub(crate) fn push_alat(out: &mut String, entries: &[AlatEntry]) -> Result<(), AllocError>
    ensures { OnOk result (string_bytes out.new ≡ string_bytes out.old ++ entry_lines entries.now) }
{
    for entry in entries {
        let shown = EntryText { entry: *entry };
        writeln!(out, "{shown}")?;
    }
    Ok(())
}

//! Names of labels.

ghost use Rattle.std.specs.Prelude.{◌≡◌, ℕ, ◌≤◌, List, length};
ghost use Rattle.std.specs.Option.{SomeIff};
ghost use Rattle.asm_lexemes.specs.declared.limits.TheConstants.{NAME_LIMIT};

use crate::limits::NAME_LIMIT;
use arrayvec::ArrayVec;
use std::marker::Model;

/// A name of 1 to 63 bytes, which owns its bytes and takes no memory beside itself. Contracts see
/// the list of its bytes.
#[derive(Clone, Debug, PartialEq, Eq, PartialOrd, Ord, Drop)]
pub struct Name {
    bytes: ArrayVec<u8, NAME_LIMIT>,
}

impl Model for Name {
    ghost Value = { List ℕ };

    ghost view = { λ n. n.bytes.items };

    ghost invariant = { λ n. (1 ≤ length n.bytes.items) × (length n.bytes.items ≤ NAME_LIMIT) };

    ghost inverse = { λ bytes. record { bytes = record { items = bytes } } };
}

impl Name {
    /// The name with these bytes, and None exactly where they are not 1 to 63.
    pub fn of(bytes: &[u8]) -> Option<Self>
        ensures { SomeIff result ((1 ≤ length bytes.now) × (length bytes.now ≤ NAME_LIMIT)) bytes.now }
    {
        if bytes.is_empty() || bytes.len() > NAME_LIMIT {
            return None;
        }
        let mut copy = ArrayVec::new();
        for byte in bytes {
            copy.push(*byte);
        }
        Some(Name { bytes: copy })
    }

    /// Its bytes, of which there are 1 to 63.
    pub fn bytes(&self) -> &[u8]
        ensures value { result.now ≡ self.now }
        ensures within { (1 ≤ length self.now) × (length self.now ≤ NAME_LIMIT) }
    {
        self.bytes.as_slice()
    }
}

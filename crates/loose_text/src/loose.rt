//! Loose texts.

ghost use Rattle.std.specs.Prelude.{◌≡◌};
ghost use Rattle.ia_program.specs.Programs.{AreBytes};
ghost use Rattle.loose_text.specs.LooseTexts.{Loose, IsLoose};

use asm_build::Address;
use ia_program::Relation;
use loose_items::Item;
use std::marker::Model;

/// A loose text: instructions in order, what the names in them mean, entries, relations and data. Contracts see its
/// lists. Labels of text, entries and relations count instructions.
#[derive(Drop)]
pub struct LooseText {
    items: Vec<Item>,
    targets: Vec<Option<Address>>,
    entries: Vec<u32>,
    relations: Vec<Relation>,
    bytes: Vec<u8>,
}

impl Model for LooseText {
    ghost Value = { Loose };

    ghost view = { λ t. record { items = t.items.items; targets = t.targets.items; entries = t.entries.items; relations = t.relations.items; bytes = t.bytes.items } };

    ghost invariant = { λ t. IsLoose (record { items = t.items.items; targets = t.targets.items; entries = t.entries.items; relations = t.relations.items; bytes = t.bytes.items }) };
}

impl LooseText {
    /// The loose text of these, where it is known that they are one.
    pub(crate) fn of_parts(
        items: Vec<Item>,
        targets: Vec<Option<Address>>,
        entries: Vec<u32>,
        relations: Vec<Relation>,
        bytes: Vec<u8>,
    ) -> Self
        requires { AreBytes bytes.items → IsLoose (record { items = items.items; targets = targets.items; entries = entries.items; relations = relations.items; bytes = bytes.items }) }
        ensures { result ≡ record { items = items.items; targets = targets.items; entries = entries.items; relations = relations.items; bytes = bytes.items } }
    {
        LooseText {
            items,
            targets,
            entries,
            relations,
            bytes,
        }
    }

    /// The law that a loose text is one, with all that a packer may go by: its counts are within their limits, also
    /// that of its bundles where no stop is wanted; its instructions are listed; what the name of a target means can be
    /// put in; labels, entries and relations are of instructions that a label of text or a relation stands before; and
    /// its relations rise and are of entries. It does nothing.
    pub fn is_loose(&self)
        ensures { IsLoose self.now }
    {
        let _ = &self.items;
    }

    /// The instructions, one at least.
    pub fn items(&self) -> &[Item]
        ensures { result.now ≡ self.now.items }
    {
        &self.items
    }

    /// Of each instruction, what the name of its target names. A label of text names an instruction by its number.
    pub fn targets(&self) -> &[Option<Address>]
        ensures { result.now ≡ self.now.targets }
    {
        &self.targets
    }

    /// The numbers of the declared entries, from 1 on, rising. Instruction 0 is an entry without being declared.
    pub fn entries(&self) -> &[u32]
        ensures { result.now ≡ self.now.entries }
    {
        &self.entries
    }

    /// The declared relations, rising. What each calls its bundle is the number of an instruction.
    pub fn relations(&self) -> &[Relation]
        ensures { result.now ≡ self.now.relations }
    {
        &self.relations
    }

    /// The data, a multiple of eight bytes.
    pub fn data(&self) -> &[u8]
        ensures { result.now ≡ self.now.bytes }
    {
        &self.bytes
    }
}

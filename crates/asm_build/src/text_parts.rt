//! What the lines of a text say, one after the other.

ghost use Rattle.std.specs.Prelude.{◌≡◌, ◌↔◌, ◌≤◌, ◌+◌, ◌++◌, None, IsTrue, OnOk, IfOk, IfErr, length};
ghost use Rattle.first_fault.specs.Stages.{ArePassed};
ghost use Rattle.ia_program.specs.Listed.{IsListed};
ghost use Rattle.asm_reading.specs.declared.line.Line.TheVariants as line;
ghost use Rattle.asm_reading.specs.Lines.{IsListedLine};
ghost use Rattle.asm_build.specs.declared.reason.Reason.TheVariants as reason;
ghost use Rattle.asm_build.specs.declared.reason.TextError.TheVariants as error;
ghost use Rattle.asm_build.specs.TextParts.{TextParts as PartsOf, current_of, start, IsWithinLimits, after, value_stages, IsValueError, AreLabelsBelow, AreLabelsInside, here, address_before, turned, with_label, with_relation, IsIn, numbers_bytes};
ghost use Rattle.asm_build.specs.declared.text_parts.Section.TheVariants as section;
ghost use Rattle.asm_build.specs.Addresses.{IsReachable};
ghost use Rattle.asm_build.specs.Names.{padded};
ghost use Rattle.asm_build.specs.TextReading.{program_reading};

use crate::address::Address;
use crate::data::padded;
use crate::draft::{BundleLines, Open};
use crate::reading::TakesLines;
use crate::reason::{Reason, TextError, fault};
use asm_lexemes::Name;
use asm_text::{Draft, Line, Predicates, TemplateName, Values};
use ia_program::limits::{BUNDLE_LIMIT, DATA_LIMIT};
use std::alloc::{AllocError, Global};
use std::collections::BTreeMap;
use std::marker::Model;

/// What is being written: bundles, or data.
#[derive(Clone, Copy, Debug, PartialEq, Eq)]
pub enum Section {
    /// Bundles, or instructions without them.
    Text,
    /// Data.
    Data,
}

/// A line that declares an entry.
#[derive(Debug, Drop)]
pub struct EntryLine {
    /// Its number, from 1.
    pub line: u32,
    /// The name of a label of the text.
    pub name: Name,
}

/// A line that declares relations of the next bundle, between each two of its predicates.
#[derive(Debug, Drop)]
pub struct RelationLine {
    /// Its number, from 1.
    pub line: u32,
    /// How many bundles stand before it, which is the number of the next one. In a text without bundles instructions
    /// are counted in their place.
    pub bundle: u32,
    /// The predicates.
    pub predicates: Predicates,
}

/// What the lines so far say. Contracts see its lists, and the labels in the order of their names.
///
/// A text without bundles has what lines outside of them say here too: then the methods that take a label or a
/// relation have the number of what comes next in text from their caller.
#[derive(Drop)]
pub struct TextParts {
    pub(crate) section: Section,
    pub(crate) is_open: bool,
    pub(crate) bundle: Open,
    pub(crate) bundles: Vec<BundleLines>,
    pub(crate) entries: Vec<EntryLine>,
    pub(crate) relations: Vec<RelationLine>,
    pub(crate) labels: BTreeMap<Name, Address>,
    pub(crate) data: Vec<u8>,
}

impl Model for TextParts {
    ghost Value = { PartsOf };

    ghost view = { λ s. record { section = s.section; current = current_of s.is_open s.bundle; bundles = s.bundles.items; entries = s.entries.items; relations = s.relations.items; labels = s.labels.entries; bytes = s.data.items } };

    ghost invariant = { λ s. IsWithinLimits (record { section = s.section; current = current_of s.is_open s.bundle; bundles = s.bundles.items; entries = s.entries.items; relations = s.relations.items; labels = s.labels.entries; bytes = s.data.items }) };
}

impl TextParts {
    /// What no lines say.
    pub fn new(alloc: Global) -> Self
        ensures { result ≡ start }
    {
        TextParts {
            section: Section::Text,
            is_open: false,
            bundle: Open::new(),
            bundles: Vec::new(alloc),
            entries: Vec::new(alloc),
            relations: Vec::new(alloc),
            labels: BTreeMap::new(alloc),
            data: Vec::new(alloc),
        }
    }

    #[inline(never)]
    fn label(&mut self, n: u32, name: Name) -> Result<(), TextError>
        ensures ok { OnOk result (ArePassed (value_stages self.old (line.Label name)) × (self.new ≡ after self.old n (line.Label name))) }
        ensures err { IfErr result (IsValueError self.old n (line.Label name)) }
    {
        let address = self.address();
        self.label_of(n, name, address)
    }

    /// Takes the label on the n-th line, of what stands here.
    ///
    /// # Errors
    ///
    /// `Misplaced` within a bundle, `Twice` for a label again, or want of memory.
    #[tactic(auto, using(crate::proofs::ValueFaults::twice_there, crate::proofs::LabelValues::kept_among))]
    pub fn label_of(&mut self, n: u32, name: Name, address: Address) -> Result<(), TextError>
        requires { IsReachable address }
        ensures ok { OnOk result (ArePassed (value_stages self.old (line.Label name)) × (self.new ≡ with_label self.old name address)) }
        ensures err { IfErr result (IsValueError self.old n (line.Label name)) }
    {
        if self.is_open {
            return Err(fault(n, Reason::Misplaced));
        }
        if self.labels.insert(name, address)?.is_some() {
            return Err(fault(n, Reason::Twice));
        }
        Ok(())
    }

    /// What a label names that stands here.
    fn address(&self) -> Address
        ensures value { result ≡ here self.now }
        ensures within { IsReachable result }
    {
        let next = Address::Bundle {
            n: self.bundles.len() as u32,
        };
        self.address_before(next)
    }

    /// What a label names that stands here: in text this, which comes next, and in data the next byte.
    pub fn address_before(&self, next: Address) -> Address
        requires { IsReachable next }
        ensures value { result ≡ address_before self.now next }
        ensures within { IsReachable result }
    {
        match self.section {
            Section::Text => next,
            Section::Data => Address::Byte {
                at: self.data.len() as u32,
            },
        }
    }

    /// Turns to text or to data on the n-th line.
    ///
    /// # Errors
    ///
    /// `Misplaced` within a bundle.
    pub fn turn_to(&mut self, n: u32, section: Section) -> Result<(), TextError>
        ensures ok { OnOk result ((self.old.current ≡ None) × (self.new ≡ turned self.old section)) }
        ensures err { IfErr result (λ e. (e ≡ error.Fault n reason.Misplaced) × ¬ (self.old.current ≡ None)) }
    {
        if self.is_open {
            return Err(fault(n, Reason::Misplaced));
        }
        self.section = section;
        Ok(())
    }

    /// Takes the declared entry on the n-th line.
    ///
    /// # Errors
    ///
    /// `Misplaced` within a bundle, or want of memory.
    #[inline(never)]
    pub fn entry(&mut self, n: u32, name: Name) -> Result<(), TextError>
        ensures ok { OnOk result (ArePassed (value_stages self.old (line.Entry name)) × (self.new ≡ after self.old n (line.Entry name))) }
        ensures err { IfErr result (IsValueError self.old n (line.Entry name)) }
    {
        if self.is_open {
            return Err(fault(n, Reason::Misplaced));
        }
        self.entries.push(EntryLine { line: n, name })?;
        Ok(())
    }

    /// Takes the n-th line, which says something without effect.
    ///
    /// # Errors
    ///
    /// `Misplaced` within a bundle.
    pub fn ignored(&self, n: u32) -> Result<(), TextError>
        ensures ok { OnOk result (ArePassed (value_stages self.now line.Ignored)) }
        ensures err { IfErr result (IsValueError self.now n line.Ignored) }
    {
        if self.is_open {
            return Err(fault(n, Reason::Misplaced));
        }
        Ok(())
    }

    fn relation(&mut self, n: u32, predicates: Predicates) -> Result<(), TextError>
        ensures ok { OnOk result (ArePassed (value_stages self.old (line.Relation predicates)) × (self.new ≡ after self.old n (line.Relation predicates))) }
        ensures err { IfErr result (IsValueError self.old n (line.Relation predicates)) }
    {
        let relation = RelationLine {
            line: n,
            bundle: self.bundles.len() as u32,
            predicates,
        };
        self.relation_of(relation)
    }

    /// Takes a line that declares relations.
    ///
    /// # Errors
    ///
    /// `Misplaced` in data or within a bundle, or want of memory.
    pub fn relation_of(&mut self, relation: RelationLine) -> Result<(), TextError>
        ensures ok { OnOk result (ArePassed (value_stages self.old (line.Relation relation.predicates)) × (self.new ≡ with_relation self.old relation)) }
        ensures err { IfErr result (IsValueError self.old relation.line (line.Relation relation.predicates)) }
    {
        if !self.is_in_text() {
            return Err(fault(relation.line, Reason::Misplaced));
        }
        self.relations.push(relation)?;
        Ok(())
    }

    /// Whether data may stand here.
    fn is_in_data(&self) -> bool
        ensures { IsTrue result ↔ IsIn section.Data self.now }
    {
        !self.is_open && self.section == Section::Data
    }

    /// Whether a bundle or relations may stand here: in text, and outside a bundle.
    pub fn is_in_text(&self) -> bool
        ensures { IsTrue result ↔ IsIn section.Text self.now }
    {
        !self.is_open && self.section == Section::Text
    }

    /// Takes the numbers on the n-th line, each in `size` bytes.
    ///
    /// # Errors
    ///
    /// `Misplaced` outside of data, `Limit` for data past [`DATA_LIMIT`], or want of memory.
    #[tactic(auto, using(crate::proofs::Numbers::most_numbers, crate::proofs::Numbers::length_numbers, crate::proofs::ValueFaults::data_full))]
    pub fn numbers(&mut self, n: u32, size: u8, values: &Values) -> Result<(), TextError>
        ensures ok { OnOk result (ArePassed (value_stages self.old (line.Numbers size values.now)) × (self.new ≡ after self.old n (line.Numbers size values.now))) }
        ensures err { IfErr result (IsValueError self.old n (line.Numbers size values.now)) }
    {
        if !self.is_in_data() {
            return Err(fault(n, Reason::Misplaced));
        }
        let size = usize::from(size).min(8);
        let numbers = values.numbers();
        if self.data.len() + numbers.len() * size > DATA_LIMIT {
            return Err(fault(n, Reason::Limit));
        }
        push_numbers(&mut self.data, numbers, size)?;
        Ok(())
    }

    /// Takes `count` zeros, on the n-th line.
    ///
    /// # Errors
    ///
    /// `Misplaced` outside of data, `Limit` for data past [`DATA_LIMIT`], or want of memory.
    pub fn skip(&mut self, n: u32, count: u32) -> Result<(), TextError>
        ensures ok { OnOk result (ArePassed (value_stages self.old (line.Skip count)) × (self.new ≡ after self.old n (line.Skip count))) }
        ensures err { IfErr result (IsValueError self.old n (line.Skip count)) }
    {
        if !self.is_in_data() {
            return Err(fault(n, Reason::Misplaced));
        }
        let end = self.data.len() + count as usize;
        if end > DATA_LIMIT {
            return Err(fault(n, Reason::Limit));
        }
        self.data.resize(end, 0)?;
        Ok(())
    }

    fn begin(&mut self, n: u32, name: TemplateName) -> Result<(), TextError>
        ensures ok { OnOk result (ArePassed (value_stages self.old (line.Open name)) × (self.new ≡ after self.old n (line.Open name))) }
        ensures err { IfErr result (IsValueError self.old n (line.Open name)) }
    {
        if !self.is_in_text() {
            return Err(fault(n, Reason::Misplaced));
        }
        if self.bundles.len() >= BUNDLE_LIMIT {
            return Err(fault(n, Reason::Limit));
        }
        self.bundle.begin(name);
        self.is_open = true;
        Ok(())
    }

    fn slot(&mut self, n: u32, draft: &mut Draft, stop: bool) -> Result<(), TextError>
        requires { IsListed draft.old.insn }
        ensures ok { OnOk result (ArePassed (value_stages self.old (line.Slot draft.old stop)) × (self.new ≡ after self.old n (line.Slot draft.old stop))) }
        ensures err { IfErr result (IsValueError self.old n (line.Slot draft.old stop)) }
    {
        if !self.is_open {
            return Err(fault(n, Reason::Misplaced));
        }
        if !self.bundle.has_room() {
            return Err(fault(n, Reason::Template));
        }
        if !self.bundle.fits_next(draft) {
            return Err(fault(n, Reason::SlotKind));
        }
        self.bundle.push(n, draft, stop);
        Ok(())
    }

    fn stop(&mut self, n: u32) -> Result<(), TextError>
        ensures ok { OnOk result (ArePassed (value_stages self.old line.Stop) × (self.new ≡ after self.old n line.Stop)) }
        ensures err { IfErr result (IsValueError self.old n line.Stop) }
    {
        if !self.is_open || !self.bundle.has_slot() {
            return Err(fault(n, Reason::Misplaced));
        }
        self.bundle.stop_last();
        Ok(())
    }

    fn close(&mut self, n: u32) -> Result<(), TextError>
        ensures ok { OnOk result (ArePassed (value_stages self.old line.Close) × (self.new ≡ after self.old n line.Close)) }
        ensures err { IfErr result (IsValueError self.old n line.Close) }
    {
        if !self.is_open {
            return Err(fault(n, Reason::Misplaced));
        }
        let Some(bundle) = self.bundle.close() else {
            return Err(fault(n, Reason::Template));
        };
        self.is_open = false;
        self.bundles.push(bundle)?;
        Ok(())
    }

    /// Whether there is a bundle.
    pub(crate) fn has_bundles(&self) -> bool
        ensures { IsTrue result ↔ (1 ≤ length self.now.bundles) }
    {
        !self.bundles.is_empty()
    }

    /// Whether each label of the text has a bundle.
    pub(crate) fn are_labels_inside(&self) -> bool
        ensures { IsTrue result ↔ AreLabelsInside self.now }
    {
        let count = self.bundles.len() as u32;
        self.are_labels_below(count)
    }

    /// Whether each label of the text names a byte of data, or one of the first `count` bundles.
    pub fn are_labels_below(&self, count: u32) -> bool
        ensures { IsTrue result ↔ AreLabelsBelow count self.now }
    {
        for address in self.labels.values() {
            if !address.is_inside(count) {
                return false;
            }
        }
        true
    }

    /// The lines that declare relations, in order.
    pub fn relations(&self) -> &[RelationLine]
        ensures { result.now ≡ self.now.relations }
    {
        &self.relations
    }

    /// The data, with zeros up to a multiple of eight.
    ///
    /// # Errors
    ///
    /// Want of memory.
    pub fn into_data(self) -> Result<Vec<u8>, AllocError>
        ensures { IfOk result (λ bytes. bytes.items ≡ padded self.bytes) }
    {
        padded(self.data)
    }
}

impl TakesLines for TextParts {
    ghost reading = { program_reading };

    /// Takes what the n-th line says, and the name of a target out of it.
    fn take(&mut self, n: u32, value: &mut Line) -> Result<(), TextError>
        requires { IsListedLine value.old }
        ensures ok { OnOk result (ArePassed (value_stages self.old value.old) × (self.new ≡ after self.old n value.old)) }
        ensures err { IfErr result (IsValueError self.old n value.old) }
    {
        match value {
            Line::Empty => Ok(()),
            Line::Label { name } => self.label(n, name.clone()?),
            Line::Text => self.turn_to(n, Section::Text),
            Line::Data => self.turn_to(n, Section::Data),
            Line::Entry { name } => self.entry(n, name.clone()?),
            Line::Relation { predicates } => self.relation(n, predicates.clone()?),
            Line::Ignored => self.ignored(n),
            Line::Numbers { size, values } => self.numbers(n, *size, values),
            Line::Skip { count } => self.skip(n, *count),
            Line::Open { name } => self.begin(n, *name),
            Line::Slot { draft, stop } => self.slot(n, draft, *stop),
            Line::Stop => self.stop(n),
            Line::Close => self.close(n),
        }
    }
}

/// Appends the lowest bytes of each number.
#[tactic(auto, using(crate::proofs::Steps::number_put, crate::proofs::Numbers::shorter))]
fn push_numbers(data: &mut Vec<u8>, numbers: &[u64], size: usize) -> Result<(), AllocError>
    requires { size ≤ 8 }
    ensures ok { OnOk result (data.new.items ≡ data.old.items ++ numbers_bytes size numbers.now) }
    ensures grows { length data.new.items ≤ length data.old.items + length (numbers_bytes size numbers.now) }
{
    for number in numbers {
        data.extend_from_slice(&number.to_le_bytes()[..size])?;
    }
    Ok(())
}

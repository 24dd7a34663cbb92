//! What the lines of a loose text say, one after the other.

ghost use Rattle.std.specs.Prelude.{◌≡◌, ◌↔◌, ◌*◌, ◌≤◌, ◌<◌, ◌^◌, IsTrue, OnOk, IfErr, length};
ghost use Rattle.first_fault.specs.Stages.{ArePassed};
ghost use Rattle.ia_program.specs.declared.limits.TheConstants.{BUNDLE_LIMIT};
ghost use Rattle.asm_reading.specs.declared.line.Line.TheVariants as line;
ghost use Rattle.asm_build.specs.TextParts.{AreLabelsBelow};
ghost use Rattle.loose_text.specs.LooseParts.{LooseParts as PartsOf, start, items_of, after, value_stages, IsValueError, IsNarrow};
ghost use Rattle.loose_text.specs.LooseReading.{loose_reading};
ghost use Rattle.loose_items.specs.PlainPackings.{ArePacked};

use crate::item::{ItemLine, insn_of};
use asm_build::{Address, Reason, RelationLine, Section, TakesLines, TextError, TextParts, fault};
use asm_lexemes::Name;
use asm_text::{Draft, Line, Predicates};
use ia_insn::Op;
use loose_items::{Item, PlainPacking, packed_with};
use std::alloc::Global;
use std::marker::Model;

/// How large a number a break or a nop may have of a unit other than X, and one more.
pub(crate) const NARROW_LIMIT: u64 = 1 << 21;

/// What the lines so far say. Contracts see what they declare, the instructions, and whether a label of text or a
/// relation came after the last of them.
#[derive(Drop)]
pub(crate) struct LooseParts {
    pub declared: TextParts,
    pub items: Vec<ItemLine>,
    packing: Option<PlainPacking>,
    fresh: bool,
}

impl Model for LooseParts {
    ghost Value = { PartsOf };

    ghost view = { λ s. record { declared = s.declared; items = s.items.items; fresh = s.fresh } };

    ghost invariant = { λ s. ArePacked (items_of s.items.items) s.packing };
}

/// Whether the number of a break or a nop fits a unit other than X.
fn is_narrow(op: &Op) -> bool
    ensures { IsTrue result ↔ IsNarrow op.now }
{
    match op {
        Op::Break { imm, .. } | Op::Nop { imm, .. } => *imm < NARROW_LIMIT,
        _ => true,
    }
}

/// Whether the number of a break or a nop does without its unit letter.
fn has_narrow_number(draft: &Draft) -> bool
    ensures { IsTrue result ↔ (IsTrue draft.now.bare → IsNarrow draft.now.insn.op) }
{
    !draft.bare || is_narrow(&draft.insn.op)
}

impl LooseParts {
    /// What no lines say.
    pub fn new(alloc: Global) -> Self
        ensures { result ≡ start }
    {
        LooseParts {
            declared: TextParts::new(alloc),
            items: Vec::new(alloc),
            packing: None,
            fresh: false,
        }
    }

    /// The number of the next instruction.
    pub fn next(&self) -> u32
        ensures value { result ≡ length self.now.items }
        ensures few { result ≤ 3 * BUNDLE_LIMIT }
    {
        self.items.len() as u32
    }

    /// Whether there is an instruction.
    pub fn has_items(&self) -> bool
        ensures { IsTrue result ↔ (1 ≤ length self.now.items) }
    {
        !self.items.is_empty()
    }

    /// Whether each label of text has an instruction.
    pub fn are_labels_inside(&self) -> bool
        ensures { IsTrue result ↔ AreLabelsBelow (length self.now.items) self.now.declared }
    {
        let count = self.next();
        self.declared.are_labels_below(count)
    }

    fn label(&mut self, n: u32, name: Name) -> Result<(), TextError>
        ensures ok { OnOk result (ArePassed (value_stages self.old (line.Label name)) × (self.new ≡ after self.old n (line.Label name))) }
        ensures err { IfErr result (IsValueError self.old n (line.Label name)) }
    {
        let next = Address::Bundle { n: self.next() };
        let address = self.declared.address_before(next);
        self.declared.label_of(n, name, address)?;
        self.fresh = self.declared.is_in_text() || self.fresh;
        Ok(())
    }

    fn relation(&mut self, n: u32, predicates: Predicates) -> Result<(), TextError>
        ensures ok { OnOk result (ArePassed (value_stages self.old (line.Relation predicates)) × (self.new ≡ after self.old n (line.Relation predicates))) }
        ensures err { IfErr result (IsValueError self.old n (line.Relation predicates)) }
    {
        let relation = RelationLine {
            line: n,
            bundle: self.next(),
            predicates,
        };
        self.declared.relation_of(relation)?;
        self.fresh = true;
        Ok(())
    }

    fn slot(&mut self, n: u32, draft: &mut Draft, stop: bool) -> Result<(), TextError>
        ensures ok { OnOk result (ArePassed (value_stages self.old (line.Slot draft.old stop)) × (self.new ≡ after self.old n (line.Slot draft.old stop))) }
        ensures err { IfErr result (IsValueError self.old n (line.Slot draft.old stop)) }
    {
        if !has_narrow_number(draft) {
            return Err(fault(n, Reason::Range));
        }
        if !self.declared.is_in_text() {
            return Err(fault(n, Reason::Misplaced));
        }
        let item = Item {
            line: n,
            insn: insn_of(draft),
            breaks: self.fresh,
            written: stop,
        };
        let Some(packing) = packed_with(self.packing, &item) else {
            return Err(fault(n, Reason::Limit));
        };
        self.items.push(ItemLine {
            item,
            target: draft.target.take(),
        })?;
        self.packing = Some(packing);
        self.fresh = false;
        Ok(())
    }

    fn stop(&mut self, n: u32) -> Result<(), TextError>
        ensures ok { OnOk result (ArePassed (value_stages self.old line.Stop) × (self.new ≡ after self.old n line.Stop)) }
        ensures err { IfErr result (IsValueError self.old n line.Stop) }
    {
        if !self.declared.is_in_text() || self.items.is_empty() {
            return Err(fault(n, Reason::Misplaced));
        }
        let last = self.items.len() - 1;
        self.items[last].item.written = true;
        Ok(())
    }
}

impl TakesLines for LooseParts {
    ghost reading = { loose_reading };

    /// Takes what the n-th line says, and the name of a target out of it.
    fn take(&mut self, n: u32, value: &mut Line) -> Result<(), TextError>
        ensures ok { OnOk result (ArePassed (value_stages self.old value.old) × (self.new ≡ after self.old n value.old)) }
        ensures err { IfErr result (IsValueError self.old n value.old) }
    {
        match value {
            Line::Empty => Ok(()),
            Line::Label { name } => self.label(n, name.clone()?),
            Line::Text => self.declared.turn_to(n, Section::Text),
            Line::Data => self.declared.turn_to(n, Section::Data),
            Line::Entry { name } => self.declared.entry(n, name.clone()?),
            Line::Relation { predicates } => self.relation(n, predicates.clone()?),
            Line::Ignored => self.declared.ignored(n),
            Line::Numbers { size, values } => self.declared.numbers(n, *size, values),
            Line::Skip { count } => self.declared.skip(n, *count),
            Line::Open { .. } | Line::Close => Err(fault(n, Reason::Misplaced)),
            Line::Slot { draft, stop } => self.slot(n, draft, *stop),
            Line::Stop => self.stop(n),
        }
    }
}

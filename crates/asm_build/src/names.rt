//! Putting in the addresses of names.

ghost use Rattle.std.specs.Prelude.{◌≡◌, ℕ, ◌<◌, ◌≤◌, ◌⊎◌, true, false, [], IfOk, IfErr, IfSome, Some, None, Ok, Err, length, is_some, OnOk};
ghost use Rattle.std.specs.List.{AllByRecursion};
ghost use Rattle.std.specs.Map.{values_of};
ghost use Rattle.ia_program.specs.declared.limits.TheConstants.{BUNDLE_LIMIT};
ghost use Rattle.ia_program.specs.Bundles.{IsBundle, AreBundles};
ghost use Rattle.asm_build.specs.declared.reason.Reason.TheVariants as reason;
ghost use Rattle.asm_build.specs.declared.reason.TextError.TheVariants as error;
ghost use Rattle.asm_build.specs.Addresses.{IsReachable, reach};
ghost use Rattle.asm_build.specs.Names.{named, put_in, stays, all_stay, slot_names, unnamed_among, unnamed_slot, unnamed_bundle, slots_named, bundle_named, bundles_named, bundle_at, declared, declared_by, all_declared};
ghost use Rattle.asm_build.specs.TextParts.{address_of};

use crate::address::{Address, addressed};
use crate::draft::{BundleLines, SlotName};
use crate::reason::{Reason, TextError, fault};
use crate::text_parts::{EntryLine, TextParts};
use asm_lexemes::Name;
use ia_insn::{Insn, Op};
use ia_program::limits::ENTRY_LIMIT;
use ia_program::{BundleOf, Slots};
use std::alloc::{AllocError, Global};
use std::collections::{BTreeMap, BTreeSet};

/// Labels and what they name.
type Labels = BTreeMap<Name, Address>;

/// The operation in the n-th bundle with the address of its name put in, where a label that fits has it.
#[tactic(auto, using(crate::proofs::LabelValues::found_among))]
fn named(labels: &Labels, n: u32, op: &Op, target: &Option<Name>) -> Option<Op>
    requires here { n < reach }
    requires within { AllByRecursion IsReachable (values_of labels.now.entries) }
    ensures { result ≡ named labels.now.entries n op.now target.now }
{
    match target {
        Some(name) => addressed(op, *labels.get(name)?, n),
        None => {
            if op.displacement().is_some() {
                return None;
            }
            Some(*op)
        }
    }
}

/// The instruction with the address of its name, or the fault of its line.
fn put_in(labels: &Labels, n: u32, insn: &Insn, name: &SlotName) -> Result<Insn, TextError>
    requires here { n < reach }
    requires within { AllByRecursion IsReachable (values_of labels.now.entries) }
    ensures ok { IfOk result (λ i. (i ≡ put_in labels.now.entries n insn.now name.now) × (is_some (named labels.now.entries n insn.now.op name.now.target) ≡ true)) }
    ensures err { IfErr result (λ e. (e ≡ error.Fault name.now.line reason.NoLabel) × (is_some (named labels.now.entries n insn.now.op name.now.target) ≡ false)) }
{
    match named(labels, n, &insn.op, &name.target) {
        Some(op) => Ok(Insn { qp: insn.qp, op }),
        None => Err(fault(name.line, Reason::NoLabel)),
    }
}

/// Whether an instruction has no name and needs none.
#[inline(always)]
fn stays(insn: &Insn, name: &SlotName) -> bool
    ensures { result ≡ stays insn.now name.now }
{
    match &name.target {
        None => !insn.op.displacement().is_some(),
        Some(_) => false,
    }
}

/// Whether no instruction of a bundle has a name or needs one.
#[inline(always)]
fn all_stay(slots: &Slots, lines: &BundleLines) -> bool
    ensures { result ≡ all_stay slots.now lines.now }
{
    match slots {
        Slots::Three { a, b, c } => {
            stays(a, &lines.first) && stays(b, &lines.second) && stays(c, &lines.third)
        }
        Slots::Long { first, long } => { stays(first, &lines.first) && stays(long, &lines.second) }
    }
}

/// The slots of the n-th bundle with the addresses of their names, or the fault of the first without one.
fn slots_named(
    labels: &Labels,
    n: u32,
    slots: &Slots,
    lines: &BundleLines,
) -> Result<Slots, TextError>
    requires here { n < reach }
    requires within { AllByRecursion IsReachable (values_of labels.now.entries) }
    ensures ok { IfOk result (λ named. (named ≡ slots_named labels.now.entries n slots.now lines.now) × (unnamed_among labels.now.entries n (slot_names slots.now lines.now) ≡ None)) }
    ensures err { IfErr result (λ e. (line : ℕ) × (e ≡ error.Fault line reason.NoLabel) × (unnamed_among labels.now.entries n (slot_names slots.now lines.now) ≡ Some line)) }
{
    match slots {
        Slots::Three { a, b, c } => Ok(Slots::Three {
            a: put_in(labels, n, a, &lines.first)?,
            b: put_in(labels, n, b, &lines.second)?,
            c: put_in(labels, n, c, &lines.third)?,
        }),
        Slots::Long { first, long } => Ok(Slots::Long {
            first: put_in(labels, n, first, &lines.first)?,
            long: put_in(labels, n, long, &lines.second)?,
        }),
    }
}

/// The n-th bundle with the addresses of its names, or the fault of its first slot without one.
fn bundle_named(labels: &Labels, n: u32, lines: &BundleLines) -> Result<BundleOf, TextError>
    requires here { n < reach }
    requires within { AllByRecursion IsReachable (values_of labels.now.entries) }
    ensures ok { IfOk result (λ b. (b ≡ bundle_named labels.now.entries n lines.now) × (unnamed_slot labels.now.entries n lines.now ≡ None)) }
    ensures err { IfErr result (λ e. (line : ℕ) × (e ≡ error.Fault line reason.NoLabel) × (unnamed_slot labels.now.entries n lines.now ≡ Some line)) }
    ensures fit { IfOk result IsBundle }
{
    if all_stay(lines.bundle.slots(), lines) {
        return Ok(lines.bundle);
    }
    let slots = slots_named(labels, n, lines.bundle.slots(), lines)?;
    Ok(BundleOf::of_fitting(lines.bundle.template(), slots))
}

/// Bundles with the addresses of their names, or the fault of the first slot without one.
pub(crate) fn bundles_named(
    alloc: Global,
    labels: &Labels,
    lines: &[BundleLines],
) -> Result<Vec<BundleOf>, TextError>
    requires few { length lines.now ≤ BUNDLE_LIMIT }
    requires within { AllByRecursion IsReachable (values_of labels.now.entries) }
    ensures ok { IfOk result (λ bundles. (bundles.items ≡ bundles_named labels.now.entries 0 lines.now) × (unnamed_bundle labels.now.entries 0 lines.now ≡ None)) }
    ensures err { IfErr result (λ e. (e ≡ error.Memory) ⊎ ((line : ℕ) × (e ≡ error.Fault line reason.NoLabel) × (unnamed_bundle labels.now.entries 0 lines.now ≡ Some line))) }
    ensures fit { IfOk result (λ bundles. AreBundles bundles.items) }
{
    let mut bundles = Vec::with_capacity(alloc, lines.len())?;
    let mut n = 0;
    while n < lines.len() {
        bundles.push(bundle_named(labels, n as u32, &lines[n])?)?;
        n += 1;
    }
    Ok(bundles)
}

/// Adds a bundle to the declared entries. Bundle 0 is an entry without being declared.
fn declare(entries: &mut BTreeSet<u32>, n: u32) -> Result<(), AllocError>
    ensures { OnOk result (entries.new.keys ≡ declared entries.old.keys n) }
{
    if n != 0 {
        entries.insert(n)?;
    }
    Ok(())
}

/// Adds the entry of a line, or gives the line's fault.
fn declare_by(
    entries: &mut BTreeSet<u32>,
    labels: &Labels,
    line: &EntryLine,
) -> Result<(), TextError>
    ensures ok { OnOk result (declared_by (bundle_at (address_of labels.now.entries line.now.name)) line.now.line entries.old.keys ≡ Ok entries.new.keys) }
    ensures err { IfErr result (λ e. (e ≡ error.Memory) ⊎ (declared_by (bundle_at (address_of labels.now.entries line.now.name)) line.now.line entries.old.keys ≡ Err e)) }
{
    let Some(Address::Bundle { n }) = labels.get(&line.name) else {
        return Err(fault(line.line, Reason::NoLabel));
    };
    declare(entries, *n)?;
    if entries.len() > ENTRY_LIMIT {
        return Err(fault(line.line, Reason::Limit));
    }
    Ok(())
}

/// The declared entries that lines name, rising, or the fault of the first of these lines with one.
fn all_declared(
    alloc: Global,
    labels: &Labels,
    lines: &[EntryLine],
) -> Result<BTreeSet<u32>, TextError>
    ensures ok { IfOk result (λ entries. all_declared labels.now.entries [] lines.now ≡ Ok entries.keys) }
    ensures err { IfErr result (λ e. (e ≡ error.Memory) ⊎ (all_declared labels.now.entries [] lines.now ≡ Err e)) }
{
    let mut entries = BTreeSet::new(alloc);
    for line in lines {
        declare_by(&mut entries, labels, line)?;
    }
    Ok(entries)
}

impl TextParts {
    /// What a label of this name names, where there is one.
    pub fn address_of(&self, name: &Name) -> Option<Address>
        ensures value { result ≡ address_of self.now.labels name.now }
        ensures within { IfSome result IsReachable }
    {
        self.labels.get(name).copied()
    }

    /// The operation in the n-th bundle with the address of its name put in, where a label that fits has it.
    pub fn named(&self, n: u32, op: &Op, target: &Option<Name>) -> Option<Op>
        requires { n < reach }
        ensures { result ≡ named self.now.labels n op.now target.now }
    {
        named(&self.labels, n, op, target)
    }

    /// The declared entries, rising.
    ///
    /// # Errors
    ///
    /// The first fault of the lines that declare them: `NoLabel` for a name that no label of the text has, and `Limit`
    /// for declared entries past [`ENTRY_LIMIT`]; or want of memory.
    pub fn declared(&self, alloc: Global) -> Result<BTreeSet<u32>, TextError>
        ensures ok { IfOk result (λ entries. all_declared self.now.labels [] self.now.entries ≡ Ok entries.keys) }
        ensures err { IfErr result (λ e. (e ≡ error.Memory) ⊎ (all_declared self.now.labels [] self.now.entries ≡ Err e)) }
    {
        all_declared(alloc, &self.labels, &self.entries)
    }
}

//! The program that has a loose text's instructions in bundles (Intel Itanium Architecture Software Developer's Manual,
//! volume 1, chapter 3, instruction encoding).
//!
//! Each bundle is laid out once, which gives the place of each instruction. Then its target is put in, as the number of
//! a bundle, each bundle is filled with its instructions and with nops, and the numbers of instructions in entries and
//! relations become those of their bundles.

ghost use Rattle.std.specs.Prelude.{◌≡◌, ℕ, ◌++◌, ◌<◌, ◌≤◌, IfOk, OnOk, IfSome, IsSome, length, map, sum, slice_get, option_map};
ghost use Rattle.ia_program.specs.declared.limits.TheConstants.{BUNDLE_LIMIT};
ghost use Rattle.ia_program.specs.Bundles.{IsBundle, AreBundles};
ghost use Rattle.ia_program.specs.Places.{EachPlace};
ghost use Rattle.ia_program.specs.Runs.{IsWithinRun};
ghost use Rattle.slot_layouts.specs.Layouts.{laid_out};
ghost use Rattle.slot_layouts.specs.Filled.{slot_content, contents, filled};
ghost use Rattle.asm_build.specs.Addresses.{IsReachable, reach};
ghost use Rattle.bundling.specs.Chunks.{AreChunksOf};
ghost use Rattle.bundling.specs.Bundled.{relocated, put_in, targeted, sequence_of, layout_of, places_of, bundle_in, bundles_from, relation_moved, program_of};

use crate::chunk::Chunk;
use crate::laws::bundled_is_program;
use asm_build::{Address, addressed};
use ia_insn::{Insn, Unit};
use ia_program::{BundleOf, Place, Program, Relation, Slots};
use loose_text::LooseText;
use slot_layouts::{Layout, laid_out, laid_out_bundles, laid_out_is_layout, nop_of};
use std::alloc::{AllocError, Global};

/// The program of a loose text's instructions in bundles, and where they stand.
#[derive(Drop)]
pub struct BundledText {
    /// The program.
    pub program: Program,
    /// The place of each instruction, in their order.
    pub places: Vec<Place>,
}

/// The layouts of bundles, and the places of their instructions.
#[derive(Drop)]
struct Layouts {
    layouts: Vec<Layout>,
    places: Vec<Place>,
}

/// Adds the places of a bundle's slots.
fn push_places(places: &mut Vec<Place>, bundle: u32, slots: &[u8]) -> Result<(), AllocError>
    ensures { OnOk result (places.new.items ≡ places.old.items ++ map (λ k. record { bundle = bundle; slot = k }) slots.now) }
{
    for slot in slots {
        places.push(Place {
            bundle,
            slot: *slot,
        })?;
    }
    Ok(())
}

/// The layouts of bundles, and the places of their instructions.
fn laid(alloc: Global, chunks: &[Chunk]) -> Result<Layouts, AllocError>
    requires few { length chunks.now ≤ BUNDLE_LIMIT }
    requires laid { (n : ℕ) → IfSome (slice_get chunks.now n) (λ c. IsSome (laid_out c.wanted c.end)) }
    ensures layouts { IfOk result (λ l. l.layouts.items ≡ map layout_of chunks.now) }
    ensures places { IfOk result (λ l. l.places.items ≡ places_of chunks.now) }
{
    let mut layouts = Vec::with_capacity(alloc, chunks.len())?;
    let mut places = Vec::new(alloc);
    let mut n = 0;
    while n < chunks.len() {
        let chunk = &chunks[n];
        let layout = laid_out(chunk.wanted.as_slice(), chunk.end).unwrap();
        push_places(&mut places, n as u32, layout.slots())?;
        layouts.push(layout)?;
        n += 1;
    }
    Ok(Layouts { layouts, places })
}

/// The bundle of the n-th instruction, and 0 where there is none.
fn bundle_in(places: &[Place], n: u32) -> u32
    ensures { result ≡ bundle_in places.now n }
{
    match places.get(n as usize) {
        Some(place) => place.bundle,
        None => 0,
    }
}

/// What a target names: a bundle where it names an instruction.
fn relocated(places: &[Place], target: Option<Address>) -> Option<Address>
    ensures { result ≡ option_map (relocated (bundle_in places.now)) target }
{
    match target {
        Some(Address::Bundle { n }) => Some(Address::Bundle {
            n: bundle_in(places, n),
        }),
        other => other,
    }
}

/// The instruction that counts as `own` with what its target names put in.
fn put_in(insn: &Insn, target: Option<Address>, own: u32) -> Insn
    requires here { own < reach }
    requires there { IfSome target IsReachable }
    ensures { result ≡ record { qp = insn.now.qp; op = put_in (λ n. n) own insn.now.op target } }
{
    let op = match target {
        Some(address) => addressed(&insn.op, address, own).unwrap_or(insn.op),
        None => insn.op,
    };
    Insn { qp: insn.qp, op }
}

/// The instructions of the text's sequence: each target is put in as the number of an instruction.
pub fn sequence_insns(alloc: Global, text: &LooseText) -> Result<Vec<Insn>, AllocError>
    ensures { IfOk result (λ insns. insns.items ≡ (sequence_of text.now).insns) }
{
    text.is_loose();
    let items = text.items();
    let targets = text.targets();
    let mut insns = Vec::with_capacity(alloc, items.len())?;
    let mut n = 0;
    while n < items.len() {
        insns.push(put_in(&items[n].insn, targets[n], n as u32))?;
        n += 1;
    }
    Ok(insns)
}

/// The instructions of the text, where each target is put in as the number of a bundle.
fn bundle_insns(alloc: Global, text: &LooseText, places: &[Place]) -> Result<Vec<Insn>, AllocError>
    requires { (n : ℕ) → bundle_in places.now n < BUNDLE_LIMIT }
    ensures { IfOk result (λ insns. insns.items ≡ targeted (bundle_in places.now) text.now) }
{
    text.is_loose();
    let items = text.items();
    let targets = text.targets();
    let mut insns = Vec::with_capacity(alloc, items.len())?;
    let mut n = 0;
    while n < items.len() {
        let target = relocated(places, targets[n]);
        insns.push(put_in(&items[n].insn, target, bundle_in(places, n as u32)))?;
        n += 1;
    }
    Ok(insns)
}

/// What stands in a slot of this unit: the instruction whose slot it is, or the nop.
fn slot_content(slot: u8, unit: Unit, slots: &[u8], insns: &[Insn]) -> Insn
    ensures { result ≡ slot_content slot unit slots.now insns.now }
{
    let [first, others @ ..] = slots else {
        return nop_of(unit);
    };
    let [insn, rest @ ..] = insns else {
        return nop_of(unit);
    };
    if slot == *first {
        return *insn;
    }
    slot_content(slot, unit, others, rest)
}

/// What stands in the slots of these units: two instructions where the second is of a long one, and else three.
fn contents(units: [Unit; 3], slots: &[u8], insns: &[Insn]) -> Slots
    ensures { result ≡ contents units slots.now insns.now }
{
    let [first, second, third] = units;
    match second {
        Unit::L => Slots::Long {
            first: slot_content(0, first, slots, insns),
            long: slot_content(1, second, slots, insns),
        },
        _ => Slots::Three {
            a: slot_content(0, first, slots, insns),
            b: slot_content(1, second, slots, insns),
            c: slot_content(2, third, slots, insns),
        },
    }
}

/// The bundle of the layout that has these instructions.
fn filled(layout: &Layout, insns: &[Insn]) -> BundleOf
    requires { IsBundle (filled layout.now.0 layout.now.1 insns.now) }
    ensures { result ≡ filled layout.now.0 layout.now.1 insns.now }
{
    let template = layout.template();
    BundleOf::of_fitting(template, contents(template.units(), layout.slots(), insns))
}

/// The bundles of instructions, by their layouts.
fn bundles(
    alloc: Global,
    chunks: &[Chunk],
    layouts: &[Layout],
    insns: &[Insn],
) -> Result<Vec<BundleOf>, AllocError>
    requires layouts { layouts.now ≡ map layout_of chunks.now }
    requires enough { sum (map (λ c. length c.wanted) chunks.now) ≤ length insns.now }
    requires fit { AreBundles (bundles_from chunks.now insns.now) }
    ensures { IfOk result (λ bundles. bundles.items ≡ bundles_from chunks.now insns.now) }
{
    let mut bundles = Vec::with_capacity(alloc, chunks.len())?;
    let mut rest = insns;
    let mut n = 0;
    while n < chunks.len() {
        let chunk = &chunks[n];
        let (held, others) = rest.split_at(chunk.wanted.len());
        bundles.push(filled(&layouts[n], held))?;
        rest = others;
        n += 1;
    }
    Ok(bundles)
}

/// The bundles of the instructions that are entries.
fn entries(alloc: Global, entries: &[u32], places: &[Place]) -> Result<Vec<u32>, AllocError>
    ensures { IfOk result (λ relocated. relocated.items ≡ map (bundle_in places.now) entries.now) }
{
    let mut relocated = Vec::with_capacity(alloc, entries.len())?;
    for entry in entries {
        relocated.push(bundle_in(places, *entry))?;
    }
    Ok(relocated)
}

/// The relations of the bundles that have the instructions.
fn relations(
    alloc: Global,
    relations: &[Relation],
    places: &[Place],
) -> Result<Vec<Relation>, AllocError>
    ensures { IfOk result (λ relocated. relocated.items ≡ map (relation_moved (bundle_in places.now)) relations.now) }
{
    let mut relocated = Vec::with_capacity(alloc, relations.len())?;
    for relation in relations {
        relocated.push(Relation {
            bundle: bundle_in(places, relation.bundle),
            p: relation.p,
            q: relation.q,
        })?;
    }
    Ok(relocated)
}

/// The program that has a text's instructions in bundles, in the order of the text, and where they stand: what each
/// bundle is to hold is given, and a slot without an instruction has a nop of its unit. It takes time in the sum of the
/// numbers of instructions, bundles, entries, relations and bytes of data.
///
/// # Errors
///
/// Want of memory.
pub fn bundled(alloc: Global, text: &LooseText, chunks: &[Chunk]) -> Result<BundledText, AllocError>
    requires chunks { AreChunksOf text.now chunks.now }
    requires runs { EachPlace (program_of text.now chunks.now).bundles (IsWithinRun (program_of text.now chunks.now).bundles) }
    ensures program { IfOk result (λ b. b.program ≡ program_of text.now chunks.now) }
    ensures places { IfOk result (λ b. b.places.items ≡ places_of chunks.now) }
{
    text.is_loose();
    laid_out_is_layout();
    laid_out_bundles();
    bundled_is_program();
    let Layouts { layouts, places } = laid(alloc, chunks)?;
    let insns = bundle_insns(alloc, text, &places)?;
    let bundles = bundles(alloc, chunks, &layouts, &insns)?;
    let entries = entries(alloc, text.entries(), &places)?;
    let data = Vec::from_slice(alloc, text.data())?;
    let relations = relations(alloc, text.relations(), &places)?;
    let program = Program::of_parts(bundles, entries, data, relations);
    Ok(BundledText { program, places })
}

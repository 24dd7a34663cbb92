//! What the names of targets and entries mean.

ghost use Rattle.std.specs.Prelude.{◌≡◌, ◌⊎◌, ℕ, ◌<◌, ◌≤◌, ◌*◌, true, false, map, IfOk, IfErr, Some, None, Ok, Err, length, is_some};
ghost use Rattle.ia_program.specs.declared.limits.TheConstants.{BUNDLE_LIMIT};
ghost use Rattle.asm_build.specs.declared.reason.Reason.TheVariants as reason;
ghost use Rattle.asm_build.specs.declared.reason.TextError.TheVariants as error;
ghost use Rattle.asm_build.specs.Addresses.{reach};
ghost use Rattle.asm_build.specs.Names.{named};
ghost use Rattle.loose_text.specs.LooseParts.{items_of};
ghost use Rattle.loose_text.specs.LooseReading.{unnamed_item, name_fault, target_of, loose_of};

use crate::item::ItemLine;
use crate::parts::LooseParts;
use asm_build::{Address, Reason, TextError, TextParts, earlier, fault};
use asm_lexemes::Name;
use loose_items::Item;
use std::alloc::{AllocError, Global};
use std::collections::BTreeSet;

/// What the name of a target names.
fn address_of(declared: &TextParts, target: &Option<Name>) -> Option<Address>
    ensures { result ≡ target_of declared.now.labels target.now }
{
    match target {
        Some(name) => declared.address_of(name),
        None => None,
    }
}

/// What the name of the n-th instruction's target names, or the fault of its line.
fn target_of(declared: &TextParts, n: u32, line: &ItemLine) -> Result<Option<Address>, TextError>
    requires { n < reach }
    ensures ok { IfOk result (λ target. (target ≡ target_of declared.now.labels line.now.target) × (is_some (named declared.now.labels n line.now.item.insn.op line.now.target) ≡ true)) }
    ensures err { IfErr result (λ e. (e ≡ error.Fault line.now.item.line reason.NoLabel) × (is_some (named declared.now.labels n line.now.item.insn.op line.now.target) ≡ false)) }
{
    let op = line.item.insn.op;
    if declared.named(n, &op, &line.target).is_none() {
        return Err(fault(line.item.line, Reason::NoLabel));
    }
    Ok(address_of(declared, &line.target))
}

/// What the names of the instructions' targets name, or the fault of the first line with a name that means nothing
/// that fits.
fn targets_of(
    alloc: Global,
    declared: &TextParts,
    lines: &[ItemLine],
) -> Result<Vec<Option<Address>>, TextError>
    requires { length lines.now ≤ 3 * BUNDLE_LIMIT }
    ensures ok { IfOk result (λ targets. (targets.items ≡ map (λ l. target_of declared.now.labels l.target) lines.now) × (unnamed_item declared.now.labels 0 lines.now ≡ None)) }
    ensures err { IfErr result (λ e. (e ≡ error.Memory) ⊎ ((line : ℕ) × (e ≡ error.Fault line reason.NoLabel) × (unnamed_item declared.now.labels 0 lines.now ≡ Some line))) }
{
    let mut targets = Vec::with_capacity(alloc, lines.len())?;
    let mut n = 0;
    while n < lines.len() {
        targets.push(target_of(declared, n as u32, &lines[n])?)?;
        n += 1;
    }
    Ok(targets)
}

/// The instructions without the names of their targets.
pub(crate) fn items_of(alloc: Global, lines: &[ItemLine]) -> Result<Vec<Item>, AllocError>
    ensures { IfOk result (λ items. items.items ≡ items_of lines.now) }
{
    let mut items = Vec::with_capacity(alloc, lines.len())?;
    for line in lines {
        items.push(line.item)?;
    }
    Ok(items)
}

/// What names mean: of the targets of instructions, and the declared entries.
#[derive(Drop)]
pub(crate) struct NamedParts {
    pub targets: Vec<Option<Address>>,
    pub entries: BTreeSet<u32>,
}

/// What the names of a text mean, or the fault of the first line with a name that means nothing that fits, or with a
/// declared entry past the last.
pub(crate) fn named(alloc: Global, parts: &LooseParts) -> Result<NamedParts, TextError>
    requires { length parts.now.items ≤ 3 * BUNDLE_LIMIT }
    ensures ok { IfOk result (λ named. (name_fault parts.now ≡ None) × (named.targets.items ≡ (loose_of parts.now).targets) × (named.entries.keys ≡ (loose_of parts.now).entries)) }
    ensures err { IfErr result (λ e. (e ≡ error.Memory) ⊎ (name_fault parts.now ≡ Some e)) }
{
    let targets = targets_of(alloc, &parts.declared, &parts.items);
    let entries = parts.declared.declared(alloc);
    match (targets, entries) {
        (Ok(targets), Ok(entries)) => Ok(NamedParts { targets, entries }),
        (Err(TextError::Memory), _) | (_, Err(TextError::Memory)) => Err(TextError::Memory),
        (Err(error), Ok(_)) | (Ok(_), Err(error)) => Err(error),
        (Err(first), Err(second)) => Err(earlier(first, second)),
    }
}

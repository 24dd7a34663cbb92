//! What is printed of violations, and of an input with a fault.

ghost use Rattle.std.specs.Prelude.{◌≡◌, IfOk, Some, string_bytes};
ghost use Rattle.ia64_top.specs.Texts.{rule_text, resource_text, violation_text, verdict_text, slot_text, fault_text, refusal_text, text_fault_text, text_refusal_text};
ghost use Rattle.group_checker.specs.declared.report.Verdict.TheVariants.{Violations};
ghost use Rattle.asm_build.specs.declared.reason.TextError.TheVariants as error;

use asm_build::Reason;
use group_checker::{Report, Violation};
use ia_program::Place;
use image_form::ImageFault;
use insn_codec::SlotFault;
use resource_sets::{Resource, Rule};
use std::alloc::{AllocError, Global};
use std::fmt;

/// A rule of groups, as it is printed.
#[derive(Clone, Copy, Debug)]
struct RuleText {
    rule: Rule,
}

impl fmt::Display for RuleText {
    ghost output = { λ shown. Some (rule_text shown.rule) };

    /// The rule's name.
    fn fmt<W: fmt::Write>(&self, f: &mut fmt::Formatter<W>) -> fmt::Result {
        match self.rule {
            Rule::Raw => write!(f, "RAW"),
            Rule::Waw => write!(f, "WAW"),
            Rule::War63 => write!(f, "WAR63"),
            Rule::AllocFirst => write!(f, "ALLOC"),
            Rule::ClearLast => write!(f, "CLEAR"),
        }
    }
}

/// A resource, as it is printed.
#[derive(Clone, Copy, Debug)]
struct ResourceText {
    resource: Resource,
}

impl fmt::Display for ResourceText {
    ghost output = { λ shown. Some (resource_text shown.resource) };

    /// The resource's name.
    fn fmt<W: fmt::Write>(&self, f: &mut fmt::Formatter<W>) -> fmt::Result {
        match self.resource {
            Resource::Gr(n) => write!(f, "r{n}"),
            Resource::Pr(n) => write!(f, "p{n}"),
            Resource::Br(n) => write!(f, "b{n}"),
            Resource::Unat => write!(f, "unat"),
            Resource::Pfs => write!(f, "pfs"),
            Resource::Lc => write!(f, "lc"),
            Resource::Ec => write!(f, "ec"),
            Resource::Cfm => write!(f, "cfm"),
        }
    }
}

/// A violation, as it is printed.
#[derive(Clone, Copy, Debug)]
pub(crate) struct ViolationText {
    pub violation: Violation,
}

impl fmt::Display for ViolationText {
    ghost output = { λ shown. Some (violation_text shown.violation) };

    /// The rule, the resource, and the first and the second place.
    fn fmt<W: fmt::Write>(&self, f: &mut fmt::Formatter<W>) -> fmt::Result {
        let Violation {
            second,
            first,
            rule,
            resource,
        } = self.violation;
        let rule = RuleText { rule };
        let resource = ResourceText { resource };
        write!(f, "{rule} {resource} {first} {second}")
    }
}

/// What is printed of a program's violations.
pub(crate) fn violations(alloc: Global, report: &Report) -> Result<String, AllocError>
    ensures { IfOk result (λ text. string_bytes text ≡ verdict_text (Violations report.now)) }
{
    let total = report.total();
    let mut text = format!(in alloc; "violations {total}\n")?;
    for violation in report.shown() {
        let shown = ViolationText {
            violation: *violation,
        };
        writeln!(text, "{shown}")?;
    }
    Ok(text)
}

/// A slot of an image, as it is printed.
#[derive(Clone, Copy, Debug)]
struct SlotText {
    place: Place,
}

impl fmt::Display for SlotText {
    ghost output = { λ shown. Some (slot_text shown.place) };

    /// The bundle and the slot, in decimal.
    fn fmt<W: fmt::Write>(&self, f: &mut fmt::Formatter<W>) -> fmt::Result {
        let Place { bundle, slot } = self.place;
        write!(f, "image: bundle {bundle} slot {slot}")
    }
}

/// An image's fault, as it is printed.
#[derive(Clone, Copy, Debug)]
struct FaultText {
    fault: ImageFault,
}

impl fmt::Display for FaultText {
    ghost output = { λ shown. Some (fault_text shown.fault) };

    /// What is wrong, and where.
    fn fmt<W: fmt::Write>(&self, f: &mut fmt::Formatter<W>) -> fmt::Result {
        match self.fault {
            ImageFault::Short => write!(f, "image: short"),
            ImageFault::Magic => write!(f, "image: magic"),
            ImageFault::Counts => write!(f, "image: counts"),
            ImageFault::Length => write!(f, "image: length"),
            ImageFault::Entry { n } => write!(f, "image: entry {n}"),
            ImageFault::Bundle { n, fault } => match fault {
                SlotFault::ReservedTemplate => write!(f, "image: bundle {n}: template"),
                SlotFault::Unlisted { slot } => {
                    let place = Place { bundle: n, slot };
                    let at = SlotText { place };
                    write!(f, "{at}: unlisted")
                }
            },
            ImageFault::Target { place } => {
                let at = SlotText { place };
                write!(f, "{at}: target")
            }
            ImageFault::LongRun { place } => {
                let at = SlotText { place };
                write!(f, "{at}: long run")
            }
            ImageFault::Relation { n } => write!(f, "image: relation {n}"),
            ImageFault::Memory => Ok(()),
        }
    }
}

/// What is printed of an image's fault.
pub(crate) fn refusal(alloc: Global, fault: ImageFault) -> Result<String, AllocError>
    ensures { IfOk result (λ text. string_bytes text ≡ refusal_text fault) }
{
    let shown = FaultText { fault };
    format!(in alloc; "{shown}\n")
}

/// A text's fault, as it is printed.
#[derive(Clone, Copy, Debug)]
struct LineText {
    line: u32,
    reason: Reason,
}

impl fmt::Display for LineText {
    ghost output = { λ shown. Some (text_fault_text (error.Fault shown.line shown.reason)) };

    /// The line's number, and what is wrong with it.
    fn fmt<W: fmt::Write>(&self, f: &mut fmt::Formatter<W>) -> fmt::Result {
        let (line, reason) = (self.line, self.reason);
        write!(f, "line {line}: {reason}")
    }
}

/// What is printed of a text's fault.
pub(crate) fn text_refusal(alloc: Global, line: u32, reason: Reason) -> Result<String, AllocError>
    ensures { IfOk result (λ text. string_bytes text ≡ text_refusal_text (error.Fault line reason)) }
{
    let shown = LineText { line, reason };
    format!(in alloc; "{shown}\n")
}

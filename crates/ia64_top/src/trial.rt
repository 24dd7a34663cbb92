//! `trial`: the program of a seed is made, checked and run.

ghost use Rattle.std.specs.Prelude.{◌≡◌, ◌≤◌, ◌++◌, ◌∷◌, IfOk, OnOk, Some, codes, decimal, string_bytes};
ghost use Rattle.ia_meaning.specs.StateText.{line, word_text};
ghost use Rattle.ia_meaning.specs.Names.{look};
ghost use Rattle.trial_maker.specs.Trials.{trial_program};
ghost use Rattle.ia64_top.specs.declared.limits.TheConstants.{TRIAL_LIMIT};
ghost use Rattle.ia64_top.specs.declared.status.Status.{Status};
ghost use Rattle.ia64_top.specs.Trials.{value_of, register_sum, trial_text, IsTrialOf, IsTrialOutput};

use crate::answer::{Answer, accept};
use crate::status::Status;
use emulator::{Machine, WordText, push_outcome};
use group_checker::Accepted;
use ia_insn::Gr;
use ia_meaning::progress_is_run;
use ia_program::End;
use std::alloc::{AllocError, Global};
use std::fmt;
use trial_maker::make;

/// What a general register holds, and 0 where it is outside the frame.
fn register_value(machine: &Machine<'_>, register: Gr) -> u64
    ensures { result ≡ value_of (look machine.now.progress.state.registers register) }
{
    match machine.gr(register) {
        Ok(cell) => cell.value,
        Err(_) => 0,
    }
}

/// The sum of what r8 to r15 hold, modulo 2 to the power of 64.
fn register_sum(machine: &Machine<'_>) -> u64
    ensures { result ≡ register_sum machine.now.progress.state.registers }
{
    let mut sum: u64 = 0;
    for n in 8..16 {
        sum = sum.wrapping_add(register_value(machine, Gr::of_field(n)));
    }
    sum
}

/// The line of that sum.
fn push_sum(out: &mut String, machine: &Machine<'_>) -> Result<(), AllocError>
    ensures { OnOk result (string_bytes out.new ≡ string_bytes out.old ++ line (codes "sum " ++ word_text (register_sum machine.now.progress.state.registers))) }
{
    let sum = WordText {
        word: register_sum(machine),
    };
    writeln!(out, "sum {sum}")
}

/// The first two lines of a trial whose program is accepted, as they are printed.
#[derive(Clone, Copy, Debug)]
struct TrialHead {
    seed: u64,
    bundles: u32,
}

impl fmt::Display for TrialHead {
    ghost output = { λ shown. Some (codes "trial " ++ decimal shown.seed ++ codes " " ++ decimal shown.bundles ++ 10 ∷ codes "accepted") };

    /// The seed, the number of bundles, and the verdict.
    fn fmt<W: fmt::Write>(&self, f: &mut fmt::Formatter<W>) -> fmt::Result {
        let (seed, bundles) = (self.seed, self.bundles);
        write!(f, "trial {seed} {bundles}\naccepted")
    }
}

/// What is printed of those lines.
fn trial_head(alloc: Global, seed: u64, bundles: u32) -> Result<String, AllocError>
    ensures { IfOk result (λ text. string_bytes text ≡ line (codes "trial " ++ decimal seed ++ codes " " ++ decimal bundles ++ 10 ∷ codes "accepted")) }
{
    let shown = TrialHead { seed, bundles };
    format!(in alloc; "{shown}\n")
}

/// What is printed of a trial whose program is accepted and has run so.
fn trial_text(
    alloc: Global,
    seed: u64,
    bundles: u32,
    machine: &Machine<'_>,
    end: &End,
) -> Result<String, AllocError>
    ensures { IfOk result (λ text. string_bytes text ≡ trial_text seed bundles end.now machine.now.progress.groups machine.now.progress.state.registers) }
{
    let mut text = trial_head(alloc, seed, bundles)?;
    push_outcome(&mut text, machine, end)?;
    push_sum(&mut text, machine)?;
    Ok(text)
}

/// The answer of `trial` to its program, where it is accepted: however the run ends, the trial is done.
fn try_accepted(
    alloc: Global,
    seed: u64,
    bundles: u32,
    accepted: &Accepted<'_>,
) -> Result<Answer, AllocError>
    requires some { 1 ≤ bundles }
    requires few { bundles ≤ TRIAL_LIMIT }
    requires made { accepted.now ≡ trial_program seed bundles }
    ensures { IfOk result (λ answer. IsTrialOf seed bundles answer.bytes.items × (answer.status ≡ Status.Done)) }
{
    progress_is_run();
    accepted.is_order_independent();
    let mut machine = Machine::open(alloc, accepted.slots())?;
    let end = machine.run(u64::from(bundles));
    Ok(Answer {
        bytes: trial_text(alloc, seed, bundles, &machine, &end)?.into_bytes(),
        status: Status::Done,
    })
}

/// The answer of `trial`: its program is made and checked, and run where it is accepted.
pub(crate) fn try_program(alloc: Global, seed: u64, bundles: u32) -> Result<Answer, AllocError>
    requires some { 1 ≤ bundles }
    requires few { bundles ≤ TRIAL_LIMIT }
    ensures { IfOk result (λ answer. IsTrialOutput seed bundles answer.bytes.items answer.status) }
{
    let program = make(alloc, seed, bundles)?;
    match accept(alloc, &program)? {
        Ok(accepted) => try_accepted(alloc, seed, bundles, &accepted),
        Err(answer) => Ok(answer),
    }
}

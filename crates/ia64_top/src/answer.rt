//! The answers of the commands, and what several of them share.

ghost use Rattle.std.specs.Prelude.{◌≡◌, ◌≢◌, ◌≤◌, ℕ, length, map, IfOk, OnOk, OnErr, MatchResult, Some};
ghost use Rattle.ia64_top.specs.declared.limits.TheConstants.{INPUT_LIMIT};
ghost use Rattle.ia64_top.specs.Arguments.{HasNumbersInRange, IsWatch};
ghost use Rattle.ia64_top.specs.Judgements.{IsJudgedViolated};
ghost use Rattle.ia64_top.specs.Output.{IsCommandOutput};
ghost use Rattle.ia64_top.specs.Readings.{as_image, as_text, as_either, IsRefusal};
ghost use Rattle.watch_seam.specs.Watching.{AwaitGroups};
ghost use Rattle.ia64_top.specs.Runs.{RanNothing, HaveWatched, HaveWatchedPart};
ghost use Rattle.ia64_top.specs.Texts.{refusal_text, text_refusal_text};
ghost use Rattle.ia64_top.specs.declared.status.Status.{Status};

use crate::arguments::Command;
use crate::check::check_input;
use crate::conversions::{build_input, lift_input, list_input, show_input, wrap_input};
use crate::runs::{groups_input, run_input, trace_input, watch_input};
use crate::status::Status;
use crate::stops::stops_input;
use crate::text::{refusal, text_refusal, violations};
use crate::trial::try_program;
use asm_build::{TextError, assemble};
use group_checker::{Accepted, Verdict, check};
use ia_program::Program;
use image_form::{ImageFault, is_image, read_image};
use std::alloc::{AllocError, Global};
use watch_seam::Watch;

/// What is written, and how the call ends.
#[derive(Debug, Drop)]
pub(crate) struct Answer {
    pub bytes: Vec<u8>,
    pub status: Status,
}

/// The answer to an image or bare bundles with a fault.
pub(crate) fn refuse(alloc: Global, fault: ImageFault) -> Result<Answer, AllocError>
    ensures { IfOk result (λ answer. (fault ≢ ImageFault.Memory) × (answer.bytes.items ≡ refusal_text fault) × (answer.status ≡ Status.Refused)) }
{
    if fault == ImageFault::Memory {
        return Err(AllocError);
    }
    Ok(Answer {
        bytes: refusal(alloc, fault)?.into_bytes(),
        status: Status::Refused,
    })
}

/// The answer to a text with a fault.
pub(crate) fn refuse_text(alloc: Global, error: TextError) -> Result<Answer, AllocError>
    ensures { IfOk result (λ answer. (error ≢ TextError.Memory) × (answer.bytes.items ≡ text_refusal_text error) × (answer.status ≡ Status.Refused)) }
{
    match error {
        TextError::Fault { line, reason } => Ok(Answer {
            bytes: text_refusal(alloc, line, reason)?.into_bytes(),
            status: Status::Refused,
        }),
        TextError::Memory => Err(AllocError),
    }
}

/// The program of an image, or the answer to one with a fault.
pub(crate) fn take_image(alloc: Global, input: &[u8]) -> Result<Result<Program, Answer>, AllocError>
    ensures { IfOk result (λ taken. MatchResult taken (as_image.Gives input.now) (λ answer. IsRefusal as_image input.now answer.bytes.items answer.status)) }
{
    match read_image(alloc, input) {
        Ok(program) => Ok(Ok(program)),
        Err(fault) => Ok(Err(refuse(alloc, fault)?)),
    }
}

/// The program of a text, or the answer to one with a fault.
pub(crate) fn take_text(alloc: Global, input: &[u8]) -> Result<Result<Program, Answer>, AllocError>
    requires { length input.now ≤ INPUT_LIMIT }
    ensures { IfOk result (λ taken. MatchResult taken (as_text.Gives input.now) (λ answer. IsRefusal as_text input.now answer.bytes.items answer.status)) }
{
    match assemble(alloc, input) {
        Ok(program) => Ok(Ok(program)),
        Err(error) => Ok(Err(refuse_text(alloc, error)?)),
    }
}

/// The program of an image where the input begins as one, and else that of a text; or the answer to an
/// input with a fault.
pub(crate) fn take(alloc: Global, input: &[u8]) -> Result<Result<Program, Answer>, AllocError>
    requires { length input.now ≤ INPUT_LIMIT }
    ensures { IfOk result (λ taken. MatchResult taken (as_either.Gives input.now) (λ answer. IsRefusal as_either input.now answer.bytes.items answer.status)) }
{
    if is_image(input) {
        take_image(alloc, input)
    } else {
        take_text(alloc, input)
    }
}

/// A program, where it is accepted; or the verdict on it that `check` gives.
pub(crate) fn accept<'p>(
    alloc: Global,
    program: &'p Program,
) -> Result<Result<Accepted<'p>, Answer>, AllocError>
    ensures { IfOk result (λ judged. MatchResult judged (λ accepted. accepted ≡ program.now) (λ answer. IsJudgedViolated program.now answer.bytes.items answer.status)) }
{
    program.is_program();
    match check(alloc, program)? {
        Verdict::Accepted(accepted) => Ok(Ok(accepted)),
        Verdict::Violations(report) => Ok(Err(Answer {
            bytes: violations(alloc, &report)?.into_bytes(),
            status: Status::Violated,
        })),
    }
}

/// The answer of a command to an input within the limit. The watchers see the groups that `watch` runs.
pub(crate) fn respond(
    alloc: Global,
    command: Command,
    input: &[u8],
    watchers: &mut Vec<Box<dyn Watch>>,
) -> Result<Answer, AllocError>
    requires command { HasNumbersInRange command }
    requires within { length input.now ≤ INPUT_LIMIT }
    requires room { AwaitGroups (map (λ b. state b) watchers.old.items) }
    ensures output { IfOk result (λ answer. IsCommandOutput command (map (λ b. state b) watchers.old.items) input.now answer.bytes.items answer.status) }
    ensures watched { OnOk result ((groups : ℕ) → command ≡ Command.Watch groups → HaveWatched groups input.now (map (λ b. state b) watchers.old.items) (map (λ b. state b) watchers.new.items)) }
    ensures not_run { IfOk result (λ answer. RanNothing answer.status → watchers.new ≡ watchers.old) }
    ensures still_room { OnOk result (AwaitGroups (map (λ b. state b) watchers.new.items)) }
    ensures cut_short { OnErr result ((groups : ℕ) → command ≡ Command.Watch groups → HaveWatchedPart groups input.now (map (λ b. state b) watchers.old.items) (map (λ b. state b) watchers.new.items)) }
    ensures only_watch { ¬ IsWatch (Some command) → watchers.new ≡ watchers.old }
{
    match command {
        Command::Build => build_input(alloc, input),
        Command::Stops => stops_input(alloc, input),
        Command::Show => show_input(alloc, input),
        Command::List => list_input(alloc, input),
        Command::Wrap => wrap_input(alloc, input),
        Command::Lift => lift_input(alloc, input),
        Command::Check => check_input(alloc, input),
        Command::Run { groups } => run_input(alloc, groups, input),
        Command::Watch { groups } => watch_input(alloc, groups, input, watchers),
        Command::Trace { first, count } => trace_input(alloc, first, count, input),
        Command::Groups { groups, number } => groups_input(alloc, groups, number, input),
        Command::Trial { seed, bundles } => try_program(alloc, seed, bundles),
    }
}

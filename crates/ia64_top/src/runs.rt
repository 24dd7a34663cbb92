//! `run`, `watch`, `trace` and `groups`: a program is run from the zero state, and its state is printed.

ghost use Rattle.std.specs.Prelude.{◌≡◌, ◌++◌, ◌≤◌, ◌<◌, ◌+◌, ◌^◌, IfOk, OnOk, OnErr, length, map};
ghost use Rattle.ia_meaning.specs.Progress.{end_of, groups_further};
ghost use Rattle.ia_meaning.specs.Runs.{events_further};
ghost use Rattle.ia_meaning.specs.StateText.{state_text};
ghost use Rattle.watch_seam.specs.Watching.{AwaitGroups, IsCutShort, numbered, reports, staying};
ghost use Rattle.ia64_top.specs.declared.limits.TheConstants.{GROUP_LIMIT, INPUT_LIMIT, TRACE_LIMIT};
ghost use Rattle.ia64_top.specs.Readings.{as_either};
ghost use Rattle.ia64_top.specs.Runs.{run_of, end_status, state_after, watch_text, trace_text, IsRunOf, IsNumberedRunOf, IsRunAs, IsNumberedRunAs, RanNothing, HaveWatched, HaveWatchedPart};

use crate::answer::{Answer, accept, take};
use crate::status::Status;
use asm_build::{no_fault_where_read, one_text_program};
use emulator::{Machine, state_text};
use group_checker::Accepted;
use group_engine::{GroupMachine, group_text};
use ia_meaning::progress_is_run;
use ia_program::{End, Program};
use image_form::{no_fault_where_spelled, one_program};
use slot_table::SlotTable;
use std::alloc::{AllocError, Global};
use watch_seam::{Reports, Watch, push_group_line};

/// How a call ends whose run ended so: a `break` ends a run that is done.
fn end_status(end: &End) -> Status
    ensures { result ≡ end_status end.now }
{
    match end {
        End::Break { .. } => Status::Done,
        End::Limit { .. } => Status::Limit,
        End::Fault { .. } => Status::Faulted,
    }
}

/// Appends the state of a machine.
fn push_state(bytes: &mut Vec<u8>, machine: &Machine<'_>) -> Result<(), AllocError>
    ensures { OnOk result (bytes.new.items ≡ bytes.old.items ++ state_text (end_of machine.now.progress) machine.now.progress.groups machine.now.progress.range machine.now.progress.state) }
{
    let text = state_text(*bytes.allocator(), machine, &machine.ending())?;
    bytes.extend_from_slice(&text)
}

/// The answer of `trace` to an accepted program.
fn trace_accepted(
    alloc: Global,
    first: u64,
    count: u64,
    accepted: &Accepted<'_>,
) -> Result<Answer, AllocError>
    requires before { first ≤ GROUP_LIMIT }
    requires few { count ≤ TRACE_LIMIT }
    ensures { IfOk result (λ answer. IsRunOf (trace_text first count) accepted.now (first + count) answer.bytes.items answer.status) }
{
    progress_is_run();
    accepted.is_order_independent();
    let mut machine = Machine::open(alloc, accepted.slots())?;
    if first > 0 {
        let _end = machine.run(first);
    }
    let mut bytes = Vec::new(alloc);
    push_state(&mut bytes, &machine)?;
    let mut left = count;
    while left > 0 && machine.end().is_none() {
        let event = machine.step_group();
        push_group_line(&mut bytes, &event)?;
        push_state(&mut bytes, &machine)?;
        left -= 1;
    }
    Ok(Answer {
        bytes,
        status: end_status(&machine.ending()),
    })
}

/// The answer of `trace` to an input within the limit. A program with violations isn't run.
pub(crate) fn trace_input(
    alloc: Global,
    first: u64,
    count: u64,
    input: &[u8],
) -> Result<Answer, AllocError>
    requires before { first ≤ GROUP_LIMIT }
    requires few { count ≤ TRACE_LIMIT }
    requires within { length input.now ≤ INPUT_LIMIT }
    ensures { IfOk result (λ answer. IsRunAs (trace_text first count) (first + count) as_either input.now answer.bytes.items answer.status) }
{
    let program = match take(alloc, input)? {
        Ok(program) => program,
        Err(answer) => return Ok(answer),
    };
    match accept(alloc, &program)? {
        Ok(accepted) => trace_accepted(alloc, first, count, &accepted),
        Err(answer) => Ok(answer),
    }
}

/// The answer of `run` to an input within the limit. It is that of a trace which shows no group behind the first ones.
pub(crate) fn run_input(alloc: Global, groups: u64, input: &[u8]) -> Result<Answer, AllocError>
    requires few { groups ≤ GROUP_LIMIT }
    requires within { length input.now ≤ INPUT_LIMIT }
    ensures { IfOk result (λ answer. IsRunAs state_after groups as_either input.now answer.bytes.items answer.status) }
{
    trace_input(alloc, groups, 0, input)
}

/// Runs at most this number of groups of a machine, and shows each to the watchers. Returns what they report.
fn watch_groups(
    alloc: Global,
    groups: u64,
    machine: &mut Machine<'_>,
    watchers: &mut Vec<Box<dyn Watch>>,
) -> Result<Vec<u8>, AllocError>
    requires few { machine.old.progress.groups + groups < 2 ^ 64 }
    requires room { AwaitGroups (map (λ b. state b) watchers.old.items) }
    ensures state { OnOk result (machine.new ≡ record machine.old { progress = groups_further groups machine.old.program machine.old.progress }) }
    ensures text { IfOk result (λ text. text.items ≡ reports (events_further groups machine.old.program machine.old.progress) (numbered (map (λ b. state b) watchers.old.items))) }
    ensures stay { OnOk result (map (λ b. state b) watchers.new.items ≡ staying (events_further groups machine.old.program machine.old.progress) (map (λ b. state b) watchers.old.items)) }
    ensures still_room { OnOk result (AwaitGroups (map (λ b. state b) watchers.new.items)) }
    ensures cut_short { OnErr result (IsCutShort (events_further groups machine.old.program machine.old.progress) (map (λ b. state b) watchers.old.items) (map (λ b. state b) watchers.new.items)) }
{
    let mut reports = Reports::begin(alloc, watchers)?;
    let mut left = groups;
    while left > 0 && machine.end().is_none() {
        let event = machine.step_group();
        reports.show(&event, watchers)?;
        left -= 1;
    }
    reports.finish(watchers)
}

/// The answer of `watch` to an accepted program.
fn watch_accepted(
    alloc: Global,
    groups: u64,
    accepted: &Accepted<'_>,
    watchers: &mut Vec<Box<dyn Watch>>,
) -> Result<Answer, AllocError>
    requires some { 1 ≤ groups }
    requires few { groups ≤ GROUP_LIMIT }
    requires room { AwaitGroups (map (λ b. state b) watchers.old.items) }
    ensures output { IfOk result (λ answer. IsRunOf (watch_text (map (λ b. state b) watchers.old.items)) accepted.now groups answer.bytes.items answer.status) }
    ensures stay { OnOk result (map (λ b. state b) watchers.new.items ≡ staying (run_of accepted.now groups).events (map (λ b. state b) watchers.old.items)) }
    ensures still_room { OnOk result (AwaitGroups (map (λ b. state b) watchers.new.items)) }
    ensures cut_short { OnErr result (IsCutShort (run_of accepted.now groups).events (map (λ b. state b) watchers.old.items) (map (λ b. state b) watchers.new.items)) }
{
    progress_is_run();
    accepted.is_order_independent();
    let mut machine = Machine::open(alloc, accepted.slots())?;
    let mut bytes = watch_groups(alloc, groups, &mut machine, watchers)?;
    let end = machine.ending();
    bytes.extend_from_slice(&state_text(alloc, &machine, &end)?)?;
    Ok(Answer {
        bytes,
        status: end_status(&end),
    })
}

/// The answer of `watch` to an input within the limit. A program with violations isn't run, and the watchers see nothing
/// then.
pub(crate) fn watch_input(
    alloc: Global,
    groups: u64,
    input: &[u8],
    watchers: &mut Vec<Box<dyn Watch>>,
) -> Result<Answer, AllocError>
    requires some { 1 ≤ groups }
    requires few { groups ≤ GROUP_LIMIT }
    requires within { length input.now ≤ INPUT_LIMIT }
    requires room { AwaitGroups (map (λ b. state b) watchers.old.items) }
    ensures output { IfOk result (λ answer. IsRunAs (watch_text (map (λ b. state b) watchers.old.items)) groups as_either input.now answer.bytes.items answer.status) }
    ensures watched { OnOk result (HaveWatched groups input.now (map (λ b. state b) watchers.old.items) (map (λ b. state b) watchers.new.items)) }
    ensures not_run { IfOk result (λ answer. RanNothing answer.status → watchers.new ≡ watchers.old) }
    ensures still_room { OnOk result (AwaitGroups (map (λ b. state b) watchers.new.items)) }
    ensures cut_short { OnErr result (HaveWatchedPart groups input.now (map (λ b. state b) watchers.old.items) (map (λ b. state b) watchers.new.items)) }
{
    one_program();
    one_text_program();
    no_fault_where_spelled();
    no_fault_where_read();
    let program = match take(alloc, input)? {
        Ok(program) => program,
        Err(answer) => return Ok(answer),
    };
    match accept(alloc, &program)? {
        Ok(accepted) => watch_accepted(alloc, groups, &accepted, watchers),
        Err(answer) => Ok(answer),
    }
}

/// The answer of `groups` to a program, accepted or not.
fn groups_program(
    alloc: Global,
    groups: u64,
    number: u64,
    program: &Program,
) -> Result<Answer, AllocError>
    requires some { 1 ≤ groups }
    requires few { groups ≤ GROUP_LIMIT }
    ensures { IfOk result (λ answer. IsNumberedRunOf program.now groups number answer.bytes.items answer.status) }
{
    program.is_program();
    let slots = SlotTable::open(alloc, program)?;
    let mut machine = GroupMachine::open(alloc, &slots)?;
    let end = machine.run(groups, number);
    Ok(Answer {
        bytes: group_text(alloc, &machine, &end)?,
        status: end_status(&end),
    })
}

/// The answer of `groups` to an input within the limit. No verdict is made on its program.
pub(crate) fn groups_input(
    alloc: Global,
    groups: u64,
    number: u64,
    input: &[u8],
) -> Result<Answer, AllocError>
    requires some { 1 ≤ groups }
    requires few { groups ≤ GROUP_LIMIT }
    requires within { length input.now ≤ INPUT_LIMIT }
    ensures { IfOk result (λ answer. IsNumberedRunAs groups number as_either input.now answer.bytes.items answer.status) }
{
    match take(alloc, input)? {
        Ok(program) => groups_program(alloc, groups, number, &program),
        Err(answer) => Ok(answer),
    }
}

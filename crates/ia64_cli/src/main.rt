//! The program `ia64`: its arguments, standard input and standard output, handed to the top call.
#![tactic(auto)]

use ia64_top::limits::GROUP_LIMIT;
use ia64_top::{Arguments, Status, ia64};
use io_seam::{StdSink, StdSource};
use std::alloc::AllocError;
use std::env::{Env, FillError};
use std::process::ExitCode;
use watch_seam::{Counter, Tracer, Watch};

/// How long an argument may be. No command has one so long.
const ARGUMENT_ROOM: usize = 64;

/// How many groups the tracer of `watch` keeps a line of.
const TRACED_GROUPS: u64 = 8;

/// Ends with the status of the top call. Arguments that are too long are no command.
fn main(rt: HostRuntime) -> ExitCode {
    ExitCode::from(run(&rt).number())
}

fn run(rt: &HostRuntime) -> Status {
    let mut arguments = Arguments::new(rt.alloc());
    let mut argument = [0; ARGUMENT_ROOM];
    for number in 1..usize::MAX {
        match rt.arg(number, &mut argument) {
            Ok(count) => {
                if arguments.push(&argument[..count]).is_err() {
                    return Status::NoMemory;
                }
            }
            Err(FillError::NotPresent) => break,
            Err(FillError::TooLong) => return Status::Words,
        }
    }
    call(rt, &arguments).unwrap_or(Status::NoMemory)
}

/// The top call on standard input and standard output. The watchers are a tracer of the first groups, and a counter that
/// sees all that a run may have.
fn call(rt: &HostRuntime, arguments: &Arguments) -> Result<Status, AllocError> {
    let alloc = rt.alloc();
    let mut watchers: Vec<Box<dyn Watch>> = Vec::new(alloc);
    watchers.push(Box::new(alloc, Tracer::new(alloc, TRACED_GROUPS))?)?;
    watchers.push(Box::new(alloc, Counter::new(GROUP_LIMIT + 1))?)?;
    let mut source = StdSource::new(rt.stdin());
    let mut sink = StdSink::new(rt.stdout());
    Ok(ia64(alloc, arguments, &mut watchers, &mut source, &mut sink))
}

//! `check`: the groups of a program are judged.

ghost use Rattle.std.specs.Prelude.{◌≤◌, length, IfOk};
ghost use Rattle.ia64_top.specs.declared.limits.TheConstants.{INPUT_LIMIT};
ghost use Rattle.ia64_top.specs.Judgements.{IsJudgement, IsCheckedAs};
ghost use Rattle.ia64_top.specs.Readings.{as_either};

use crate::answer::{Answer, accept, take};
use crate::status::Status;
use ia_program::Program;
use std::alloc::{AllocError, Global};

/// The answer of `check` to a program.
fn check_program(alloc: Global, program: &Program) -> Result<Answer, AllocError>
    ensures { IfOk result (λ answer. IsJudgement program.now answer.bytes.items answer.status) }
{
    match accept(alloc, program)? {
        Ok(accepted) => {
            accepted.is_order_independent();
            Ok(Answer {
                bytes: String::from_str(alloc, "accepted\n")?.into_bytes(),
                status: Status::Done,
            })
        }
        Err(answer) => Ok(answer),
    }
}

/// The answer of `check` to an input within the limit.
pub(crate) fn check_input(alloc: Global, input: &[u8]) -> Result<Answer, AllocError>
    requires { length input.now ≤ INPUT_LIMIT }
    ensures { IfOk result (λ answer. IsCheckedAs as_either input.now answer.bytes.items answer.status) }
{
    match take(alloc, input)? {
        Ok(program) => check_program(alloc, &program),
        Err(answer) => Ok(answer),
    }
}

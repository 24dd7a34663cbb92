//! The top call.

ghost use Rattle.std.specs.Prelude.{◌≡◌, ◌≢◌, ◌≤◌, ◌+◌, ◌↔◌, ◌⊎◌, ℕ, List, false, map, None, Some, IsSome, IfSome, IfOk, IfErr, OnOk};
ghost use Rattle.std.specs.Prelude.{vec_len, IsErrOf};
ghost use Rattle.std.specs.Io.KnownBytes.{Appends, IsAtEnd};
ghost use Rattle.io_seam.specs.declared.whole.ReadError.{ReadError};
ghost use Rattle.io_seam.specs.Faults.{Rose};
ghost use Rattle.io_seam.specs.Bytes.{LosesFirst, LosesAtMost};
ghost use Rattle.ia64_top.specs.declared.limits.TheConstants.{INPUT_LIMIT};
ghost use Rattle.ia64_top.specs.Arguments.{command_of, run_arguments, Judges, groups_of, IsTrial, IsWatch};
ghost use Rattle.ia64_top.specs.Statuses.{IsAnswer, IfAnswered, TellsOfProgram, TellsAccepted, EndsTrial};
ghost use Rattle.ia64_top.specs.Inputs.{IsReadOf};
ghost use Rattle.ia_program.specs.Programs.{Program};
ghost use Rattle.ia_meaning.specs.OrderIndependence.{IsOrderIndependent};
ghost use Rattle.order_laws.specs.Violations.{HasNoViolation};
ghost use Rattle.ia64_top.specs.Runs.{run_of, numbered_run_of, end_status, RanNothing, IsNotRun, HaveWatched, HaveWatchedPart};
ghost use Rattle.ia64_top.specs.Readings.{as_either};
ghost use Rattle.trial_maker.specs.Trials.{trial_program};
ghost use Rattle.watch_seam.specs.Watching.{AwaitGroups};
ghost use Rattle.ia64_top.specs.Output.{is_too_long, IsWithinLimit, IfRead, IfCommand, IfTrial, IsProgramOf, IsUnreadable, printing_of, IsOutput, GivesOutput, GivesPart, GivesClashes, GivesTrial, GivesTrialPart, GivesRunOfEveryOrder};

use crate::answer::respond;
use crate::arguments::{Arguments, Command};
use crate::laws::one_output;
use crate::limits::INPUT_LIMIT;
use crate::status::Status;
use asm_build::{no_fault_where_read, one_text_program};
use ia_meaning::{numbered_run_is_parallel, zero_is_start};
use image_form::{image_size, no_fault_where_raw, no_fault_where_spelled, one_program};
use io_seam::{ReadError, Sink, Source, read_all, write_all};
use order_laws::orders_leave_the_same;
use std::alloc::Global;
use stop_placer::{no_fault_where_placed, one_placed};
use watch_seam::Watch;

/// The input of a command: all that the source has left, and nothing for `trial`, which doesn't read.
///
/// # Errors
///
/// Those of [`read_all`](io_seam::read_all).
fn read_input<S: Source>(
    alloc: Global,
    command: Command,
    source: &mut S,
) -> Result<Vec<u8>, ReadError>
    ensures whole { IfOk result (λ bytes. IfSome (S.left source.old) (IsReadOf command bytes.items)) }
    ensures within { IfOk result (λ bytes. vec_len bytes ≤ INPUT_LIMIT) }
    ensures end { OnOk result (¬ IsTrial (Some command) → IsAtEnd (S.left source.new)) }
    ensures untouched { IsTrial (Some command) → (S.left source.new ≡ S.left source.old) × (S.faults source.new ≡ S.faults source.old) }
    ensures reads { IfErr result (λ error. ¬ IsTrial (Some command)) }
    ensures too_long { IfSome (S.left source.old) (λ left.
        IsErrOf result ReadError.TooLong ↔ LosesFirst (INPUT_LIMIT + 1) left (S.left source.new)) }
    ensures fault { IsErrOf result ReadError.ReadFault → Rose (S.faults source.old) (S.faults source.new) }
    ensures taken { IfSome (S.left source.old) (λ left. LosesAtMost (INPUT_LIMIT + 1) left (S.left source.new)) }
    ensures told { IsSome (S.left source.old) ↔ IsSome (S.left source.new) }
    ensures unchanged_faults { OnOk result (S.faults source.new ≡ S.faults source.old) }
    ensures unchanged_at_refusal { IfErr result (λ error. error ≢ ReadError.ReadFault → S.faults source.new ≡ S.faults source.old) }
    ensures never_falls { S.faults source.old ≤ S.faults source.new }
{
    match command {
        Command::Trial { .. } => Ok(Vec::new(alloc)),
        _ => read_all(alloc, source, INPUT_LIMIT),
    }
}

/// Does what the arguments say: reads the whole source, but for `trial`, and writes the whole answer to the sink.
///
/// The watchers see the groups that `watch` runs, one after the other in the order of the list. One that is full has its
/// report written, and is taken out of the list and dropped; the others report at the end and stay. In a report's
/// heading a watcher has the number that it has in the list that is handed in, from 0.
pub fn ia64<S: Source, K: Sink>(
    alloc: Global,
    arguments: &Arguments,
    watchers: &mut Vec<Box<dyn Watch>>,
    source: &mut S,
    sink: &mut K,
) -> Status
    // Each watcher is still to see groups.
    requires room { AwaitGroups (map (λ b. state b) watchers.old.items) }

    // What is written and answered is the stated output of the arguments and of all that the source had.
    ensures output { IfAnswered result (S.left source.old) (λ input.
        GivesOutput arguments.now (map (λ b. state b) watchers.old.items) input (K.given sink.old) (K.given sink.new) result) }

    // No other bytes and no other status are stated for them, so each status comes exactly where its row says.
    ensures only { IfAnswered result (S.left source.old) (λ input.
        (bytes : List ℕ) (status : Status) → IsOutput arguments.now (map (λ b. state b) watchers.old.items) input bytes status →
        (status ≡ result) × Appends (K.given sink.old) (K.given sink.new) bytes) }

    // An input is refused exactly where the command's way of reading finds no program in it.
    ensures refused { IfAnswered result (S.left source.old) (λ input. IfCommand arguments.now (λ command. is_too_long command input ≡ false →
        ((result ≡ Status.Refused) ↔ IsUnreadable command input))) }

    // `accepted` is printed exactly where on no walk two slots of a group break a rule.
    ensures accepted { IfAnswered result (S.left source.old) (λ input. command_of arguments.now ≡ Some Command.Check →
        IfRead input (λ program. (result ≡ Status.Done) ↔ HasNoViolation program)) }

    // What `accepted` promises. Where `check`, `stops` or `trial` is done, or `run`, `watch` or `trace` prints a state, the
    // program is order independent: from every state at an entry, for every number of groups and every order of the writes in
    // each group, groups at once leave what slots one by one leave.
    ensures order_independent { IfAnswered result (S.left source.old) (λ input. IfCommand arguments.now (λ command. TellsAccepted result command →
        (program : Program) → IsProgramOf command input program → IsOrderIndependent program)) }

    // Each state that `run`, `watch` and `trace` print is the one of groups at once from the zero state, whatever the order of
    // their writes, and so is what the watchers report.
    ensures ordered { IfAnswered result (S.left source.old) (λ input. (command : Command) (groups : ℕ) →
        command_of arguments.now ≡ Some command → groups_of command ≡ Some groups → TellsAccepted result command → (program : Program) → as_either.Gives input program →
        GivesRunOfEveryOrder (printing_of command (map (λ b. state b) watchers.old.items)) program groups (K.given sink.old) (K.given sink.new) result) }

    // Of a program without violations `groups` gives what `run` gives for as many groups, the bytes and the status, whatever
    // the number of the order.
    ensures same_as_run { IfAnswered result (S.left source.old) (λ input. (groups number : ℕ) →
        command_of arguments.now ≡ Some (Command.Groups groups number) → IfRead input (λ program. HasNoViolation program →
        GivesOutput (run_arguments groups) (map (λ b. state b) watchers.old.items) input (K.given sink.old) (K.given sink.new) result)) }

    // `check`, `run`, `watch` and `trace` answer with violations exactly where on some walk two slots of a group break a rule.
    ensures judged { IfAnswered result (S.left source.old) (λ input. IfCommand arguments.now (λ command. Judges command →
        IfRead input (λ program. (result ≡ Status.Violated) ↔ (¬ HasNoViolation program)))) }

    // Then the bytes are the number of violations and a line for each of the first ones. Each violation is two slots of a
    // group that on some walk break a rule.
    ensures clashes { result ≡ Status.Violated → IfSome (S.left source.old) (λ input. IfCommand arguments.now (λ command.
        (program : Program) → IsProgramOf command input program → GivesClashes program (K.given sink.old) (K.given sink.new))) }

    // Of any other program the end of the run tells the status: `Done` comes exactly where it is a `break`,
    // `Limit` where it is the limit of groups, and `Faulted` where it is a fault.
    ensures ended { IfAnswered result (S.left source.old) (λ input. (command : Command) (groups : ℕ) →
        command_of arguments.now ≡ Some command → groups_of command ≡ Some groups →
        IfRead input (λ program. HasNoViolation program → result ≡ end_status (run_of program groups).end)) }

    // `groups` runs every program, whether it has violations or not, and the end of its run tells the status.
    ensures ended_at_once { IfAnswered result (S.left source.old) (λ input. (groups number : ℕ) →
        command_of arguments.now ≡ Some (Command.Groups groups number) →
        IfRead input (λ program. result ≡ end_status (numbered_run_of program groups number).end)) }

    // `trial` is done exactly where its program has no violations, and its status is `Violated` exactly where it has some.
    ensures tried { IsAnswer result → IfTrial arguments.now (λ seed bundles.
        ((result ≡ Status.Done) ↔ HasNoViolation (trial_program seed bundles)) × ((result ≡ Status.Violated) ↔ (¬ HasNoViolation (trial_program seed bundles)))) }

    // What `trial` writes, and its status, depend on its two numbers alone, whether the source tells its bytes or not.
    ensures trial_output { IsAnswer result → IfTrial arguments.now (λ seed bundles.
        GivesTrial seed bundles (K.given sink.old) (K.given sink.new) result) }
    ensures trial_part { result ≡ Status.WriteFault → IfTrial arguments.now (λ seed bundles.
        GivesTrialPart seed bundles (K.given sink.old) (K.given sink.new)) }

    // However it ends, it leaves the source as it was, and its end is never one of reading.
    ensures reads_nothing { IsTrial (command_of arguments.now) → (S.left source.new ≡ S.left source.old) × (S.faults source.new ≡ S.faults source.old) × EndsTrial result }

    // After `watch` those watchers stay that aren't full, and have seen all groups that were run, whether the sink failed
    // or not.
    ensures watched { IsAnswer result ⊎ (result ≡ Status.WriteFault) → IfSome (S.left source.old) (λ input. (groups : ℕ) →
        command_of arguments.now ≡ Some (Command.Watch groups) → IsWithinLimit input → HaveWatched groups input (map (λ b. state b) watchers.old.items) (map (λ b. state b) watchers.new.items)) }

    // The list is as it was after every other command, and where nothing was run, whether the sink failed or not.
    ensures only_watch { ¬ IsWatch (command_of arguments.now) → watchers.new ≡ watchers.old }
    ensures not_run { RanNothing result → watchers.new ≡ watchers.old }
    ensures not_run_in_part { result ≡ Status.WriteFault → IfSome (S.left source.old) (λ input. IsNotRun input → watchers.new ≡ watchers.old) }

    // The watchers that stay are still to see groups, so the list may be handed in again.
    ensures still_room { result ≢ Status.NoMemory → AwaitGroups (map (λ b. state b) watchers.new.items) }

    // Where memory ran out in the run, one number tells what all watchers have seen: that many groups, or one more.
    ensures cut_short { result ≡ Status.NoMemory → IfSome (S.left source.old) (λ input. (groups : ℕ) →
        command_of arguments.now ≡ Some (Command.Watch groups) → HaveWatchedPart groups input (map (λ b. state b) watchers.old.items) (map (λ b. state b) watchers.new.items)) }

    // An answer leaves the counts of faults as they were, and, but for `trial`, the source read to its end.
    ensures counts { IsAnswer result → (S.faults source.new ≡ S.faults source.old) × (K.faults sink.new ≡ K.faults sink.old) }
    ensures read { IsAnswer result → result ≢ Status.Words → result ≢ Status.TooLong → ¬ IsTrial (command_of arguments.now) → IsAtEnd (S.left source.new) }

    // Arguments that are no command: nothing is read, and nothing written.
    ensures words { (result ≡ Status.Words) ↔ (command_of arguments.now ≡ None) }
    ensures unread { result ≡ Status.Words → (S.left source.new ≡ S.left source.old) × (K.given sink.new ≡ K.given sink.old) }

    // Where neither failed there is an answer, unless memory ran out.
    ensures complete { ¬ Rose (S.faults source.old) (S.faults source.new) → ¬ Rose (K.faults sink.old) (K.faults sink.new) → IsAnswer result ⊎ (result ≡ Status.NoMemory) }

    // An input that reads as a program gives what the command makes of it, where neither stream failed and memory didn't run out.
    ensures served { ¬ Rose (S.faults source.old) (S.faults source.new) → ¬ Rose (K.faults sink.old) (K.faults sink.new) →
        IfSome (S.left source.old) (λ input. IfCommand arguments.now (λ command. is_too_long command input ≡ false →
        (program : Program) → IsProgramOf command input program → TellsOfProgram result ⊎ (result ≡ Status.NoMemory))) }

    // Faults come from the source and the sink alone.
    ensures read_fault { result ≡ Status.ReadFault → Rose (S.faults source.old) (S.faults source.new) }
    ensures unwritten { (result ≡ Status.TooLong) ⊎ (result ≡ Status.ReadFault) ⊎ (result ≡ Status.NoMemory) → (K.given sink.new ≡ K.given sink.old) × (K.faults sink.new ≡ K.faults sink.old) }
    ensures write_fault { result ≡ Status.WriteFault → Rose (K.faults sink.old) (K.faults sink.new) }
    ensures written_part { result ≡ Status.WriteFault → (¬ IsTrial (command_of arguments.now) → IsAtEnd (S.left source.new)) × (S.faults source.new ≡ S.faults source.old) × IfSome (S.left source.old) (λ input.
        GivesPart arguments.now (map (λ b. state b) watchers.old.items) input (K.given sink.old) (K.given sink.new)) }
    ensures no_memory { result ≡ Status.NoMemory → S.faults source.new ≡ S.faults source.old }

    // Whatever the status: the bytes that are gone from the source are its first ones, at most one
    // more than the limit, and exactly that many where the input is too long.
    ensures taken { IfSome (S.left source.old) (λ input.
        LosesAtMost (INPUT_LIMIT + 1) input (S.left source.new)) }
    ensures too_long { IfSome (S.left source.old) (λ input.
        (result ≡ Status.TooLong) ↔ LosesFirst (INPUT_LIMIT + 1) input (S.left source.new)) }

    // Neither count of faults falls, and bytes are told exactly where they were told before.
    ensures source_never_falls { S.faults source.old ≤ S.faults source.new }
    ensures sink_never_falls { K.faults sink.old ≤ K.faults sink.new }
    ensures source_told { IsSome (S.left source.old) ↔ IsSome (S.left source.new) }
    ensures sink_told { IsSome (K.given sink.old) ↔ IsSome (K.given sink.new) }
{
    image_size();
    one_program();
    one_text_program();
    no_fault_where_spelled();
    no_fault_where_raw();
    no_fault_where_read();
    one_placed();
    no_fault_where_placed();
    orders_leave_the_same();
    zero_is_start();
    numbered_run_is_parallel();
    one_output();
    let Some(command) = arguments.command() else {
        return Status::Words;
    };
    let input = match read_input(alloc, command, source) {
        Ok(input) => input,
        Err(ReadError::ReadFault) => return Status::ReadFault,
        Err(ReadError::TooLong) => return Status::TooLong,
        Err(ReadError::Memory) => return Status::NoMemory,
    };
    let Ok(answer) = respond(alloc, command, &input, watchers) else {
        return Status::NoMemory;
    };
    match write_all(sink, &answer.bytes) {
        Ok(()) => answer.status,
        Err(_) => Status::WriteFault,
    }
}

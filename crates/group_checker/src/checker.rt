//! The check of a program.

ghost use Rattle.std.specs.Prelude.{◌≡◌, ℕ, ◌+◌, ◌*◌, ◌^◌, ◌≤◌, ◌<◌, length, IfOk, OnOk};
ghost use Rattle.ia_program.specs.Places.{place_number};
ghost use Rattle.ia_program.specs.Programs.{Program, IsProgram};
ghost use Rattle.ia_meaning.specs.OrderIndependence.{IsOrderIndependent};
ghost use Rattle.ia_meaning.specs.Sequence.{is_stopped};
ghost use Rattle.flow_facts.specs.Graphs.{over_program};
ghost use Rattle.flow_facts.specs.Walks.{IsSolution};
ghost use Rattle.group_checker.specs.Reports.{IsVerdict};
ghost use Rattle.group_checker.specs.Windows.{HasWindow};
ghost use Rattle.group_checker.specs.Progress.{HasReported, IsEarlier, IsEarlierPair, IsUpTo, ReportsAll, pair_bound, place_bound, second_bound};

use crate::pairs::{are_apart, pair_broken};
use crate::report::{Report, SHOWN_LIMIT, Verdict};
use crate::window::{EarlierSlot, Window};
use flow_facts::{Analysis, InFacts};
use ia_program::{Place, Program};
use resource_sets::{InsnAccesses, accesses_for};
use slot_table::{Slot, SlotTable};
use std::alloc::{AllocError, Global};

/// Reports what is broken by the n-th slot of the window and the second slot, if all that is broken with earlier ones
/// is reported. It stands apart, so that no room is set aside for what is broken where that is soon seen to be nothing.
///
/// # Errors
///
/// Want of memory.
#[inline(never)]
fn report_pair(
    window: &[EarlierSlot],
    n: usize,
    second: Place,
    slot: &Slot,
    seconds: &InsnAccesses,
    report: &mut Report,
) -> Result<(), AllocError>
    requires inside { n < length window.now }
    requires room { report.old.total + pair_bound < 2 ^ 64 }
    requires shown { length report.old.shown ≤ SHOWN_LIMIT }
    ensures total { OnOk result (report.new.total ≤ report.old.total + pair_bound) }
    ensures shown { OnOk result (length report.new.shown ≤ SHOWN_LIMIT) }
    ensures reports { OnOk result ((p : Program) (bound : ℕ) → HasWindow (over_program p) (is_stopped p.bundles) window.now second slot.now seconds.now → HasReported p report.old (IsEarlierPair window.now second n) bound → HasReported p report.new (IsEarlierPair window.now second (n + 1)) (bound + pair_bound)) }
{
    let broken = pair_broken(window, n, slot, seconds);
    report.add_all(window[n].place, second, &broken)?;
    Ok(())
}

/// The same; most slots are soon seen to be apart.
///
/// # Errors
///
/// Want of memory.
fn check_pair(
    window: &[EarlierSlot],
    n: usize,
    second: Place,
    slot: &Slot,
    seconds: &InsnAccesses,
    report: &mut Report,
) -> Result<(), AllocError>
    requires inside { n < length window.now }
    requires room { report.old.total + pair_bound < 2 ^ 64 }
    requires shown { length report.old.shown ≤ SHOWN_LIMIT }
    ensures total { OnOk result (report.new.total ≤ report.old.total + pair_bound) }
    ensures shown { OnOk result (length report.new.shown ≤ SHOWN_LIMIT) }
    ensures reports { OnOk result ((p : Program) (bound : ℕ) → HasWindow (over_program p) (is_stopped p.bundles) window.now second slot.now seconds.now → HasReported p report.old (IsEarlierPair window.now second n) bound → HasReported p report.new (IsEarlierPair window.now second (n + 1)) (bound + pair_bound)) }
{
    if are_apart(window, n, slot, seconds) {
        return Ok(());
    }
    report_pair(window, n, second, slot, seconds, report)
}

/// Reports what is broken with this second slot, if all that is broken with earlier ones is reported. `seconds`
/// has its accesses, `window` are the slots that are earlier in its group.
///
/// # Errors
///
/// Want of memory.
fn check_second(
    window: &[EarlierSlot],
    second: Place,
    slot: &Slot,
    seconds: &InsnAccesses,
    report: &mut Report,
) -> Result<(), AllocError>
    requires place { place_number second < place_bound }
    requires window { length window.now ≤ place_number second }
    requires total { report.old.total ≤ second_bound * place_number second }
    requires shown { length report.old.shown ≤ SHOWN_LIMIT }
    ensures { OnOk result ((p : Program) → HasWindow (over_program p) (is_stopped p.bundles) window.now second slot.now seconds.now → HasReported p report.old (IsEarlier second) (second_bound * place_number second) → HasReported p report.new (IsUpTo second) (second_bound * place_number second + pair_bound * length window.now)) }
{
    for n in 0..window.len() {
        check_pair(window, n, second, slot, seconds, report)?;
    }
    Ok(())
}

/// The report on the program of a table, place after place, by what is known at each.
///
/// # Errors
///
/// Want of memory.
fn check_slots(alloc: Global, table: &SlotTable, facts: &InFacts) -> Result<Report, AllocError>
    requires program { IsProgram table.now }
    requires facts { IsSolution table.now facts.now }
    ensures { IfOk result (ReportsAll table.now) }
{
    let mut report = Report::empty(alloc);
    let mut window = Window::new(alloc);
    let mut second = Place::FIRST;
    'slots: loop {
        let Some(slot) = table.at(second) else {
            unreachable!();
        };
        let seconds = accesses_for(slot.qp, &slot.action);
        check_second(window.earlier_slots(), second, slot, &seconds, &mut report)?;
        window.move_on(facts.at(second), second, slot, seconds)?;
        let Some(after) = slot.next else {
            return Ok(report);
        };
        second = after;
    }
}

/// Whether a program keeps the rules of instruction groups (volume 1, chapter 3, instruction dependencies;
/// volume 3, chapter 5, resource and dependency semantics). It is accepted exactly where no walk breaks a
/// rule; else the answer says how many violations there are, and which come first in order.
///
/// A walk begins at slot 0 of an entry and follows the edges of the program; its group are the places since its
/// last stop or taken edge. Each pair of places is counted once for each rule and resource for which some walk
/// to the second has the first in its group and breaks the rule; nothing else is counted. Of an `alloc` only the
/// slot just before it counts, and of a `clrrrb` only the slot just after it. Reads that a branch makes, two
/// or-writes, two and-writes, spills and fills may share a group: the rules of crate `resource_sets` say which
/// accesses clash. A read or a write after a write, and nothing else, is excused on a walk where the guards of the
/// two accesses are known there not to be both 1, and no slot from the first on and before the second may write
/// the guard of the first. What an entry declares is known where a walk begins there, and not where an edge leads a
/// walk there.
///
/// An accepted program is handed back as one ([`Accepted`](crate::Accepted)), and it is order independent: from every start
/// state, for every number of groups and every order of the writes in each group, groups at once leave what slots one by one
/// leave.
///
/// # Errors
///
/// Want of memory.
pub fn check<'p>(alloc: Global, program: &'p Program) -> Result<Verdict<'p>, AllocError>
    ensures verdict { IfOk result (IsVerdict program.now) }
    ensures order_independent { IfOk result (λ verdict. verdict ≡ Verdict.Accepted program.now → IsOrderIndependent program.now) }
{
    program.is_program();
    let analysis = Analysis::of(alloc, program)?;
    let report = check_slots(alloc, analysis.slots(), analysis.facts())?;
    Ok(report.verdict(analysis))
}

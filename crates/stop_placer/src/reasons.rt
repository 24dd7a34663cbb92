//! The stops of a packed program, and why each stands where it does.

ghost use Rattle.std.specs.Prelude.{◌≡◌, ◌+◌, ◌<◌, Some, if◌then◌else◌, IfOk, OnOk, length};
ghost use Rattle.ia_program.specs.Places.{IsBefore};
ghost use Rattle.ia_program.specs.Programs.{IsProgram, Program};
ghost use Rattle.slot_table.specs.Slots.{slot_at};
ghost use Rattle.flow_facts.specs.Graphs.{over_program};
ghost use Rattle.flow_facts.specs.Walks.{IsSolution};
ghost use Rattle.group_checker.specs.Firsts.{IsFirst};
ghost use Rattle.group_checker.specs.Windows.{Describes};
ghost use Rattle.stop_placer.specs.Placing.{without_stop, IsReason, NamesStops};
ghost use Rattle.stop_placer.specs.Caused.{unstopped, place_in, IsCut, IsDue, NamesAt, AreCaused, IsLastBefore, IsLastUpTo};

use crate::packed::{StopWhy, Why};
use crate::packing::Cause;
use flow_facts::{Analysis, InFacts};
use group_checker::{Violation, Window};
use ia_program::{Place, Program};
use resource_sets::accesses_for;
use slot_table::{Slot, SlotTable};
use std::alloc::{AllocError, Global};

/// A slot without the stop that follows it.
fn unstopped(slot: &Slot) -> Slot
    ensures { result ≡ unstopped slot.now }
{
    Slot {
        action: slot.action,
        qp: slot.qp,
        stop: false,
        falls: slot.falls,
        next: slot.next,
        target: slot.target,
    }
}

/// What stands at a place of a program, where the stop behind the place `out` is left out.
fn slot_without(slot: &Slot, place: Place, out: Place) -> Slot
    ensures describes { (p : Program) → slot_at p.bundles place ≡ Some slot.now → Describes (over_program p) (without_stop p out) place result }
    ensures next { result.next ≡ slot.now.next }
{
    if place == out { unstopped(slot) } else { *slot }
}

/// The first violation that a program has without the stop behind the place `out`, where it has none with it. It comes
/// behind that stop, and is looked for from `behind` on, which a stop comes right before.
///
/// # Errors
///
/// Want of memory.
fn first_without(
    alloc: Global,
    table: &SlotTable,
    facts: &InFacts,
    behind: Place,
    out: Place,
) -> Result<Violation, AllocError>
    requires program { IsProgram table.now }
    requires facts { IsSolution table.now facts.now }
    requires cut { IsCut table.now behind out }
    ensures { IfOk result (IsFirst (over_program table.now) (without_stop table.now out)) }
{
    let mut window = Window::new(alloc);
    let mut second = behind;
    'slots: loop {
        let Some(there) = table.at(second) else {
            unreachable!();
        };
        let slot = slot_without(there, second, out);
        let masks = accesses_for(slot.qp, &slot.action);
        if let Some(violation) = window.first_violation(second, &slot, &masks) {
            return Ok(violation);
        }
        window.move_on(facts.at(second), second, &slot, masks)?;
        let Some(next) = slot.next else {
            unreachable!();
        };
        second = next;
    }
}

/// Why a stop stands behind a place, by the reason of its gap. `behind` is the place right behind the stop before it,
/// or the first.
///
/// # Errors
///
/// Want of memory.
fn why(
    alloc: Global,
    table: &SlotTable,
    facts: &InFacts,
    behind: Place,
    place: Place,
    cause: Cause,
) -> Result<Why, AllocError>
    requires program { IsProgram table.now }
    requires facts { IsSolution table.now facts.now }
    requires cut { cause ≡ Cause.Pair → IsCut table.now behind place }
    ensures { IfOk result (IsReason table.now place cause) }
{
    match cause {
        Cause::Written => Ok(Why::Written),
        Cause::Long => Ok(Why::Long),
        Cause::Pair => {
            let violation = first_without(alloc, table, facts, behind, place)?;
            Ok(Why::Pair(violation))
        }
    }
}

/// Names the stop behind a place, where one stands there, by the reason of its gap.
///
/// # Errors
///
/// Want of memory.
fn name_at(
    alloc: Global,
    table: &SlotTable,
    facts: &InFacts,
    behind: Place,
    place: Place,
    gap: Option<Cause>,
    stops: &mut Vec<StopWhy>,
) -> Result<(), AllocError>
    requires program { IsProgram table.now }
    requires facts { IsSolution table.now facts.now }
    requires due { IsDue table.now behind place gap }
    ensures { OnOk result (NamesAt table.now place gap stops.old.items stops.new.items) }
{
    let Some(slot) = table.at(place) else {
        unreachable!();
    };
    if !slot.stop {
        return Ok(());
    }
    let Some(cause) = gap else {
        unreachable!();
    };
    let why = why(alloc, table, facts, behind, place, cause)?;
    stops.push(StopWhy { after: place, why })?;
    Ok(())
}

/// The number of the last instruction at a place or before, where the n-th is the last before it.
fn last_at(places: &[Place], n: usize, place: Place) -> usize
    requires last { IsLastBefore places.now n place }
    requires rises { n + 2 < length places.now → IsBefore (place_in places.now (n + 1)) (place_in places.now (n + 2)) }
    ensures { IsLastUpTo places.now result place }
{
    if n + 1 < places.len() && places[n + 1] == place {
        n + 1
    } else {
        n
    }
}

/// The place that comes next after the last stop up to a slot, where `behind` is the one for the slot itself and `next`
/// comes next after the slot.
fn behind_stop(slot: &Slot, next: Place, behind: Place) -> Place
    ensures { result ≡ (if slot.now.stop then next else behind) }
{
    if slot.stop { next } else { behind }
}

/// The stops of the program of a table, as [`reasons`] says.
///
/// # Errors
///
/// Want of memory.
fn named(
    alloc: Global,
    table: &SlotTable,
    facts: &InFacts,
    places: &[Place],
    causes: &[Option<Cause>],
) -> Result<Vec<StopWhy>, AllocError>
    requires program { IsProgram table.now }
    requires facts { IsSolution table.now facts.now }
    requires caused { AreCaused table.now places.now causes.now }
    ensures { IfOk result (λ stops. NamesStops table.now (place_in places.now) causes.now stops.items) }
{
    let mut stops = Vec::new(alloc);
    let mut behind = Place::FIRST;
    let mut place = Place::FIRST;
    let mut n = 0;
    'places: loop {
        let Some(slot) = table.at(place) else {
            unreachable!();
        };
        n = last_at(places, n, place);
        name_at(alloc, table, facts, behind, place, causes[n], &mut stops)?;
        let Some(next) = slot.next else {
            return Ok(stops);
        };
        behind = behind_stop(slot, next, behind);
        place = next;
    }
}

/// The stops of a packed program, in order, with their reasons. `places` has the places of its instructions, `causes`
/// the reasons of their gaps. For each pair the two groups beside its stop are gone over once.
///
/// # Errors
///
/// Want of memory.
pub(crate) fn reasons(
    alloc: Global,
    program: &Program,
    places: &[Place],
    causes: &[Option<Cause>],
) -> Result<Vec<StopWhy>, AllocError>
    requires { AreCaused program.now places.now causes.now }
    ensures { IfOk result (λ stops. NamesStops program.now (place_in places.now) causes.now stops.items) }
{
    let analysis = Analysis::of(alloc, program)?;
    analysis.slots().is_program();
    named(alloc, analysis.slots(), analysis.facts(), places, causes)
}

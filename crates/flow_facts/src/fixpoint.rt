//! Facts run to a fixpoint over the places of a program.

ghost use Rattle.std.specs.Prelude.{◌≡◌, ◌≢◌, ◌+◌, ◌<◌, List, length, slice_index_or, All, None, Some, IfOk};
ghost use Rattle.std.specs.Option.{option_copied};
ghost use Rattle.ia_program.specs.declared.place.Place.{Place};
ghost use Rattle.ia_program.specs.Places.{place_at};
ghost use Rattle.predicate_rel.specs.Pairs.{FactRows, no_pairs, pairs_of};
ghost use Rattle.predicate_rel.specs.Edges.{HasEdge, pairs_past};
ghost use Rattle.flow_facts.specs.Graphs.{with_relations};
ghost use Rattle.flow_facts.specs.Walks.{Known, known_at, known_first, IsSolution};
ghost use Rattle.flow_facts.specs.Tables.{Passed, weight, dirty_count, IsWitnessed, IsWitnessedAt, HasCome, IsBetweenSteps, MayPass, marked, place_count};

use crate::dirty::DirtyPlaces;
use crate::table::join;
use ia_insn::Pr;
use ia_program::{Place, Program, Relation};
use predicate_rel::{Edge, Facts};
use slot_table::{SlotTable, place_number};
use std::alloc::{AllocError, Global};
use std::marker::Model;

/// What is known of predicates at each place of a program. Contracts see the list of what is known at
/// the place of each number, as [`InFacts::at`] reads it.
#[derive(Drop)]
pub struct InFacts {
    table: Vec<Option<Facts>>,
}

impl Model for InFacts {
    ghost Value = { List Known };

    ghost view = { λ f. f.table.items };
}

impl InFacts {
    /// What is known before the slot at a place: the pairs of predicates that are known on all walks
    /// that end there. None exactly where no walk ends there.
    pub fn at(&self, place: Place) -> Option<&Facts>
        ensures { option_copied result ≡ known_at self.now place }
    {
        if place.slot > 2 {
            return None;
        }
        self.table.get(place_number(place))?.as_ref()
    }
}

/// Takes what is known at the place of this number along the edge of this sort from its slot, if there is
/// one. The rows of `changed` have changed since that was last done. Those that thereby change at the edge's
/// end are marked there.
#[inline(always)]
fn pass(
    slots: &SlotTable,
    table: &mut [Option<Facts>],
    dirty: &mut DirtyPlaces,
    from: usize,
    edge: Edge,
    changed: u64,
)
    requires from { from < place_count slots.now }
    requires table { length table.old ≡ place_count slots.now }
    requires dirty { length dirty.old ≡ place_count slots.now }
    ensures same_length { length dirty.new ≡ length dirty.old }
    ensures passed { (before : FactRows) → MayPass slots.now (place_at from) edge changed table.old before → Passed slots.now (place_at from) edge (pairs_of before) table.old dirty.old table.new dirty.new }
{
    slots.is_program();
    let Some(slot) = slots.at_number(from) else {
        return;
    };
    let Some(to) = slot.edge_end(edge) else {
        return;
    };
    let to = place_number(to);
    let lost = join(table, from, to, slot, edge, changed);
    if lost != 0 {
        dirty.insert(to, lost);
    }
}

/// Takes what is known at a dirty place along all its edges. It is dirty no more, unless that changes the
/// place itself.
fn spread(slots: &SlotTable, table: &mut [Option<Facts>], dirty: &mut DirtyPlaces, from: usize)
    requires from { from < place_count slots.now }
    requires dirty { slice_index_or dirty.old from 0 ≢ 0 }
    requires under_way { IsBetweenSteps slots.now table.old dirty.old }
    ensures under_way { IsBetweenSteps slots.now table.new dirty.new }
    ensures less { weight table.new + dirty_count dirty.new < weight table.old + dirty_count dirty.old }
{
    let changed = dirty.take(from);
    if table[from].is_none() {
        return;
    }
    pass(slots, table, dirty, from, Edge::Falls, changed);
    pass(slots, table, dirty, from, Edge::Taken, changed);
}

/// Goes on from the lowest dirty place until none is left. This ends, since a place gets dirty only where
/// the table loses something.
fn settle(slots: &SlotTable, table: &mut [Option<Facts>], dirty: &mut DirtyPlaces)
    requires { IsBetweenSteps slots.now table.old dirty.old }
    ensures under_way { IsBetweenSteps slots.now table.new dirty.new }
    ensures clean { (place : Place) → marked dirty.new place ≡ 0 }
{
    'settling: while let Some(from) = dirty.lowest() {
        spread(slots, table, dirty, from);
    }
}

/// What the relations declare, each of two predicates.
fn declared(relations: &[Relation]) -> Facts
    requires { All (λ r. (r.p < r.q) × (r.q < 64)) relations.now }
    ensures { pairs_of result ≡ with_relations no_pairs relations.now }
{
    let mut facts = Facts::empty();
    for relation in relations {
        let lower = Pr::of_field(u64::from(relation.p));
        let higher = Pr::of_field(u64::from(relation.q));
        facts = facts.plus(lower, higher);
    }
    facts
}

/// What is known where a walk begins at the entry: what the entry declares.
fn known_first(program: &Program, bundle: u32) -> Facts
    ensures { pairs_of result ≡ known_first program.now bundle }
{
    program.is_program();
    declared(program.relations_at(bundle))
}

/// Begins with the entries, where what they declare is known.
fn enter(program: &Program, table: &mut [Option<Facts>], dirty: &mut DirtyPlaces)
    requires table { length table.old ≡ place_count program.now }
    requires dirty { length dirty.old ≡ place_count program.now }
    requires unknown { (place : Place) → known_at table.old place ≡ None }
    ensures { IsBetweenSteps program.now table.new dirty.new }
{
    for bundle in 0..program.bundle_count() {
        if program.is_entry(bundle) {
            let first = place_number(Place { bundle, slot: 0 });
            table[first] = Some(known_first(program, bundle));
            dirty.insert(first, u64::MAX);
        }
    }
}

/// What is known of predicates at each place of a program: exactly the meet over all walks that end
/// there (volume 1, chapter 3, instruction sequencing and predication). It goes on from the lowest place
/// that has changed until none is left, with what the rows that changed there have a part in.
///
/// # Errors
///
/// Want of memory.
pub fn solve(alloc: Global, slots: &SlotTable) -> Result<InFacts, AllocError>
    ensures { IfOk result (λ facts. IsSolution slots.now facts) }
{
    let program = slots.program();
    let count = 3 * program.bundle_count() as usize;
    let mut table = vec![in alloc; None; count]?;
    let mut dirty = DirtyPlaces::none(alloc, count)?;
    let places = table.as_mut_slice();
    enter(program, places, &mut dirty);
    settle(slots, places, &mut dirty);
    Ok(InFacts { table })
}

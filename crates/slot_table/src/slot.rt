//! Slots.

ghost use Rattle.std.specs.Prelude.{◌≡◌};
ghost use Rattle.slot_table.specs.Slots.{slot_at, edge_from};

use crate::edges::{is_stopped, may_fall, next, target};
use ia_insn::Pr;
use ia_meaning::{Action, action_of};
use ia_program::{Place, Program};
use predicate_rel::Edge;

/// What can be said of the instruction at a place before it runs.
#[derive(Clone, Copy)]
pub struct Slot {
    /// The action of the instruction.
    pub action: Action,
    /// Its qualifying predicate.
    pub qp: Pr,
    /// Whether a stop follows.
    pub stop: bool,
    /// Whether control may fall through: not from a branch or `break` under p0, but for loop branches.
    pub falls: bool,
    /// The next place, where there is one.
    pub next: Option<Place>,
    /// Slot 0 of the target of a direct branch or check.
    pub target: Option<Place>,
}

impl Slot {
    /// The slot at a place of a program. None exactly where there is no such place.
    #[tactic(auto, unfolding(crate::specs::Slots::slot_at))]
    pub(crate) fn at(program: &Program, place: Place) -> Option<Slot>
        ensures { result ≡ slot_at program.now.bundles place }
    {
        program.is_program();
        let insn = program.insn_at(place)?;
        let action = action_of(&insn.op);
        Some(Slot {
            action,
            qp: insn.qp,
            stop: is_stopped(program, place),
            falls: may_fall(insn.qp, &action),
            next: next(program, place),
            target: target(place.bundle, &action),
        })
    }

    /// Where the edge of this sort leads: a fall to the next place, a taken direct branch or check to slot 0
    /// of its target (volume 1, chapter 3, instruction sequencing). None exactly where there is no such edge.
    pub fn edge_end(&self, edge: Edge) -> Option<Place>
        ensures { result ≡ edge_from self.now edge }
    {
        match edge {
            Edge::Falls => { if self.falls { self.next } else { None } }
            Edge::Taken => self.target,
        }
    }
}

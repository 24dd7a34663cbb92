//! What a set loses where what comes along an edge to it has lost something.

ghost use Rattle.std.specs.Prelude.{◌≡◌, ◌≢◌, ℕ, ◌<◌, true};
ghost use Rattle.predicate_rel.specs.declared.edge.Edge.{Edge};
ghost use Rattle.predicate_rel.specs.Pairs.{Pairs, has_bit, pairs_of};
ghost use Rattle.predicate_rel.specs.Changes.{AgreeOutside, Narrows};
ghost use Rattle.predicate_rel.specs.Rules.{action_rule, pairs_by};

use crate::bits::{all_if, either, has_bit, lowest, moved_up, with_bit, with_bit_where, without};
use crate::edge::Edge;
use crate::facts::Facts;
use crate::rows::keeps_pairs;
use ia_insn::Pr;
use ia_meaning::Action;

/// The rows that may be others past an instruction of this action where those of `changed` are others before it,
/// and those themselves. Each row asks for itself. What is written also asks for the row of the qualifying
/// predicate, the second target of a test for the pair of both targets in the row of the first, and a
/// rotation for the row before.
fn reached(action: &Action, qp: Pr, changed: u64) -> u64
    ensures reached { (edge : Edge) (f g : Pairs) → AgreeOutside changed f g → AgreeOutside result (pairs_by f (action_rule action.now edge qp)) (pairs_by g (action_rule action.now edge qp)) }
    ensures changed { (x : ℕ) → x < 64 → has_bit changed x ≡ true → has_bit result x ≡ true }
{
    match *action {
        Action::Test { p1, p2, .. } => {
            let own = with_bit_where(changed, p2.number(), has_bit(changed, p1.number()));
            either(own, all_if(has_bit(changed, qp.number())))
        }
        Action::ToPredicates { .. } => either(changed, all_if(has_bit(changed, qp.number()))),
        Action::Loop { .. } => either(changed, moved_up(changed)),
        _ => changed,
    }
}

impl Facts {
    /// The same as [`Facts::narrow`], where all rows are looked at. It stands apart, so that no room is set aside for another
    /// set where only some are.
    #[inline(never)]
    fn narrow_whole(&mut self, before: &Facts, action: &Action, qp: Pr, edge: Edge) -> u64
        ensures { (changed : ℕ) → Narrows (action_rule action.now edge qp) changed (pairs_of before.now) (pairs_of self.old) (pairs_of self.new) result }
    {
        self.intersect(&before.after_action(action, qp, edge), u64::MAX)
    }

    /// The same as [`Facts::narrow`]; it says the same of an instruction that leaves what is known as it is, and takes longer.
    #[inline(never)]
    fn narrow_past(
        &mut self,
        before: &Facts,
        action: &Action,
        qp: Pr,
        edge: Edge,
        changed: u64,
    ) -> u64
        ensures { Narrows (action_rule action.now edge qp) changed (pairs_of before.now) (pairs_of self.old) (pairs_of self.new) result }
    {
        let rows = reached(action, qp, changed);
        if rows == u64::MAX {
            return self.narrow_whole(before, action, qp, edge);
        }
        let mut rest = rows;
        let mut lost = 0;
        'narrowing: while rest != 0 {
            let x = lowest(rest);
            rest = without(rest, x);
            if self.narrow_row(x, before.action_row(action, edge, qp, x)) {
                lost = with_bit(lost, x, true);
            }
        }
        lost
    }

    /// Leaves of the set what is also known past an instruction of this action under this qualifying predicate,
    /// before which `before` is known, where control goes on along the edge. Answers a word of rows, bit x that
    /// of the pairs of the x-th predicate: the others lost nothing, and it is 0 where nothing was lost.
    ///
    /// So it is where `changed` has all rows, or where the set is within what followed from an older set, which
    /// had other pairs than `before` in no rows but those of `changed`. Only the rows that these have a part
    /// in are looked at: else the set may keep more, but it never gets a pair, nor loses one that is also known
    /// past the instruction.
    #[inline(always)]
    pub fn narrow(
        &mut self,
        before: &Facts,
        action: &Action,
        qp: Pr,
        edge: Edge,
        changed: u64,
    ) -> u64
        ensures { Narrows (action_rule action.now edge qp) changed (pairs_of before.now) (pairs_of self.old) (pairs_of self.new) result }
    {
        if keeps_pairs(action, edge) {
            self.intersect(before, changed)
        } else {
            self.narrow_past(before, action, qp, edge, changed)
        }
    }
}

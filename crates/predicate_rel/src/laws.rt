//! Laws of what is known of predicates: pairs are unordered, and true of each step. They do nothing.

ghost use Rattle.std.specs.Prelude.{ℕ};
ghost use Rattle.ia_insn.specs.declared.insn.Insn.{Insn};
ghost use Rattle.predicate_rel.specs.declared.edge.Edge.{Edge};
ghost use Rattle.predicate_rel.specs.Pairs.{Pairs, no_pairs, common, with_pair, IsUnordered};
ghost use Rattle.predicate_rel.specs.Rules.{pairs_after};
ghost use Rattle.predicate_rel.specs.Steps.{GoesAlong, KeepsFacts};

use state_laws::steps_keep_states;

/// The order of a pair says nothing, and (x, x) stands for (x, p0): so it is of the empty set, and so it stays in
/// a meet, with one pair more, and after an instruction.
#[tactic(auto, using(crate::proofs::Unordered::none_unordered, crate::proofs::Unordered::common_unordered, crate::proofs::Unordered::plus_unordered, crate::proofs::Unordered::after_unordered))]
pub fn pairs_are_unordered()
    ensures empty { IsUnordered no_pairs }
    ensures meet { (f g : Pairs) → IsUnordered f → IsUnordered g → IsUnordered (common f g) }
    ensures plus { (f : Pairs) (x y : ℕ) → IsUnordered f → IsUnordered (with_pair f x y) }
    ensures after { (f : Pairs) (insn : Insn) (edge : Edge) → IsUnordered f → IsUnordered (pairs_after f insn edge) }
{}

/// A step of a program that doesn't end the run follows an edge: a slot that falls through goes to the
/// next place, and a direct branch or a check that is taken to its target. An indirect branch, a return
/// or an indirect call that is taken lands on an entry instead, in a state from which a run may start.
///
/// Along the edge, what an instruction leaves of a set of pairs is true: where the two predicates of no
/// pair of the set were both 1 before, those of no pair that is left are both 1 afterwards (volume 1,
/// chapter 3, instruction sequencing and predication).
pub fn facts_stay_true()
    ensures along { GoesAlong }
    ensures facts { KeepsFacts }
{
    steps_keep_states();
}

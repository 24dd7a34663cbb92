//! Sets of pairs of predicates that are known not to be both 1.

ghost use Rattle.std.specs.Prelude.{◌≡◌, ◌≢◌, ℕ, ◌<◌, ◌&&◌, ◌||◌, ◌==◌, if◌then◌else◌, not, true};
ghost use Rattle.std.specs.Bool.{OnTrue, OnFalse};
ghost use Rattle.predicate_rel.specs.Pairs.{FactRows, has_bit, pairs_of, no_pairs, other_of, is_same_pair, with_pair, HasMore};
ghost use Rattle.predicate_rel.specs.Changes.{AgreeOutside};
ghost use Rattle.predicate_rel.specs.Rules.{action_rule, pairs_by, pairs_after};

use crate::bits::{both, has_bit, is_within, lowest, with_bit, with_bit_where, without};
use crate::edge::Edge;
use crate::rows::keeps_pairs;
use ia_insn::{Insn, Pr};
use ia_meaning::{Action, action_of};
use std::marker::Model;

/// A set of pairs of predicates that are known not to be both 1 (volume 1, chapter 3, instruction
/// dependencies). The order of a pair says nothing, and a pair (x, x) stands for (x, p0): since p0 is 1, it
/// says that x is 0. The functions here keep that ([`pairs_are_unordered`](crate::pairs_are_unordered)).
/// A set is 512 bytes, and none of them
/// takes other memory.
#[derive(Clone, Copy)]
pub struct Facts {
    rows: [u64; 64],
}

impl Model for Facts {
    ghost Value = { FactRows };

    ghost view = { λ facts. facts.rows };

    ghost inverse = { λ rows. record { rows = rows } };
}

/// The second predicate of a pair, p0 where it is the first.
fn other_of(x: u8, y: u8) -> u8
    ensures other { result ≡ other_of x y }
    ensures range { y < 64 → result < 64 }
{
    if x == y { 0 } else { y }
}

/// Whether two pairs are one, in either order.
fn is_same_pair(a: u8, b: u8, x: u8, y: u8) -> bool
    ensures { result ≡ is_same_pair a b x y }
{
    (x == a && y == b) || (x == b && y == a)
}

impl Facts {
    /// The set without a pair: nothing is known.
    pub fn empty() -> Self
        ensures { pairs_of result ≡ no_pairs }
    {
        Facts { rows: [0; 64] }
    }

    /// Whether the pair is in the set.
    pub fn has(&self, x: Pr, y: Pr) -> bool
        ensures { result ≡ pairs_of self.now x y }
    {
        self.at(x.number(), y.number())
    }

    /// The same set and this pair, in both orders; (x, x) is also (x, p0).
    pub fn plus(&self, x: Pr, y: Pr) -> Facts
        ensures { pairs_of result ≡ with_pair (pairs_of self.now) x y }
    {
        let mut rows = [0; 64];
        for row in 0..64u8 {
            rows[row as usize] = self.row_with(row, x.number(), y.number());
        }
        Facts { rows }
    }

    /// What is known after an instruction from what is known before it, where control goes on along the edge
    /// (volume 3, chapter 2). Every instruction has an answer on both edges, also on one that never leaves it;
    /// the rules are meant for listed instructions, whose loop branches are under p0 where they count.
    #[tactic(auto, unfolding(crate::specs::Rules::pairs_after, crate::specs::Rules::rule_of))]
    pub fn after(&self, insn: &Insn, edge: Edge) -> Facts
        ensures { pairs_of result ≡ pairs_after (pairs_of self.now) insn.now edge }
    {
        self.after_action(&action_of(&insn.op), insn.qp, edge)
    }

    /// What is known after an instruction of this action under this qualifying predicate, from what is known before it, where
    /// control goes on along the edge.
    #[inline(never)]
    pub fn after_action(&self, action: &Action, qp: Pr, edge: Edge) -> Facts
        ensures { pairs_of result ≡ pairs_by (pairs_of self.now) (action_rule action.now edge qp) }
    {
        let mut after = *self;
        after.go_past(action, qp, edge);
        after
    }

    /// Takes the set past an instruction of this action under this qualifying predicate, as [`Facts::after_action`] has it.
    #[inline(always)]
    pub fn go_past(&mut self, action: &Action, qp: Pr, edge: Edge)
        ensures { pairs_of self.new ≡ pairs_by (pairs_of self.old) (action_rule action.now edge qp) }
    {
        if !keeps_pairs(action, edge) {
            self.change(action, qp, edge);
        }
    }

    /// The same, row by row. It stands apart, so that no room is set aside for another set where what is known stays.
    #[inline(never)]
    fn change(&mut self, action: &Action, qp: Pr, edge: Edge)
        ensures { pairs_of self.new ≡ pairs_by (pairs_of self.old) (action_rule action.now edge qp) }
    {
        let before = *self;
        let mut rest = before.may_change(action, qp, edge);
        'changing: while rest != 0 {
            let x = lowest(rest);
            rest = without(rest, x);
            self.set_row(x, before.action_row(action, edge, qp, x));
        }
    }

    /// Sets the pairs of the x-th predicate.
    #[inline(always)]
    fn set_row(&mut self, x: u8, row: u64)
        requires { x < 64 }
        ensures { (k y : ℕ) → k < 64 → y < 64 → pairs_of self.new k y ≡ (if k == x then has_bit row y else pairs_of self.old k y) }
    {
        self.rows[x as usize] = row;
    }

    /// Whether both are seen to be one set.
    pub fn is_same(&self, other: &Facts) -> bool
        ensures { result ≡ true → pairs_of self.now ≡ pairs_of other.now }
    {
        self.rows == other.rows
    }

    /// Whether the pair of the x-th and the y-th predicate is in the set, each below 64.
    pub(crate) fn at(&self, x: u8, y: u8) -> bool
        requires left { x < 64 }
        requires right { y < 64 }
        ensures { result ≡ pairs_of self.now x y }
    {
        has_bit(self.rows[x as usize], y)
    }

    /// The pairs of the x-th predicate.
    pub(crate) fn row(&self, x: u8) -> u64
        requires { x < 64 }
        ensures { (y : ℕ) → y < 64 → has_bit result y ≡ pairs_of self.now x y }
    {
        self.rows[x as usize]
    }

    /// Leaves of the pairs of the x-th predicate those that are also in `row`, and says whether that is less.
    pub(crate) fn narrow_row(&mut self, x: u8, row: u64) -> bool
        requires { x < 64 }
        ensures narrowed { (k y : ℕ) → pairs_of self.new k y ≡ (pairs_of self.old k y && (not (k == x) || has_bit row y)) }
        ensures more { OnTrue result (HasMore (pairs_of self.old) (pairs_of self.new)) }
        ensures same { OnFalse result (self.new ≡ self.old) }
    {
        let old = self.row(x);
        if is_within(old, row) {
            return false;
        }
        self.rows[x as usize] = both(old, row);
        true
    }

    /// Leaves of the set, in the rows of the word, the pairs that are also in the other. Returns a word of the rows that
    /// lost something, bit x that of the pairs of the x-th predicate.
    #[inline(always)]
    pub(crate) fn intersect(&mut self, other: &Facts, rows: u64) -> u64
        ensures common { (x y : ℕ) → pairs_of self.new x y ≡ (pairs_of self.old x y && (not (has_bit rows x) || pairs_of other.now x y)) }
        ensures lost { AgreeOutside result (pairs_of self.old) (pairs_of self.new) }
        ensures more { result ≢ 0 → HasMore (pairs_of self.old) (pairs_of self.new) }
    {
        let mut rest = rows;
        let mut lost = 0;
        'narrowing: while rest != 0 {
            let x = lowest(rest);
            rest = without(rest, x);
            if self.narrow_row(x, other.row(x)) {
                lost = with_bit(lost, x, true);
            }
        }
        lost
    }

    /// The pairs of the x-th predicate, and that of `a` and `b`.
    fn row_with(&self, x: u8, a: u8, b: u8) -> u64
        requires range { x < 64 }
        requires first { a < 64 }
        requires second { b < 64 }
        ensures { (y : ℕ) → y < 64 → has_bit result y ≡ (pairs_of self.now x y || is_same_pair a (other_of a b) x (other_of x y)) }
    {
        let b = other_of(a, b);
        let row = with_bit_where(self.row(x), b, x == a);
        let row = with_bit_where(row, a, x == b);
        with_bit_where(row, x, is_same_pair(a, b, x, 0))
    }
}

//! The laws of groups: the walk of a run, what slots see, the order of writes, what is there after a group, and
//! fetch-and-adds. They do nothing.

ghost use Rattle.order_laws.specs.Traces.{KnownOnRuns, StepsKnown, WalksGroup, RunIsTraced, RunsKeepState, RunsAreKnown, SolutionIsTrue};
ghost use Rattle.order_laws.specs.Agreement.{ViewsAgree, OthersSeeTheStart, AllSeeTheStart};
ghost use Rattle.order_laws.specs.OrderLaws.{OrdersLeaveTheSame, OrdersChangeFramesTheSame, GroupIsOrdered, NextGroupIsOrdered, FreeIsOrderIndependent};
ghost use Rattle.order_laws.specs.GroupSlots.{SlotsLead};
ghost use Rattle.order_laws.specs.Targets.{TargetsStand, NextTargetsStand};
ghost use Rattle.order_laws.specs.FetchAdds.{FetchAddsFindSums, FetchAddsAreSummed, FetchAddTargetsStand, TwoFetchAdds};
ghost use Rattle.order_laws.specs.OrderExamples.{TwoOrders, TwoMoves, FirstAlloc, LateAlloc, BranchPredicate, BranchRegister, ReturnState, ParallelCompares, MemoryOrder, SpillsAndFills, LaterWrites};

/// What a run has to do with walks, along each sequential run from a start state. The slots since the start, or since an indirect
/// branch was last taken, are a walk to the state's place. What the walk's entry declares is known where the walk begins. The
/// predicates of no pair that is known on the walk are both 1. The group of the walk is that of the run.
pub fn runs_follow_walks()
    ensures known { KnownOnRuns }
    ensures steps { StepsKnown }
    ensures group { WalksGroup }
    ensures run { RunIsTraced }
    ensures state { RunsKeepState }
    ensures known_of_run { RunsAreKnown }
    ensures table { SolutionIsTrue }
{}

/// A slot sees the registers of the group's start. A branch sees four things as earlier slots left them: its qualifying
/// predicate, p1 to p15 where it is indirect, the branch register that holds its target, and what a return reads of the previous
/// function state.
///
/// In each group of a program without violations the writes so far, in every order, leave the state that the slots leave one by
/// one, and the next slot does the same from its view and from that state.
pub fn slots_see_the_start()
    ensures others { OthersSeeTheStart }
    ensures start { AllSeeTheStart }
    ensures agree { ViewsAgree }
{}

/// Writes that fit together leave the same in every order. A group of a program without violations leaves in every order what its
/// slots leave one by one, and so does each run.
pub fn orders_leave_the_same()
    ensures registers { OrdersLeaveTheSame }
    ensures frames { OrdersChangeFramesTheSame }
    ensures group { GroupIsOrdered }
    ensures next { NextGroupIsOrdered }
    ensures run { FreeIsOrderIndependent }
{}

/// The slots of a group, one after the other, lead to what is gathered of it.
///
/// What a slot other than an `alloc` gives a general register is there after its group, in every order of the group's writes,
/// unless it is a cell past the end of the frame then. That holds in each group of a program without violations: from each state
/// to which a walk leads whose facts are true there, and so in the next group of each run from a start state.
pub fn targets_are_kept()
    ensures slots { SlotsLead }
    ensures group { TargetsStand }
    ensures next { NextTargetsStand }
{}

/// The law of groups whose only accesses to memory are fetch-and-adds of one size under p0 to one address. Each finds there what
/// was there before the group, with the increments of the earlier ones. The group leaves there the sum with all of them, in every
/// order of its writes. Sums are modulo 2 to the power of their bits. What such a slot gives its target is there after the group,
/// as what each slot gives a general register is ([`targets_are_kept`]). A group of two is an example.
pub fn fetch_adds_are_summed()
    ensures values { FetchAddsFindSums }
    ensures memory { FetchAddsAreSummed }
    ensures targets { FetchAddTargetsStand }
    ensures example { TwoFetchAdds }
{}

/// Examples over the definitions alone. A group of two writes of r14, 1 and then 2, leaves 2 in program order and
/// 1 in the other one, and the like of other registers.
///
/// For each exception a group that stands on it: what it leaves, and, but for parallel compares, what one of its
/// slots would do that saw no more than the group's start. Why `alloc` has to be first: else two orders leave two
/// values. And a program that isn't order independent: an order of its second group tells, from a state other than
/// the zero state, from which the same order leaves the same.
pub fn orders_may_differ()
    ensures orders { TwoOrders }
    ensures moves { TwoMoves }
    ensures first_alloc { FirstAlloc }
    ensures late_alloc { LateAlloc }
    ensures branch_predicate { BranchPredicate }
    ensures branch_register { BranchRegister }
    ensures return_state { ReturnState }
    ensures parallel_compares { ParallelCompares }
    ensures memory_order { MemoryOrder }
    ensures spills_and_fills { SpillsAndFills }
    ensures later_writes { LaterWrites }
{}

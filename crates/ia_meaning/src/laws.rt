//! Laws that tie the tests and functions of the meaning to the definitions of programs and states, the law
//! that a run may start from the zero state, and the laws of the orders of writes and of addresses. They do
//! nothing.

ghost use Rattle.ia_meaning.specs.Frames.{FrameTest};
ghost use Rattle.ia_meaning.specs.Landings.{EntryTest, RelationTest, EntryIsAtItsAddress};
ghost use Rattle.ia_meaning.specs.Loads.{ByteIsAtItsAddress};
ghost use Rattle.ia_meaning.specs.State.{ZeroIsStart};
ghost use Rattle.ia_meaning.specs.Sequence.{NextPlace, StopTest};
ghost use Rattle.ia_meaning.specs.WriteOrders.{PermutationsHaveCodes, CodesArePermutations};
ghost use Rattle.ia_meaning.specs.NumberedRuns.{NumberedRunIsParallel};
ghost use Rattle.ia_meaning.specs.Runs.{StaysInside, SeqGroupEnds, ParGroupEnds, BeginsUnderWay, AdvancesUnderWay, GoesOnUnderWay, HasFewSlots, GroupsEnd, ProgressIsRun, EventIsOfGroup, RestOfGroup, EventsAreOfRun, FramesAreOfRun, ProgressTextIsRunText};

/// The test of entries says of each bundle whether it is one.
pub fn entry_test()
    ensures { EntryTest }
{}

/// The test of relations says of each bundle whether a declared relation of it is broken.
pub fn relation_test()
    ensures { RelationTest }
{}

/// The test of frames says of each whether it is one.
pub fn frame_test()
    ensures { FrameTest }
{}

/// A run may start from the zero state.
pub fn zero_is_start()
    ensures { ZeroIsStart }
{}

/// The function of next places gives the first place after another, where there is one.
pub fn next_place()
    ensures { NextPlace }
{}

/// The test of stops says of each place whether one follows it.
pub fn stop_test()
    ensures { StopTest }
{}

/// Every permutation of a list of writes is its order under some code, and the order under a code is a
/// permutation.
pub fn permutations_have_codes()
    ensures codes { PermutationsHaveCodes }
    ensures permutations { CodesArePermutations }
{}

/// A run whose groups are in the order with a number is a run all at once, with the codes of that number.
pub fn numbered_run_is_parallel()
    ensures { NumberedRunIsParallel }
{}

/// From the address of an entry an indirect branch lands on it, where it breaks none of its relations, and a
/// load from the address of a data byte gives that byte.
pub fn addresses()
    ensures entries { EntryIsAtItsAddress }
    ensures bytes { ByteIsAtItsAddress }
{}

/// A run of a program stays at its places, and each of its groups ends: it has at most
/// [`RUN_LIMIT`](ia_program::limits::RUN_LIMIT) slots (volume 1, chapter 3, instruction sequencing).
pub fn groups_end()
    ensures inside { StaysInside }
    ensures one_by_one { SeqGroupEnds }
    ensures all_at_once { ParGroupEnds }
    ensures begins { BeginsUnderWay }
    ensures advances { AdvancesUnderWay }
    ensures goes_on { GoesOnUnderWay }
    ensures few { HasFewSlots }
    ensures ends { GroupsEnd }
{}

/// A run under way comes to where the whole run of as many groups leaves off, with the same events and
/// frame changes. Between two groups, the event of its next group is that of the sequential group, and a
/// step within a group changes neither its event nor where it comes to.
pub fn progress_is_run()
    ensures run { ProgressIsRun }
    ensures event { EventIsOfGroup }
    ensures rest { RestOfGroup }
    ensures events { EventsAreOfRun }
    ensures frames { FramesAreOfRun }
{}

/// A run under way and the whole run of as many groups print the same.
pub fn progress_text_is_run_text()
    ensures { ProgressTextIsRunText }
{}

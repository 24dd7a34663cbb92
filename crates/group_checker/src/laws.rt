//! The laws of the check: the order of violations, and windows. They do nothing.

ghost use Rattle.group_checker.specs.Order.{PlacesInOrder, RulesInOrder, ResourcesInOrder, NumbersInOrder};
ghost use Rattle.group_checker.specs.WindowLaws.{FirstWindow, PartedWindow, SlotsDescribe, FallsRise, GroupsRise, GroupsAgree, ViolationsAgree, WindowsAgree};
ghost use Rattle.group_checker.specs.Reports.{OneVerdict};

/// The order in which violations are shown: places by bundle and slot, rules from RAW to CLEAR, resources from general
/// registers to the frame marker, and those of one sort by their numbers.
pub fn violations_in_order()
    ensures places { PlacesInOrder }
    ensures rules { RulesInOrder }
    ensures resources { ResourcesInOrder }
    ensures numbers { NumbersInOrder }
{}

/// The window of a first place is empty, and so is that of a place that a stop comes before. A slot of a program
/// describes what stands at its place.
///
/// A fall leads to a later place, so the earlier slots of a group come before the walk's end, and groups, violations and
/// windows only look at the stops of places that come before.
pub fn windows_begin_behind_stops()
    ensures first { FirstWindow }
    ensures parted { PartedWindow }
    ensures slots { SlotsDescribe }
    ensures falls { FallsRise }
    ensures rises { GroupsRise }
    ensures groups { GroupsAgree }
    ensures violations { ViolationsAgree }
    ensures windows { WindowsAgree }
{}

/// The law that a program has one verdict: no other count and no other list is stated for it. It does
/// nothing.
pub fn one_verdict()
    ensures { OneVerdict }
{}

//! Runs of groups all at once, in several calls. What one call leaves is tested with the whole program.

ghost use Rattle.std.specs.Prelude.{◌≡◌};
ghost use Rattle.group_engine.specs.Engine.{end_of};

use crate::program::program_of;
use group_engine::{GroupMachine, group_text};
use ia_program::{End, Place};
use slot_table::SlotTable;
use std::alloc::Global;
use std::process::Abort;
use std::test::Fail;

/// A loop of four turns, and then a group that writes r14 twice, and reads it behind the writes.
const TEXT: &str = "{ .mii
nop.m 0
mov.i ar.lc=3
nop.i 0 ;;
}
loop:
{ .mib
adds r8=1,r8
nop.i 0
br.cloop.sptk.few loop ;;
}
{ .mii
adds r14=1,r0
adds r14=2,r0
add r15=r14,r8
}
{ .mib
nop.m 0
nop.i 0
break.b 0 ;;
}
";

/// The state that it ends in where the second write comes last.
const SECOND_LAST: &str = "end break 0x0 at 3.2
groups 6
frame 0 sof 0 sol 0 sor 0 rrb 0 0 0
rse 0 0 0 0
r8 0000000000000004
r14 0000000000000002
r15 0000000000000004
pr 0000000000000001
";

/// The state that it ends in where the first one comes last.
const FIRST_LAST: &str = "end break 0x0 at 3.2
groups 6
frame 0 sof 0 sol 0 sor 0 rrb 0 0 0
rse 0 0 0 0
r8 0000000000000004
r14 0000000000000001
r15 0000000000000004
pr 0000000000000001
";

/// The state of an engine at this end.
fn has_state(
    rt: &impl Abort,
    alloc: Global,
    machine: &GroupMachine,
    end: &End,
    state: &str,
) -> Result<(), Fail>
    requires { end.now ≡ end_of machine.now }
{
    let text = group_text(alloc, machine, end)?;
    assert!(rt; text.as_slice() == state.as_bytes());
    Ok(())
}

/// Three groups come to the limit, and no end.
fn comes_to_the_limit(rt: &impl Abort, machine: &mut GroupMachine) {
    assert_eq!(rt; machine.groups(), 0);
    let limit = machine.run(3, 1);
    assert_eq!(rt; machine.groups(), 3);
    assert!(rt; machine.end().is_none());
    let place = machine.place();
    assert!(rt; limit == End::Limit { place });
}

/// Two calls, of which the first comes to no end, leave what one leaves. The order matters in the second alone.
#[test]
fn two_calls_come_to_what_one_comes_to(rt: HostRuntime) -> Result<(), Fail> {
    let alloc = rt.alloc();
    let program = program_of(&rt, alloc, TEXT)?;
    let slots = SlotTable::open(alloc, &program)?;
    let mut machine = GroupMachine::open(alloc, &slots)?;
    comes_to_the_limit(&rt, &mut machine);
    assert_eq!(rt; machine.groups(), 3);
    let end = machine.run(97, 1);
    has_state(&rt, alloc, &machine, &end, FIRST_LAST)
}

/// The engine is at this end, in the sixth group.
fn is_at(rt: &impl Abort, machine: &GroupMachine, end: End) {
    assert_eq!(rt; machine.end(), Some(end));
    assert_eq!(rt; machine.place(), Place { bundle: 3, slot: 2 });
    assert_eq!(rt; machine.groups(), 6);
}

#[test]
fn nothing_changes_after_an_end(rt: HostRuntime) -> Result<(), Fail> {
    let alloc = rt.alloc();
    let program = program_of(&rt, alloc, TEXT)?;
    let slots = SlotTable::open(alloc, &program)?;
    let mut machine = GroupMachine::open(alloc, &slots)?;
    let end = machine.run(100, 0);
    is_at(&rt, &machine, end);
    assert!(rt; machine.groups() < 100);
    let again = machine.run(3, 1);
    assert_eq!(rt; again, end);
    is_at(&rt, &machine, end);
    has_state(&rt, alloc, &machine, &again, SECOND_LAST)
}

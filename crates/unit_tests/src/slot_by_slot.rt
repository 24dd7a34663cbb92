//! A run slot by slot, in several calls. What one call leaves is tested with the whole program.

use crate::program::program_of;
use emulator::{Machine, state_text};
use ia_insn::Gr;
use ia_program::{End, GroupEvent, How, Place};
use reg_stack::StackFault;
use slot_table::SlotTable;
use std::alloc::Global;
use std::process::Abort;
use std::test::Fail;

/// A frame, two predicates, a call, the callee's frame, a loop count, an advanced load, and a store to where it loaded
/// from.
const TEXT: &str = "{ .mii
alloc r32=ar.pfs,0,2,1,0
addl r8=5,r0
cmp.eq p6,p7=r0,r0 ;;
}
{ .mlx
adds r10=6,r0
movl r9=word ;;
}
{ .mib
adds r11=7,r0
nop.i 0
br.call.sptk.few b1=callee ;;
}
callee:
{ .mii
alloc r33=ar.pfs,0,3,0,0
mov.i ar.lc=r10
mov b6=r11 ;;
}
{ .mib
ld8.a r34=[r9]
nop.i 0
nop.b 0 ;;
}
{ .mib
st8 [r9]=r8
nop.i 0
break.b 9 ;;
}
.data
word:
data8 42
";

/// The state before the last group. PFS and r33 have the privilege level 3 and the caller's frame of 3 registers, 2 of them
/// local. The ALAT has the entry of the advanced load.
const STATE: &str = "end limit at 5.0
groups 5
frame 2 sof 3 sol 3 sor 0 rrb 0 0 0
rse 0 5 0 0
r8 0000000000000005
r9 0000000000100000
r10 0000000000000006
r11 0000000000000007
r33 c000000000000103
r34 000000000000002a
pr 0000000000000041
b1 0000000000010030
b6 0000000000000007
ar.pfs c000000000000103
ar.lc 0000000000000006
m 0000000000100000 000000000000002a
alat s4 0000000000100000 8
";

/// The run comes to this end, in at most so many groups more.
fn comes_to(rt: &impl Abort, machine: &mut Machine, groups: u8, end: End) {
    assert!(rt; groups > 0 && machine.groups() < 100);
    assert_eq!(rt; machine.run(u64::from(groups)), end);
}

/// The next group is told as this event.
fn tells(rt: &impl Abort, machine: &mut Machine, event: GroupEvent) {
    assert!(rt; machine.end().is_none());
    assert!(rt; machine.groups() < 100);
    assert_eq!(rt; machine.step_group(), event);
}

/// The state is printed as this text.
fn has_state(rt: &impl Abort, alloc: Global, machine: &Machine, state: &str) -> Result<(), Fail> {
    let text = state_text(alloc, machine, &machine.ending())?;
    assert!(rt; text.as_slice() == state.as_bytes());
    Ok(())
}

/// A call goes on where the one before it came to the limit, and nothing changes after the end.
#[test]
fn calls_go_on_up_to_an_end(rt: HostRuntime) -> Result<(), Fail> {
    let alloc = rt.alloc();
    let program = program_of(&rt, alloc, TEXT)?;
    let slots = SlotTable::open(alloc, &program)?;
    let mut machine = Machine::open(alloc, &slots)?;
    let place = Place { bundle: 1, slot: 0 };
    comes_to(&rt, &mut machine, 1, End::Limit { place });
    let event = GroupEvent {
        number: 2,
        first: place,
        last: Place { bundle: 1, slot: 1 },
        slots: 2,
        how: How::Falls,
    };
    tells(&rt, &mut machine, event);
    let place = Place { bundle: 5, slot: 0 };
    comes_to(&rt, &mut machine, 3, End::Limit { place });
    has_state(&rt, alloc, &machine, STATE)?;
    assert_eq!(rt; machine.gr(Gr::of_field(35)), Err(StackFault::OutOfFrame));

    let place = Place { bundle: 5, slot: 2 };
    for groups in [100, 1] {
        comes_to(&rt, &mut machine, groups, End::Break { imm: 9, place });
        assert_eq!(rt; machine.groups(), 6);
        assert_eq!(rt; machine.place(), place);
    }
    Ok(())
}

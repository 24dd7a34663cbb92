//! The watchers that are left after a call.

ghost use Rattle.std.specs.Prelude.{map};
ghost use Rattle.watch_seam.specs.Watching.{AwaitGroups};

use ia_program::GroupEvent;
use ia64_top::{Arguments, Status, ia64};
use io_seam::{MemSink, MemSource};
use std::alloc::{AllocError, Global};
use std::process::Abort;
use std::test::Fail;
use watch_seam::{Counter, Keep, Tracer, Watch};

/// The status of `watch` with this number on a text, and what the sink has then.
fn watch(
    alloc: Global,
    number: &[u8],
    text: &str,
    watchers: &mut Vec<Box<dyn Watch>>,
) -> Result<(Status, Vec<u8>), Fail>
    requires { AwaitGroups (map (λ b. state b) watchers.old.items) }
{
    let mut words = Arguments::new(alloc);
    words.push(b"watch")?;
    words.push(number)?;
    let bytes = Vec::from_slice(alloc, text.as_bytes())?;
    let mut source = MemSource::new(bytes, 4096, Vec::new(alloc));
    let mut sink = MemSink::new(alloc, 1000, 4096, Vec::new(alloc))?;
    let status = ia64(alloc, &words, watchers, &mut source, &mut sink);
    Ok((status, Vec::from_slice(alloc, sink.bytes())?))
}

/// There are `count` watchers left, and each reports the wanted text.
fn report(
    rt: &impl Abort,
    alloc: Global,
    watchers: &Vec<Box<dyn Watch>>,
    count: usize,
    wanted: &str,
) -> Result<(), Fail> {
    assert_eq!(rt; watchers.len(), count);
    for watcher in watchers {
        let mut report = Vec::new(alloc);
        watcher.report(&mut report)?;
        assert_eq!(rt; report.as_slice(), wanted.as_bytes());
    }
    Ok(())
}

/// A return that finds no frame below, in the second of two groups.
const RETURN_TEXT: &str = "{ .mii
nop.m 0
adds r9=129,r0
nop.i 0 ;;
}
{ .mib
nop.m 0
mov.i ar.pfs=r9
br.ret b0 ;;
}
";

/// What a tracer of one group and a counter report of it, and the state that it ends in.
const RETURN_WATCHED: &str = "watch 1
1 0.0 0.2 falls
watch 0
groups 2 slots 6 taken 0
end fault Underflow at 1.2
groups 2
frame 0 sof 0 sol 0 sor 0 rrb 0 0 0
rse 0 0 0 0
r9 0000000000000081
pr 0000000000000001
ar.pfs 0000000000000081
";

#[test]
fn a_full_watcher_leaves_the_list(rt: HostRuntime) -> Result<(), Fail> {
    let alloc = rt.alloc();
    let mut watchers: Vec<Box<dyn Watch>> = Vec::new(alloc);
    watchers.push(Box::new(alloc, Counter::new(10_000_001))?)?;
    watchers.push(Box::new(alloc, Tracer::new(alloc, 1))?)?;
    let (status, output) = watch(alloc, b"10", RETURN_TEXT, &mut watchers)?;
    assert_eq!(rt; status, Status::Faulted);
    assert_eq!(rt; output.as_slice(), RETURN_WATCHED.as_bytes());
    report(&rt, alloc, &watchers, 1, "groups 2 slots 6 taken 0\n")
}

/// A counter that finds no memory for its second group.
#[derive(Drop)]
struct CounterOfOne {
    counts: Counter,
    is_used: bool,
}

impl Watch for CounterOfOne {
    ghost state = { λ w. w.counts };

    fn see(&mut self, event: &GroupEvent) -> Result<Keep, AllocError> {
        if self.is_used {
            return Err(AllocError);
        }
        self.is_used = true;
        self.counts.see(event)
    }

    fn report(&self, out: &mut Vec<u8>) -> Result<(), AllocError> {
        self.counts.report(out)
    }
}

/// A call that adds the words of a table, as a compiler writes it.
const SUM_TEXT: &str = ".global main#
.proc main#
main:
{ .mlx
  alloc r32 = ar.pfs, 0, 1, 2, 0
  movl r33 = table ;;
}
{ .mib
  mov r34 = 4
  nop.i 0
  br.call.sptk.many b0 = sum# ;;
}
{ .mib
  nop.m 0
  nop.i 0
  break.b 0 ;;
}
sum:
{ .mii
  alloc r34 = ar.pfs, 2, 3, 0, 0
  mov r35 = b0
  mov r8 = 0 ;;
}
{ .mii
  adds r36 = -1, r33
  nop.i 0
  nop.i 0 ;;
}
{ .mii
  nop.m 0
  mov ar.lc = r36
  nop.i 0 ;;
}
loop:
{ .mii
  ld8 r14 = [r32], 8
  nop.i 0
  nop.i 0 ;;
}
{ .mib
  add r8 = r8, r14
  nop.i 0
  br.cloop.sptk.few loop ;;
}
{ .mii
  nop.m 0
  mov ar.pfs = r34
  mov b0 = r35 ;;
}
{ .mib
  nop.m 0
  nop.i 0
  br.ret.sptk.many b0 ;;
}
.data
table:
  data8 10, 20, 30, 40
";

/// The tracer is full with the first group, which the others have seen too, and no other.
#[test]
fn a_watcher_without_memory_ends_the_run(rt: HostRuntime) -> Result<(), Fail> {
    let alloc = rt.alloc();
    let mut watchers: Vec<Box<dyn Watch>> = Vec::new(alloc);
    watchers.push(Box::new(alloc, Tracer::new(alloc, 1))?)?;
    let counts = Counter::new(1000);
    let is_used = false;
    watchers.push(Box::new(alloc, CounterOfOne { counts, is_used })?)?;
    watchers.push(Box::new(alloc, Counter::new(1000))?)?;
    let (status, output) = watch(alloc, b"100", SUM_TEXT, &mut watchers)?;
    assert_eq!(rt; status, Status::NoMemory);
    assert_eq!(rt; output.as_slice(), b"".as_slice());
    report(&rt, alloc, &watchers, 2, "groups 1 slots 2 taken 0\n")
}

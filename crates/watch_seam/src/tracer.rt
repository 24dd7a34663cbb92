//! Lines of groups.

ghost use Rattle.std.specs.Prelude.{◌≡◌, ◌++◌, ◌≤◌, OnOk, OnErr, Some};
ghost use Rattle.watch_seam.specs.declared.limits.TheConstants.{FILL_LIMIT};
ghost use Rattle.watch_seam.specs.Watchers.{line, event_text, fresh, tracer};

use crate::counter::Counter;
use crate::watch::{Keep, Watch};
use ia_program::{GroupEvent, How};
use std::alloc::{AllocError, Global};
use std::fmt;
use std::marker::Model;

/// A group, as it is reported.
#[derive(Clone, Copy, Debug)]
struct EventText {
    event: GroupEvent,
}

impl fmt::Display for EventText {
    ghost output = { λ shown. Some (event_text shown.event) };

    /// Its number, its first and its last place, and how it ended.
    fn fmt<W: fmt::Write>(&self, f: &mut fmt::Formatter<W>) -> fmt::Result {
        let GroupEvent {
            number,
            first,
            last,
            how,
            ..
        } = self.event;
        match how {
            How::Falls => write!(f, "{number} {first} {last} falls"),
            How::Taken => write!(f, "{number} {first} {last} taken"),
            How::Ends => write!(f, "{number} {first} {last} ends"),
        }
    }
}

/// Appends the line of a group: its number, its first and its last place, and `falls`, `taken` or `ends`.
///
/// # Errors
///
/// Want of memory. The bytes are as they were then.
pub fn push_group_line(out: &mut Vec<u8>, event: &GroupEvent) -> Result<(), AllocError>
    ensures ok { OnOk result (out.new.items ≡ out.old.items ++ line (event_text event.now)) }
    ensures err { OnErr result (out.new.items ≡ out.old.items) }
{
    let shown = EventText { event: *event };
    let text = format!(in *out.allocator(); "{shown}\n")?;
    out.extend_from_slice(text.as_bytes())
}

/// Keeps a line of each group.
#[derive(Debug, Drop)]
pub struct Tracer {
    counts: Counter,
    lines: Vec<u8>,
}

impl Model for Tracer {
    ghost use Rattle.watch_seam.specs.Watchers.{WatchState, tracer};

    ghost Value = { WatchState };

    ghost view = { λ t. record t.counts { sort = tracer; lines = t.lines.items } };
}

impl Tracer {
    /// A tracer that has seen no group, and sees this many, 1 to [`FILL_LIMIT`](crate::limits::FILL_LIMIT).
    /// It needs no memory.
    pub fn new(alloc: Global, fill: u64) -> Tracer
        requires some { 1 ≤ fill }
        requires limited { fill ≤ FILL_LIMIT }
        ensures { result ≡ fresh tracer fill }
    {
        Tracer {
            counts: Counter::new(fill),
            lines: Vec::new(alloc),
        }
    }
}

impl Watch for Tracer {
    ghost state = { λ t. t };

    fn see(&mut self, event: &GroupEvent) -> Result<Keep, AllocError> {
        push_group_line(&mut self.lines, event)?;
        Ok(self.counts.count(event))
    }

    fn report(&self, out: &mut Vec<u8>) -> Result<(), AllocError> {
        out.extend_from_slice(&self.lines)
    }
}

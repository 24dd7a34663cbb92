//! Counts of groups.

ghost use Rattle.std.specs.Prelude.{◌≡◌, ◌<◌, ◌≤◌};
ghost use Rattle.watch_seam.specs.declared.limits.TheConstants.{FILL_LIMIT};
ghost use Rattle.watch_seam.specs.Watchers.{after, counter, fresh, keep_of};

use crate::watch::{Keep, Watch};
use ia_program::{GroupEvent, How};
use std::alloc::AllocError;
use std::marker::Model;

/// Counts groups, the slots that they reached, and those of them that took a branch.
#[derive(Debug, Drop)]
pub struct Counter {
    groups: u64,
    slots: u64,
    taken: u64,
    fill: u64,
}

impl Model for Counter {
    ghost use Rattle.std.specs.Prelude.{◌*◌, ◌-◌, ◌^◌, ◌≤◌, []};
    ghost use Rattle.watch_seam.specs.declared.limits.TheConstants.{FILL_LIMIT};
    ghost use Rattle.watch_seam.specs.Watchers.{WatchState, counter};

    ghost Value = { WatchState };

    ghost view = { λ c. record {
      sort = counter;
      groups = c.groups;
      slots = c.slots;
      taken = c.taken;
      lines = [];
      fill = c.fill;
    } };

    ghost invariant = { λ c. record {
      within : c.groups ≤ c.fill;
      limited : c.fill ≤ FILL_LIMIT;
      slots : c.slots ≤ c.groups * (2 ^ 32 - 1);
      taken : c.taken ≤ c.groups;
    } };
}

impl Counter {
    /// A counter that has seen no group, and sees this many, 1 to [`FILL_LIMIT`](crate::limits::FILL_LIMIT).
    /// It needs no memory.
    pub fn new(fill: u64) -> Counter
        requires some { 1 ≤ fill }
        requires limited { fill ≤ FILL_LIMIT }
        ensures { result ≡ fresh counter fill }
    {
        Counter {
            groups: 0,
            slots: 0,
            taken: 0,
            fill,
        }
    }

    /// Counts a group.
    pub(crate) fn count(&mut self, event: &GroupEvent) -> Keep
        requires { self.old.groups < self.old.fill }
        ensures counted { self.new ≡ after self.old event.now }
        ensures full { result ≡ keep_of self.new }
    {
        self.groups += 1;
        self.slots += u64::from(event.slots);
        if event.how == How::Taken {
            self.taken += 1;
        }
        if self.groups < self.fill {
            Keep::Stay
        } else {
            Keep::Full
        }
    }
}

impl Watch for Counter {
    ghost state = { λ c. c };

    fn see(&mut self, event: &GroupEvent) -> Result<Keep, AllocError> {
        Ok(self.count(event))
    }

    fn report(&self, out: &mut Vec<u8>) -> Result<(), AllocError> {
        let (groups, slots, taken) = (self.groups, self.slots, self.taken);
        let line = format!(in *out.allocator(); "groups {groups} slots {slots} taken {taken}\n")?;
        out.extend_from_slice(line.as_bytes())
    }
}

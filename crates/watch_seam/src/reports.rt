//! Lists of watchers, and what they report.

ghost use Rattle.std.specs.Prelude.{◌≡◌, ◌<◌, ◌∷◌, ◌++◌, [], IfOk, OnOk, OnErr, flat_map, get_or, length, map, remove, zip};
ghost use Rattle.std.specs.List.{range_with_len};
ghost use Rattle.watch_seam.specs.Watchers.{after, counter, fresh, keep_of, report_text};
ghost use Rattle.watch_seam.specs.Watching.{AwaitGroups, IsAmidGroup, left_after, numbered_report, reports_after};

use crate::watch::{Keep, Watch};
use ia_program::GroupEvent;
use std::alloc::{AllocError, Global};
use std::marker::Model;

/// What a list of watchers has reported, and the numbers of those that are left of it.
///
/// The list goes along with every call. Each watcher has the number that it had in the list at the
/// beginning, from 0.
#[derive(Debug, Drop)]
pub struct Reports {
    numbers: Vec<usize>,
    text: Vec<u8>,
}

impl Model for Reports {
    ghost use Rattle.watch_seam.specs.Watching.{ReportsSoFar};

    ghost Value = { ReportsSoFar };

    ghost view = { λ r. record { numbers = r.numbers.items; text = r.text.items } };
}

/// Shows a group to a watcher.
fn see(watcher: &mut Box<dyn Watch>, event: &GroupEvent) -> Result<Keep, AllocError>
    requires { (state watcher.old).groups < (state watcher.old).fill }
    ensures seen { OnOk result (state watcher.new ≡ after (state watcher.old) event.now) }
    ensures full { IfOk result (λ keep. keep ≡ keep_of (state watcher.new)) }
    ensures err { OnErr result (state watcher.new ≡ state watcher.old) }
{
    watcher.see(event)
}

/// Appends the report of a watcher.
fn append_report(watcher: &Box<dyn Watch>, out: &mut Vec<u8>) -> Result<(), AllocError>
    ensures { OnOk result (out.new.items ≡ out.old.items ++ report_text (state watcher.now)) }
{
    watcher.report(out)
}

/// Appends the line with the number of a watcher, and its report.
fn append_numbered_report(
    number: usize,
    watcher: &Box<dyn Watch>,
    out: &mut Vec<u8>,
) -> Result<(), AllocError>
    ensures { OnOk result (out.new.items ≡ out.old.items ++ numbered_report (number, state watcher.now)) }
{
    let heading = format!(in *out.allocator(); "watch {number}\n")?;
    out.extend_from_slice(heading.as_bytes())?;
    append_report(watcher, out)
}

impl Reports {
    /// No reports yet, of a list of watchers.
    ///
    /// # Errors
    ///
    /// Want of memory.
    pub fn begin(alloc: Global, watchers: &[Box<dyn Watch>]) -> Result<Reports, AllocError>
        ensures numbers { IfOk result (λ reports. reports.numbers ≡ range_with_len 0 (length watchers.now)) }
        ensures text { IfOk result (λ reports. reports.text ≡ []) }
    {
        Ok(Reports {
            numbers: (0..watchers.len()).collect(alloc)?,
            text: Vec::new(alloc),
        })
    }

    /// The watcher at a place of the list reports, and is taken out of it and dropped.
    fn retire(&mut self, at: usize, watchers: &mut Vec<Box<dyn Watch>>) -> Result<(), AllocError>
        requires at { at < length watchers.old.items }
        requires as_many { length self.old.numbers ≡ length watchers.old.items }
        ensures text { OnOk result (self.new.text ≡ self.old.text ++ numbered_report (get_or self.old.numbers at 0, get_or (map (λ b. state b) watchers.old.items) at (fresh counter 0))) }
        ensures numbers { OnOk result (self.new.numbers ≡ remove self.old.numbers at) }
        ensures watchers { OnOk result (watchers.new.items ≡ remove watchers.old.items at) }
        ensures err { OnErr result (watchers.new.items ≡ watchers.old.items) }
    {
        append_numbered_report(self.numbers[at], &watchers[at], &mut self.text)?;
        self.numbers.remove(at);
        watchers.remove(at);
        Ok(())
    }

    /// Shows a group to each watcher of the list, in its order. One that is full with it reports, and is
    /// taken out of the list and dropped.
    ///
    /// # Errors
    ///
    /// Want of memory. Each watcher has then seen the group, or is as it was; those that aren't there any
    /// more were full with it, and one that is full may still be there. The reports are of no more use then.
    pub fn show(
        &mut self,
        event: &GroupEvent,
        watchers: &mut Vec<Box<dyn Watch>>,
    ) -> Result<(), AllocError>
        requires as_many { length self.old.numbers ≡ length watchers.old.items }
        requires room { AwaitGroups (map (λ b. state b) watchers.old.items) }
        ensures as_many { OnOk result (length self.new.numbers ≡ length watchers.new.items) }
        ensures text { OnOk result (self.new.text ≡ self.old.text ++ reports_after event.now (zip self.old.numbers (map (λ b. state b) watchers.old.items))) }
        ensures left { OnOk result (zip self.new.numbers (map (λ b. state b) watchers.new.items) ≡ left_after event.now (zip self.old.numbers (map (λ b. state b) watchers.old.items))) }
        ensures still_room { OnOk result (AwaitGroups (map (λ b. state b) watchers.new.items)) }
        ensures cut_short { OnErr result (IsAmidGroup (event.now ∷ []) 0 (map (λ b. state b) watchers.old.items) (map (λ b. state b) watchers.new.items)) }
    {
        let mut at = 0;
        while at < watchers.len() {
            match see(&mut watchers[at], event)? {
                Keep::Stay => at += 1,
                Keep::Full => self.retire(at, watchers)?,
            }
        }
        Ok(())
    }

    /// The text of all reports, after those of the watchers that are left.
    ///
    /// # Errors
    ///
    /// Want of memory.
    pub fn finish(self, watchers: &[Box<dyn Watch>]) -> Result<Vec<u8>, AllocError>
        requires as_many { length self.numbers ≡ length watchers.now }
        ensures { IfOk result (λ text. text.items ≡ self.text ++ flat_map numbered_report (zip self.numbers (map (λ b. state b) watchers.now))) }
    {
        let Reports { numbers, mut text } = self;
        let mut at = 0;
        while at < watchers.len() {
            append_numbered_report(numbers[at], &watchers[at], &mut text)?;
            at += 1;
        }
        Ok(text)
    }
}

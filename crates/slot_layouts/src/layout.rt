//! Layouts: the slots of a template that instructions take.

ghost use Rattle.std.specs.Prelude.{◌≡◌, ℕ, List, ◌<◌, option_map};
ghost use Rattle.ia_program.specs.Templates.{units_of, stops_of};
ghost use Rattle.ia_meaning.specs.Landings.{is_one_of};
ghost use Rattle.slot_layouts.specs.Layouts.{all_fit, are_rising, is_stop_between, stops_between, has_stop_where, stops_are_wanted, has_none_before, is_layout, least_slots, laid_out};

use crate::classes::SlotClass;
use arrayvec::ArrayVec;
use ia_insn::Unit;
use ia_program::Template;
use std::marker::Model;

/// An instruction that a bundle is to hold.
#[derive(Clone, Copy, Debug, Default, PartialEq, Eq)]
pub struct Wanted {
    /// The slots that it fits.
    pub class: SlotClass,
    /// Whether a stop is wanted between it and the one before it in its bundle. Of the first one it says nothing.
    pub gap: bool,
}

/// A layout of a list of instructions: a template, and the slot of each, 0 to 2, rising; that of a long one is 1.
/// Contracts see the template's code and the list of slots.
#[derive(Debug, Drop)]
pub struct Layout {
    template: Template,
    slots: ArrayVec<u8, 3>,
}

impl Model for Layout {
    ghost Value = { ℕ × List ℕ };

    ghost view = { λ l. (l.template, l.slots.items) };
}

impl Layout {
    /// The template.
    pub fn template(&self) -> Template
        ensures { result ≡ self.now.0 }
    {
        self.template
    }

    /// The slot of each instruction, in their order.
    pub fn slots(&self) -> &[u8]
        ensures { result.now ≡ self.now.1 }
    {
        self.slots.as_slice()
    }
}

/// Whether each instruction has a slot that it fits, among those of these units.
fn all_fit(units: &[Unit], wanted: &[Wanted], slots: &[u8]) -> bool
    ensures { result ≡ all_fit units.now wanted.now slots.now }
{
    let [first, others @ ..] = wanted else {
        return slots.is_empty();
    };
    let [slot, rest @ ..] = slots else {
        return false;
    };
    let fits = match units.get(*slot as usize) {
        Some(unit) => first.class.has_place(*unit, *slot),
        None => false,
    };
    fits && all_fit(units, others, rest)
}

/// Whether each slot is below the next.
fn are_rising(slots: &[u8]) -> bool
    ensures { result ≡ are_rising slots.now }
{
    let [first, rest @ ..] = slots else {
        return true;
    };
    let [second, ..] = rest else {
        return true;
    };
    first < second && are_rising(rest)
}

/// Whether a stop of the template follows the slot.
fn stop_follows(template: &Template, slot: u8) -> bool
    requires { slot < 3 }
    ensures { result ≡ is_one_of slot (stops_of template.now) }
{
    template.stop_after(slot)
}

/// Whether the slot is one from `from` on and before `before`, and a stop of the template follows it.
fn is_stop_between(template: &Template, from: u8, before: u8, slot: u8) -> bool
    requires { slot < 3 }
    ensures { result ≡ is_stop_between (stops_of template.now) from before slot }
{
    from <= slot && slot < before && stop_follows(template, slot)
}

/// How many slots from one on and before another a stop of the template follows.
#[tactic(auto, using(crate::proofs::FirstLayouts::one_more, crate::proofs::FirstLayouts::no_more))]
fn stops_between(template: &Template, from: u8, before: u8) -> u8
    ensures { result ≡ stops_between (stops_of template.now) from before }
{
    let mut count = 0;
    for slot in 0..3 {
        if is_stop_between(template, from, before, slot) {
            count += 1;
        }
    }
    count
}

/// Whether a stop of the template follows exactly one of the slots from one on and before another where one is
/// wanted, and else none.
fn has_stop_where(template: &Template, from: u8, before: u8, wanted: bool) -> bool
    ensures { result ≡ has_stop_where (stops_of template.now) from before wanted }
{
    stops_between(template, from, before) == u8::from(wanted)
}

/// Whether no stop comes before the first slot of the list.
fn has_none_before(template: &Template, slots: &[u8]) -> bool
    ensures { result ≡ has_none_before (stops_of template.now) slots.now }
{
    let [first, ..] = slots else {
        return false;
    };
    has_stop_where(template, 0, *first, false)
}

/// Whether the stops of the template from the first slot of the list on are those that are wanted.
fn stops_are_wanted(template: &Template, wanted: &[Wanted], slots: &[u8], end: bool) -> bool
    ensures { result ≡ stops_are_wanted (stops_of template.now) wanted.now slots.now end }
{
    let [_, others @ ..] = wanted else {
        return false;
    };
    let [slot, rest @ ..] = slots else {
        return false;
    };
    let [second, ..] = others else {
        return has_stop_where(template, *slot, 2, false) && has_stop_where(template, 2, 3, end);
    };
    let [next, ..] = rest else {
        return false;
    };
    has_stop_where(template, *slot, *next, second.gap)
        && stops_are_wanted(template, others, rest, end)
}

/// Whether the slots are a layout of the instructions in the template. Its units are given, since many lists are tried.
#[tactic(auto, using(crate::proofs::FirstLayouts::unlike_layout))]
fn is_layout(
    template: &Template,
    units: &[Unit],
    wanted: &[Wanted],
    end: bool,
    slots: &[u8],
) -> bool
    requires { units.now ≡ units_of template.now }
    ensures { result ≡ is_layout template.now wanted.now end slots.now }
{
    if slots.len() != wanted.len() {
        return false;
    }
    all_fit(units, wanted, slots)
        && are_rising(slots)
        && has_none_before(template, slots)
        && stops_are_wanted(template, wanted, slots, end)
}

/// The rising lists of slots, in order of lists.
const RISING_SLOTS: [&[u8]; 7] = [&[0], &[0, 1], &[0, 1, 2], &[0, 2], &[1], &[1, 2], &[2]];

/// The least layout of the instructions in the template: none where it has a stop at its end and none is wanted there, or
/// the other way round.
#[tactic(auto, using(crate::proofs::FirstLayouts::none_at_end))]
fn least_slots(template: &Template, wanted: &[Wanted], end: bool) -> Option<ArrayVec<u8, 3>>
    ensures { option_map (λ v. v.items) result ≡ least_slots template.now wanted.now end }
{
    if stop_follows(template, 2) != end {
        return None;
    }
    let units = template.units();
    for slots in RISING_SLOTS {
        if is_layout(template, &units, wanted, end, slots) {
            let mut least = ArrayVec::new();
            least.try_extend_from_slice(slots).unwrap();
            return Some(least);
        }
    }
    None
}

/// The layout of a list of instructions: the template of the lowest code that has one, and in it the least list of
/// slots, in order of lists. With `end` a stop is wanted after the last slot, and without it none. None exactly
/// where no template has a layout, as for an empty list and for more than three instructions.
#[tactic(auto, using(crate::proofs::FirstLayouts::none_out, crate::proofs::FirstLayouts::none_below_0, crate::proofs::FirstLayouts::still_none, crate::proofs::FirstLayouts::none_reserved))]
pub fn laid_out(wanted: &[Wanted], end: bool) -> Option<Layout>
    ensures { result ≡ laid_out wanted.now end }
{
    for code in 0..32 {
        if let Some(template) = Template::of(code) {
            if let Some(slots) = least_slots(&template, wanted, end) {
                return Some(Layout { template, slots });
            }
        }
    }
    None
}

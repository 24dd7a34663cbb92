//! Bundle templates.

ghost use Rattle.std.specs.Prelude.{◌≡◌, ℕ, ◌<◌, ◌↔◌, SomeIff, IsTrue, Contains, Option, MatchOption};
ghost use Rattle.std.specs.Option.{SomeIff};
ghost use Rattle.ia_program.specs.Templates.{IsTemplate, units_of, stops_of, StopsAs, HasShape, AreEqualIfAlike};

use ia_insn::Unit;
use std::marker::Model;

/// A bundle template, which gives the units of the three slots and the stops after them (volume 1,
/// chapter 3, instruction encoding). Contracts see its code, 0 to 31 without the reserved ones.
#[derive(Clone, Copy, Debug, PartialEq, Eq)]
pub struct Template {
    code: u8,
}

impl Model for Template {
    ghost Value = { ℕ };

    ghost view = { λ t. t.code };

    ghost invariant = { λ t. IsTemplate t.code };

    ghost inverse = { λ n. record { code = n } };
}

impl Template {
    /// The template with this code, the low five bits of a bundle. None exactly for the reserved
    /// codes 06, 07, 14, 15, 1A, 1B, 1E and 1F hexadecimal, and for a code above 1F.
    pub fn of(code: u8) -> Option<Self>
        ensures { SomeIff result (IsTemplate code) code }
    {
        match code {
            0x00..=0x05 | 0x08..=0x13 | 0x16..=0x19 | 0x1c | 0x1d => Some(Template { code }),
            _ => None,
        }
    }

    /// The template with these units, and stops after the slots that are marked. None exactly where
    /// there is none; there is no second one ([`one_template`]).
    pub fn with(units: [Unit; 3], stops: [bool; 3]) -> Option<Self>
        ensures { MatchOption result ((code : ℕ) → IsTemplate code → HasShape code units stops → ⊥) (λ code. HasShape code units stops) }
    {
        for code in 0..32 {
            if let Some(template) = Template::of(code) {
                if template.has_shape(units, stops) {
                    return Some(template);
                }
            }
        }
        None
    }

    /// Its code, 0 to 31.
    pub fn code(&self) -> u8
        ensures value { result ≡ self.now }
        ensures template { IsTemplate result }
        ensures within { result < 32 }
    {
        self.code
    }

    /// The units of slots 0, 1 and 2.
    pub fn units(&self) -> [Unit; 3]
        ensures { result ≡ units_of self.now }
    {
        match self.code / 2 {
            0x00 | 0x01 => [Unit::M, Unit::I, Unit::I],
            0x02 => [Unit::M, Unit::L, Unit::X],
            0x04 | 0x05 => [Unit::M, Unit::M, Unit::I],
            0x06 => [Unit::M, Unit::F, Unit::I],
            0x07 => [Unit::M, Unit::M, Unit::F],
            0x08 => [Unit::M, Unit::I, Unit::B],
            0x09 => [Unit::M, Unit::B, Unit::B],
            0x0b => [Unit::B, Unit::B, Unit::B],
            0x0c => [Unit::M, Unit::M, Unit::B],
            _ => [Unit::M, Unit::F, Unit::B],
        }
    }

    /// Whether a stop follows slot 0, 1 or 2.
    pub fn stop_after(&self, slot: u8) -> bool
        requires { slot < 3 }
        ensures { IsTrue result ↔ Contains (stops_of self.now) slot }
    {
        match slot {
            0 => self.code / 2 == 0x05,
            1 => self.code / 2 == 0x01,
            _ => self.code % 2 == 1,
        }
    }

    /// Whether a stop follows the slot exactly if it is marked.
    fn stops_as(&self, slot: u8, marked: bool) -> bool
        requires { slot < 3 }
        ensures { IsTrue result ↔ StopsAs self.now slot marked }
    {
        self.stop_after(slot) == marked
    }

    /// Whether these are its units, and its stops those after the slots that are marked.
    fn has_shape(&self, units: [Unit; 3], stops: [bool; 3]) -> bool
        ensures { IsTrue result ↔ HasShape self.now units stops }
    {
        self.units() == units
            && self.stops_as(0, stops[0])
            && self.stops_as(1, stops[1])
            && self.stops_as(2, stops[2])
    }
}

/// The law that templates with the same units and the same stops are the same. It does nothing.
#[tactic(auto, using(crate::proofs::TemplateCodes::one_template))]
pub fn one_template(first: Template, second: Template)
    ensures { AreEqualIfAlike first second }
{
    let _first = first.code();
    let _second = second.code();
}

//! The arguments that a call is given, and the table of commands.

ghost use Rattle.std.specs.Prelude.{◌≡◌, ◌↔◌, ◌-◌, ◌^◌, IsTrue, [], ◌∷◌, ◌++◌, List, ℕ, OnOk, OnErr};
ghost use Rattle.ia64_top.specs.declared.limits.TheConstants.{GROUP_LIMIT, TRACE_LIMIT, TRIAL_LIMIT};
ghost use Rattle.ia64_top.specs.Numbers.{BeginsAsNumeral, number_between};
ghost use Rattle.ia64_top.specs.Arguments.{trace_command, groups_command, trial_command, command_of};

use crate::limits::{GROUP_LIMIT, TRACE_LIMIT, TRIAL_LIMIT};
use std::alloc::{AllocError, Global};
use std::marker::Model;

/// What the program is asked to do.
#[derive(Clone, Copy, Debug, PartialEq, Eq)]
pub enum Command {
    /// Makes an image of a text.
    Build,
    /// Packs the instructions of a loose text into bundles, with the stops that they need.
    Stops,
    /// Gives the canonical text of a program.
    Show,
    /// Lists the bundles of a program.
    List,
    /// Makes an image of bare bundles.
    Wrap,
    /// Makes an image of version 2 of an image.
    Lift,
    /// Checks the groups of a program.
    Check,
    /// Runs a program that is accepted.
    Run {
        /// How many groups it may have, 1 to 10,000,000.
        groups: u64,
    },
    /// Runs a program that is accepted, and shows its groups to watchers.
    Watch {
        /// How many groups it may have, 1 to 10,000,000.
        groups: u64,
    },
    /// Runs a program that is accepted, and gives the state after each of some groups.
    Trace {
        /// How many groups run before the first state, 0 to 10,000,000.
        first: u64,
        /// How many groups run from there on, each with its state, 1 to 100.
        count: u64,
    },
    /// Runs a program, accepted or not, each of its groups all at once.
    Groups {
        /// How many groups it may have, 1 to 10,000,000.
        groups: u64,
        /// The number of the order in which the writes of each group are made: any of 64 bits, and 0 is program order.
        number: u64,
    },
    /// Checks the stated program of a seed, and runs it where it is accepted. No input is read.
    Trial {
        /// The seed.
        seed: u64,
        /// How many bundles the program has, 1 to 4,096, and how many groups the run may have.
        bundles: u32,
    },
}

/// Whether an argument is `0`, or begins with another digit.
fn begins_as_numeral(argument: &[u8]) -> bool
    ensures { IsTrue result ↔ BeginsAsNumeral argument.now }
{
    matches!(argument, [b'0'] | [b'1'..=b'9', ..])
}

/// The number that an argument is: `least` to `most` in decimal, with neither a sign nor a leading zero.
#[tactic(auto, using(crate::proofs::Numerals::no_first_digit, crate::proofs::Numerals::no_text))]
fn number_between(least: u64, most: u64, argument: &[u8]) -> Option<u64>
    ensures { result ≡ number_between least most argument.now }
{
    if !begins_as_numeral(argument) {
        return None;
    }
    let Ok(text) = str::from_utf8(argument) else {
        return None;
    };
    let Ok(number) = text.parse::<u64>() else {
        return None;
    };
    if number < least {
        return None;
    }
    if most < number {
        return None;
    }
    Some(number)
}

/// A number of groups in the order with a number, where the arguments are such numbers.
fn groups_command(groups: &[u8], number: &[u8]) -> Option<Command>
    ensures { result ≡ groups_command (number_between 1 GROUP_LIMIT groups.now) (number_between 0 (2 ^ 64 - 1) number.now) }
{
    let groups = number_between(1, GROUP_LIMIT, groups)?;
    let number = number_between(0, u64::MAX, number)?;
    Some(Command::Groups { groups, number })
}

/// The trace of a number of groups behind another number of them, where the arguments are such numbers.
fn trace_command(first: &[u8], count: &[u8]) -> Option<Command>
    ensures { result ≡ trace_command (number_between 0 GROUP_LIMIT first.now) (number_between 1 TRACE_LIMIT count.now) }
{
    let first = number_between(0, GROUP_LIMIT, first)?;
    let count = number_between(1, TRACE_LIMIT, count)?;
    Some(Command::Trace { first, count })
}

/// The trial of a seed and a number of bundles, where the arguments are such numbers.
fn trial_command(seed: &[u8], bundles: &[u8]) -> Option<Command>
    ensures { result ≡ trial_command (number_between 0 (2 ^ 64 - 1) seed.now) (number_between 1 TRIAL_LIMIT bundles.now) }
{
    let seed = number_between(0, u64::MAX, seed)?;
    let bundles = number_between(1, TRIAL_LIMIT, bundles)?;
    Some(Command::Trial {
        seed,
        bundles: bundles as u32,
    })
}

/// The arguments of a call, in order, without the program's own name. Contracts see a list of byte lists.
#[derive(Debug, Drop)]
pub struct Arguments {
    arguments: Vec<Vec<u8>>,
}

impl Model for Arguments {
    ghost use Rattle.std.specs.Prelude.{List, ℕ, map};

    ghost Value = { List (List ℕ) };

    ghost view = { λ w. map (λ v. v.items) w.arguments.items };
}

impl Arguments {
    /// No arguments. Takes no memory.
    pub fn new(alloc: Global) -> Arguments
        ensures { result ≡ [] }
    {
        Arguments {
            arguments: Vec::new(alloc),
        }
    }

    /// Adds an argument at the end. After an `Err`, which is want of memory, the arguments are as before.
    pub fn push(&mut self, argument: &[u8]) -> Result<(), AllocError>
        ensures ok { OnOk result (self.new ≡ self.old ++ argument.now ∷ []) }
        ensures err { OnErr result (self.new ≡ self.old) }
    {
        let argument = Vec::from_slice(*self.arguments.allocator(), argument)?;
        self.arguments.push(argument)?;
        Ok(())
    }

    /// The command that the arguments are, by the table: `build`, `stops`, `show`, `list`, `wrap`, `lift` or `check` alone,
    /// `run` or `watch` and a number of groups, `trace`, a number of groups and how many are traced, `groups`, a number of
    /// groups and that of an order, or `trial`, a seed and a number of bundles, in lower case.
    pub fn command(&self) -> Option<Command>
        ensures { result ≡ command_of self.now }
    {
        match self.arguments.as_slice() {
            [argument] if argument.as_slice() == b"build".as_slice() => Some(Command::Build),
            [argument] if argument.as_slice() == b"stops".as_slice() => Some(Command::Stops),
            [argument] if argument.as_slice() == b"show".as_slice() => Some(Command::Show),
            [argument] if argument.as_slice() == b"list".as_slice() => Some(Command::List),
            [argument] if argument.as_slice() == b"wrap".as_slice() => Some(Command::Wrap),
            [argument] if argument.as_slice() == b"lift".as_slice() => Some(Command::Lift),
            [argument] if argument.as_slice() == b"check".as_slice() => Some(Command::Check),
            [argument, groups] if argument.as_slice() == b"run".as_slice() => {
                let groups = number_between(1, GROUP_LIMIT, groups)?;
                Some(Command::Run { groups })
            }
            [argument, groups] if argument.as_slice() == b"watch".as_slice() => {
                let groups = number_between(1, GROUP_LIMIT, groups)?;
                Some(Command::Watch { groups })
            }
            [argument, first, count] if argument.as_slice() == b"trace".as_slice() => {
                trace_command(first, count)
            }
            [argument, groups, number] if argument.as_slice() == b"groups".as_slice() => {
                groups_command(groups, number)
            }
            [argument, seed, bundles] if argument.as_slice() == b"trial".as_slice() => {
                trial_command(seed, bundles)
            }
            _ => None,
        }
    }
}

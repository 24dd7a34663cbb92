//! Tests of what no row of `vectors` can say: of streams of the standard library, of the register stack's words, of the two
//! engines in calls that no command makes, of calls with watchers, and of the names of registers.
#![tactic(auto)]

#[cfg(test)]
mod group_by_group;
#[cfg(test)]
mod program;
#[cfg(test)]
mod register_names;
#[cfg(test)]
mod register_stack;
#[cfg(test)]
mod slot_by_slot;
#[cfg(test)]
mod streams;
#[cfg(test)]
mod watchers;

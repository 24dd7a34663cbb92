//! The first fault in a stated order, as definitions and laws (`specs/Stages`, `proofs/Laws`). There is
//! no code here.
//!
//! A reader that refuses what it is given looks for faults in stages, one after the other. Each
//! 'has this first fault' in this repository is a list of stages, which reads as a table: what the
//! stage finds, and what holds where it finds nothing. The laws say once what each such table
//! gives: there is at most one first fault, none where every stage is passed, and where it can be
//! told of each stage whether it is passed, there is one or all are.
#![tactic(auto)]

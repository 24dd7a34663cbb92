//! Laws of classes, of layouts and of the bundles that are filled by them. They do nothing.

ghost use Rattle.slot_layouts.specs.Laws.{PlaceIsFit, LaidOutIsLayout, FilledIsBundle, LaidOutHoldsInOrder, LaidOutHasStopsAsWanted, FirstStandsInSlot0, StopIsRightBeforeM, LastBStandsLast, NextStandsRightBehindB, OneIsLaidOut, FrontIsLaidOut, EndTakesNextCode};

/// Of a listed instruction, the places of its class are those that it fits.
pub fn place_is_fit()
    ensures { PlaceIsFit }
{}

/// What is laid out is a layout.
#[tactic(auto, using(crate::proofs::FirstLayouts::laid_out_is_layout))]
pub fn laid_out_is_layout()
    ensures { LaidOutIsLayout }
{}

/// A template with a layout of the classes of listed instructions makes a bundle of these, with nops in its other
/// slots.
pub fn filled_is_bundle()
    ensures { FilledIsBundle }
{}

/// The bundle of a list that is laid out holds its instructions in their order and nops beside them, and has the stops
/// that are wanted and no other.
pub fn laid_out_bundles()
    ensures holds { LaidOutHoldsInOrder }
    ensures stops { LaidOutHasStopsAsWanted }
{}

/// Where instructions stand for which it matters what is beside them. No nop comes before a first one that may stand in
/// an M slot, nor between an M instruction and a stop that is wanted before it. None follows a B instruction in its
/// bundle.
#[tactic(auto, using(crate::proofs::LaidOut::first_in_slot_0, crate::proofs::LaidOut::last_b_last, crate::proofs::LaidOut::next_right_behind_b))]
pub fn laid_out_places()
    ensures first { FirstStandsInSlot0 }
    ensures stop_before { StopIsRightBeforeM }
    ensures last { LastBStandsLast }
    ensures next { NextStandsRightBehindB }
{}

/// Which lists have a layout: each of one instruction, and each whose whole has one without its last instruction. A
/// stop at the end takes the next code, and changes nothing else.
#[tactic(auto, using(crate::proofs::Facts::one_is_laid_out, crate::proofs::Facts::front_is_laid_out, crate::proofs::Facts::end_takes_next_code))]
pub fn lists_with_layouts()
    ensures one { OneIsLaidOut }
    ensures front { FrontIsLaidOut }
    ensures end { EndTakesNextCode }
{}

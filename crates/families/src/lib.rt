#![tactic(auto)]

// Families of transition systems: drafts that take labels and steps, and closed families that are read.
ghost use Rattle.families.specs.Models.{held_steps};
ghost use Rattle.families.specs.Places.{FirstLeaving, NextLeaving, FirstSilent, NextSilent};

mod drafting;
mod indexing;
mod making;
mod parts;
mod reading;
mod seeking;

pub use drafting::can_open;
pub use making::{can_make, family_of};
pub use parts::Step;
use parts::{Index, Parts};
pub use seeking::{Sought, Steps};

// A family that still takes labels and steps.
#[derive(Drop)]
pub struct Draft<'a, S> {
    parts: Parts<'a, S>,
}

// A closed family, which does not change; the index has the places of its steps by the state that they leave, and
// those of its silent steps.
#[derive(Drop)]
pub struct Family<'a, S> {
    parts: Parts<'a, S>,
    index: Index,
    ghost first_leaving: { FirstLeaving (held_steps parts) 0 index },
    ghost next_leaving: { NextLeaving (held_steps parts) 0 index },
    ghost first_silent: { FirstSilent (held_steps parts) 0 index },
    ghost next_silent: { NextSilent (held_steps parts) 0 index },
}

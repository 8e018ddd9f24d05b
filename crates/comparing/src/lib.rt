#![tactic(auto)]

// Comparing two families: which pairs of states a simulation relates, in which variants.
mod asking;
mod beginning;
mod running;
mod settling;

pub use beginning::can_begin;
use tables::Table;

// A comparison: the table, both starts, and its phase. What may be called depends on the phase.
#[derive(Drop)]
pub struct Comparison<'t, S, P = Sweeping> {
    table: Table<'t, S>,
    left_start: u8,
    right_start: u8,
    phase: P,
}

// The phase in which a comparison takes sweeps: what the last one struck.
#[derive(Clone, Copy, Debug, PartialEq, Eq)]
pub struct Sweeping {
    last: Option<u64>,
}

// The phase after a sweep that struck nothing; a comparison in it takes no more sweeps.
#[derive(Clone, Copy, Debug, PartialEq, Eq)]
pub struct Quiet;

// A comparison whose last sweep struck nothing.
pub type Settled<'t, S> = Comparison<'t, S, Quiet>;

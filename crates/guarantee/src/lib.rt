#![tactic(auto)]

// Whole comparisons, and every promise together on one call.
mod examining;
mod whole;

use comparing::Settled;
pub use examining::examine;
use histories::Played;
use marking::Marked;
use refusals::Refusal;
pub use whole::compare;

// A comparison that was swept until it settled: the sweeps made and the variants struck, which are all that the
// pairs lose.
#[derive(Drop)]
pub struct Compared<'t, S> {
    pub sweeps: u32,
    pub strikes: u64,
    pub settled: Settled<'t, S>,
}

// What became of the requests to a comparison, and of a candidate.
#[derive(Drop)]
pub struct Examined<'t, S> {
    pub played: Played<'t, S>,
    pub marked: Result<Marked, Refusal>,
}

#![tactic(auto)]

// Histories: requests to a comparison, carried out in order, each with its answer beside it.
mod playing;
mod replying;

use comparing::{Comparison, Settled};
pub use playing::play;
use refusals::Refusal;

// What a comparison is asked to do.
#[derive(Clone, Copy, Debug, PartialEq, Eq)]
pub enum Request {
    Sweep,
    Run(u32),
    Ask { s: u8, t: u8, v: u32 },
    Settle,
    Verdict,
}

// What it answers where it does not refuse.
#[derive(Clone, Copy, Debug, PartialEq, Eq)]
pub enum Reply<S> {
    Struck(u64),
    Ran { sweeps: u32, strikes: u64 },
    Stands(bool),
    Settled,
    Verdict(S),
}

// A request, and the answer beside it once it was given.
#[derive(Clone, Copy, Debug, PartialEq, Eq)]
pub struct Turn<S> {
    pub request: Request,
    pub reply: Option<Result<Reply<S>, Refusal>>,
}

// A comparison, settled or not.
#[derive(Drop)]
pub enum Stage<'t, S> {
    Open(Comparison<'t, S>),
    Settled(Settled<'t, S>),
}

// What becomes of a request: the comparison after it, and the answer, unless it was not taken.
#[derive(Drop)]
pub struct Taken<'t, S> {
    pub stage: Stage<'t, S>,
    pub reply: Option<Result<Reply<S>, Refusal>>,
}

// How many requests were done, and the comparison that they led to.
#[derive(Drop)]
pub struct Played<'t, S> {
    pub done: usize,
    pub stage: Stage<'t, S>,
}

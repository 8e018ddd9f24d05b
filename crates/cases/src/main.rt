#![tactic(auto)]

// Runs every worked case, and prints of each what came out.

mod kinds;
mod limits;
mod marked;
mod shown;
mod stepped;
mod swept;

fn run(rt: &HostRuntime) -> anyhow::Result<()> {
    swept::run(rt)?;
    kinds::pair(rt)?;
    marked::run(rt)?;
    limits::states(rt)?;
    limits::steps(rt)?;
    kinds::piles(rt)?;
    swept::no_sweep(rt)?;
    stepped::run(rt)
}

fn main(rt: HostRuntime) -> anyhow::Result<()> {
    run(&rt)
}

#![tactic(auto)]

// Prints the machines of a worked line, variant by variant.
mod moves;

use families::{Family, Step, can_make};
use lines::{first_left, first_right};
use masks::Mask;
use moves::moves_of;

fn show(rt: &HostRuntime, side: &str, family: &Family<Mask>, variant: u32) -> anyhow::Result<()> {
    println!(rt; "{side} machine of variant {variant}:")?;
    let moves = moves_of(rt.alloc(), family, variant)?;
    for step in &moves {
        println!(rt; "  {step}")?;
    }
    Ok(())
}

fn run(rt: &HostRuntime) -> anyhow::Result<()> {
    let (left_steps, right_steps) = (first_left(), first_right());
    let mut left_memory = [Step::default(); 3];
    let mut right_memory = [Step::default(); 2];
    can_make(2, &left_steps, left_memory.len())?;
    can_make(2, &right_steps, right_memory.len())?;
    let left = Family::make(2, &left_steps, &mut left_memory);
    let right = Family::make(2, &right_steps, &mut right_memory);
    for variant in 0..2 {
        show(rt, "left", &left, variant)?;
        show(rt, "right", &right, variant)?;
    }
    Ok(())
}

fn main(rt: HostRuntime) -> anyhow::Result<()> {
    run(&rt)
}

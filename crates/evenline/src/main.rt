#![tactic(auto)]

// Compares the first worked line, and prints for each listed variant whether the right side can follow the left.
use comparing::{Comparison, can_begin};
use families::{Family, Step, can_make};
use lines::{first_left, first_right};
use masks::Mask;
use variants::VariantSet;

fn run(rt: &HostRuntime) -> anyhow::Result<()> {
    let (left_steps, right_steps) = (first_left(), first_right());
    let mut left_memory = [Step::default(); 3];
    let mut right_memory = [Step::default(); 2];
    let mut table = [Mask::default(); 4];
    can_make(2, &left_steps, left_memory.len())?;
    can_make(2, &right_steps, right_memory.len())?;
    let left = Family::make(2, &left_steps, &mut left_memory);
    let right = Family::make(2, &right_steps, &mut right_memory);
    let list = Mask::only(0).either(Mask::only(1));
    compare(rt, &left, &right, list, &mut table)
}

// Runs a comparison of the two families, and prints the verdict and what the run answered.
fn compare(
    rt: &HostRuntime,
    left: &Family<Mask>,
    right: &Family<Mask>,
    list: Mask,
    table: &mut [Mask],
) -> anyhow::Result<()> {
    can_begin(left, right, table.len())?;
    let mut comparison = Comparison::begin(left, right, list, table);
    let (sweeps, strikes) = comparison.run(9, left, right)?;
    comparison.can_settle()?;
    report(rt, list, comparison.settle().verdict())?;
    println!(rt; "struck {strikes}")?;
    println!(rt; "sweeps {sweeps}")?;
    Ok(())
}

// A line for each listed variant: yes if the verdict holds it.
fn report(rt: &HostRuntime, list: Mask, verdict: Mask) -> anyhow::Result<()> {
    for v in (0..Mask::size()).filter(|v| list.has(*v)) {
        let answer = if verdict.has(v) { "yes" } else { "no" };
        println!(rt; "{v} {answer}")?;
    }
    Ok(())
}

fn main(rt: HostRuntime) -> anyhow::Result<()> {
    run(&rt)
}

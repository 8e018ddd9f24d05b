// The candidates that are marked.
use crate::swept::LIST;
use families::{Family, Step, can_make};
use lines::{second_left, second_right};
use marking::mark;
use masks::Mask;

const NONE: Mask = Mask { bits: 0 };

const BOTH: Mask = Mask { bits: 0b11 };

const FIRST: Mask = Mask { bits: 0b01 };

const SECOND: Mask = Mask { bits: 0b10 };

// Marks the candidate for the two families and the list, and prints the answer.
fn show(
    rt: &HostRuntime,
    case: &str,
    left: &Family<Mask>,
    right: &Family<Mask>,
    list: Mask,
    candidate: &[Mask],
) -> anyhow::Result<()> {
    let mut scratch = [NONE; 64];
    match mark(left, right, list, candidate, &mut scratch)? {
        Ok(()) => println!(rt; "{case}: accepted")?,
        Err(fault) => println!(rt; "{case}: {fault}")?,
    }
    Ok(())
}

// The second line, with a candidate.
fn second_line(rt: &HostRuntime, case: &str, list: Mask, candidate: &[Mask]) -> anyhow::Result<()> {
    let mut left_memory = [Step::default(); 1];
    let mut right_memory = [Step::default(); 3];
    let (left_steps, right_steps) = (second_left(), second_right());
    can_make(2, &left_steps, left_memory.len())?;
    can_make(3, &right_steps, right_memory.len())?;
    let left = Family::make(2, &left_steps, &mut left_memory);
    let right = Family::make(3, &right_steps, &mut right_memory);
    show(rt, case, &left, &right, list, candidate)
}

// Two silent steps before action 1 on the right, the first in variant 0 only and the second in variant 1 only:
// they are no path for either.
fn broken_path(rt: &HostRuntime) -> anyhow::Result<()> {
    let steps = [
        Step {
            to: 1,
            set: FIRST,
            ..Step::default()
        },
        Step {
            from: 1,
            to: 2,
            set: SECOND,
            ..Step::default()
        },
        Step {
            from: 2,
            action: 1,
            to: 3,
            set: BOTH,
        },
    ];
    let mut left_memory = [Step::default(); 1];
    let mut right_memory = [Step::default(); 3];
    let left_steps = second_left();
    can_make(2, &left_steps, left_memory.len())?;
    can_make(4, &steps, right_memory.len())?;
    let left = Family::make(2, &left_steps, &mut left_memory);
    let right = Family::make(4, &steps, &mut right_memory);
    let candidate = [BOTH, BOTH, BOTH, NONE, NONE, NONE, NONE, BOTH];
    show(rt, "broken path", &left, &right, LIST, &candidate)
}

pub(crate) fn run(rt: &HostRuntime) -> anyhow::Result<()> {
    second_line(rt, "9", LIST, &[BOTH, SECOND, NONE, NONE, NONE, BOTH])?;
    second_line(rt, "10", LIST, &[BOTH, NONE, NONE, NONE, NONE, BOTH])?;
    second_line(rt, "11", LIST, &[BOTH, BOTH, NONE, NONE, NONE, BOTH])?;
    second_line(rt, "start", LIST, &[SECOND, SECOND, NONE, NONE, NONE, BOTH])?;
    broken_path(rt)?;
    second_line(rt, "14", NONE, &[NONE; 6])
}

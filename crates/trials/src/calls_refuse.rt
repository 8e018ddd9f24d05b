// Comparisons and marking refuse by number, and leave what they were given alone.
use comparing::{Comparison, can_begin};
use families::{Draft, Family, Step, can_open};
use marking::mark;
use masks::Mask;
use refusals::Refusal;
use std::test::Fail;
use variants::VariantSet;

const LIST: Mask = Mask { bits: 0b11 };

const OTHER: Mask = Mask { bits: 0b100 };

// A family without steps.
fn stepless<'a>(
    states: u8,
    start: u8,
    memory: &'a mut [Step<Mask>],
) -> Result<Family<'a, Mask>, Refusal> {
    can_open(states, start)?;
    Ok(Draft::open(states, start, memory).close())
}

#[test]
fn a_comparison_refuses_by_number(rt: HostRuntime) -> Result<(), Fail> {
    let mut left_memory = [];
    let mut right_memory = [];
    let mut table = [Mask::none(); 8];
    let left = stepless(2, 0, &mut left_memory)?;
    let right = stepless(3, 1, &mut right_memory)?;
    assert_eq!(rt; can_begin(&left, &right, 5), Err(Refusal::TableTooShort));
    can_begin(&left, &right, 8)?;
    let mut comparison = Comparison::begin(&left, &right, LIST, &mut table);
    assert_eq!(rt; comparison.ask(2, 0, 64), Err(Refusal::NoSuchState));
    assert_eq!(rt; comparison.ask(0, 3, 0), Err(Refusal::NoSuchState));
    assert_eq!(rt; comparison.ask(1, 2, 64), Err(Refusal::NoSuchVariant));
    assert_eq!(rt; comparison.ask(1, 2, 63), Ok(false));
    assert_eq!(rt; comparison.can_settle(), Err(Refusal::NotSettled));
    assert_eq!(rt;
        comparison.sweep(&right, &left),
        Err(Refusal::OtherFamilies)
    );
    assert_eq!(rt;
        comparison.run(9, &left, &left),
        Err(Refusal::OtherFamilies)
    );
    assert_eq!(rt;
        comparison.can_settle(),
        Err(Refusal::NotSettled),
        "no sweep was made"
    );
    assert_eq!(rt; comparison.ask(1, 2, 1), Ok(true), "nothing was struck");
    Ok(())
}

#[test]
fn marking_refuses_by_number(rt: HostRuntime) -> Result<(), Fail> {
    let mut left_memory = [];
    let mut right_memory = [];
    let left = stepless(1, 0, &mut left_memory)?;
    let right = stepless(2, 0, &mut right_memory)?;
    let mut scratch = [OTHER; 6];
    let good = [LIST, Mask::none()];
    let unlisted = [LIST, OTHER, OTHER];
    let refused = mark(&left, &right, LIST, &[OTHER], &mut scratch[0..4]);
    assert_eq!(rt; refused, Err(Refusal::TableTooShort));
    let refused = mark(&left, &right, LIST, &unlisted, &mut scratch[0..4]);
    assert_eq!(rt; refused, Err(Refusal::ScratchTooShort));
    let refused = mark(&left, &right, LIST, &unlisted, &mut scratch);
    assert_eq!(rt; refused, Err(Refusal::UnlistedVariant));
    assert_eq!(rt; scratch[0], OTHER, "a refusal writes nothing");
    assert_eq!(rt; mark(&left, &right, LIST, &good, &mut scratch), Ok(Ok(())));
    assert_eq!(rt;
        scratch[4],
        Mask::all(),
        "the last place of the right reach"
    );
    assert_eq!(rt; scratch[5], OTHER, "later places are untouched");
    Ok(())
}

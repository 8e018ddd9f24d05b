// Drafts and families at their limits, and what is read back.
use families::{Draft, Step, can_open, family_of};
use masks::Mask;
use refusals::Refusal;
use std::test::Fail;
use variants::VariantSet;

#[test]
fn a_family_has_1_to_64_states(rt: HostRuntime) {
    assert_eq!(rt; can_open(64, 63), Ok(()));
    assert_eq!(rt; can_open(1, 0), Ok(()));
    assert_eq!(rt; can_open(0, 0), Err(Refusal::StatesOutOfRange));
    assert_eq!(rt; can_open(65, 0), Err(Refusal::StatesOutOfRange));
    assert_eq!(rt; can_open(64, 64), Err(Refusal::StartOutOfRange));
    assert_eq!(rt; Refusal::StatesOutOfRange.number(), 1);
    assert_eq!(rt; Refusal::StartOutOfRange.number(), 2);
}

#[test]
fn a_family_holds_1024_steps(rt: HostRuntime) -> Result<(), Fail> {
    let step = Step::<Mask>::default();
    let mut memory = vec![in rt.alloc(); step; 1100]?;
    let mut draft = Draft::open(1, 0, &mut memory);
    for _ in 0..1023 {
        draft.step(step)?;
    }
    assert_eq!(rt; draft.step(step), Ok(()), "step 1024");
    assert_eq!(rt; draft.step(step), Err(Refusal::NoRoomForStep));
    assert_eq!(rt; Refusal::NoRoomForStep.number(), 5);
    assert_eq!(rt; draft.close().steps().len(), 1024);
    Ok(())
}

#[test]
fn a_family_has_what_its_draft_was_given(rt: HostRuntime) -> Result<(), Fail> {
    let given = Step {
        from: 0,
        action: 7,
        to: 1,
        set: Mask::only(5),
    };
    let mut memory = [Step::default()];
    let mut draft = Draft::open(2, 1, &mut memory);
    draft.label(0, 0xabcd)?;
    draft.step(given)?;
    assert_eq!(rt; draft.label(2, 1), Err(Refusal::NoSuchState));
    assert_eq!(rt;
        draft.step(Step { to: 2, ..given }),
        Err(Refusal::NoSuchState)
    );
    assert_eq!(rt; draft.step(given), Err(Refusal::NoRoomForStep));
    let family = draft.close();
    assert_eq!(rt; (family.states(), family.start()), (2, 1));
    assert_eq!(rt; family.label(0), Some(0xabcd));
    assert_eq!(rt; family.label(1), Some(0));
    assert_eq!(rt; family.label(2), None);
    assert_eq!(rt; family.steps(), [given].as_slice());
    Ok(())
}

#[test]
fn a_list_of_steps_makes_a_family_in_one_call(rt: HostRuntime) -> Result<(), Fail> {
    let given = Step {
        action: 7,
        to: 1,
        set: Mask::only(5),
        ..Step::default()
    };
    let back = Step {
        from: 1,
        to: 0,
        ..given
    };
    let old = Step { action: 9, ..given };
    let mut memory = [old; 3];
    let family = family_of(2, &[given, back], &mut memory)?;
    assert_eq!(rt; (family.states(), family.start()), (2, 0));
    assert_eq!(rt; (family.label(0), family.label(1)), (Some(0), Some(0)));
    assert_eq!(rt; family.steps(), [given, back].as_slice());
    assert_eq!(rt; memory, [given, back, old], "the third place is untouched");
    Ok(())
}

#[test]
fn a_refused_list_leaves_the_memory(rt: HostRuntime) {
    let given = Step::<Mask>::default();
    let beyond = Step { to: 1, ..given };
    let old = Step { action: 9, ..given };
    let mut memory = [old; 2];
    let refused = family_of(0, &[given], &mut memory).err();
    assert_eq!(rt; refused, Some(Refusal::StatesOutOfRange));
    let refused = family_of(65, &[given], &mut memory).err();
    assert_eq!(rt; refused, Some(Refusal::StatesOutOfRange));
    let refused = family_of(1, &[given, beyond], &mut memory).err();
    assert_eq!(rt; refused, Some(Refusal::NoSuchState));
    let refused = family_of(1, &[given, given, given], &mut memory).err();
    assert_eq!(rt; refused, Some(Refusal::NoRoomForStep));
    let refused = family_of(1, &[given, given, beyond], &mut memory).err();
    assert_eq!(rt; refused, Some(Refusal::NoSuchState));
    assert_eq!(rt; memory, [old, old], "no step was written");
}

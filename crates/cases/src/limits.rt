// Sizes at their limits.
use crate::shown::Granted;
use families::{Draft, Step, can_open};
use masks::Mask;

// How many states a family has.
pub(crate) fn states(rt: &HostRuntime) -> anyhow::Result<()> {
    println!(rt;
        "12: 64 states: {}, 0: {}, 65: {}",
        Granted(can_open(64, 0)),
        Granted(can_open(0, 0)),
        Granted(can_open(65, 0))
    )?;
    Ok(())
}

// How many steps it holds, with memory enough.
pub(crate) fn steps(rt: &HostRuntime) -> anyhow::Result<()> {
    let step = Step::<Mask>::default();
    let mut memory = vec![in rt.alloc(); step; 1100]?;
    can_open(1, 0)?;
    let mut draft = Draft::open(1, 0, &mut memory);
    for _ in 0..1023 {
        draft.step(step)?;
    }
    println!(rt;
        "12: step 1024: {}, step 1025: {}",
        Granted(draft.step(step)),
        Granted(draft.step(step))
    )?;
    Ok(())
}

// Kinds built of kinds.
use crate::shown::Granted;
use comparing::can_begin;
use families::{Draft, Step, can_open};
use masks::Mask;
use pairs::Pair;
use refusals::Refusal;
use variants::{Single, VariantSet};

type Two<S> = Pair<S, S>;

type Masks16 = Two<Two<Two<Two<Mask>>>>;

// A comparison of a family of one state with itself, in a table of one place.
fn can_begin_one<S: VariantSet>() -> Result<(), Refusal> {
    can_open(1, 0)?;
    let mut memory: [Step<S>; 0] = [];
    let family = Draft::open(1, 0, &mut memory).close();
    can_begin(&family, &family, 1)
}

// A Pair of Single and Mask.
pub(crate) fn pair(rt: &HostRuntime) -> anyhow::Result<()> {
    let size = Pair::<Single, Mask>::size();
    let last = Pair {
        first: Single::none(),
        second: Mask::only(63),
    };
    let has = last.has(64);
    let beyond = Pair::<Single, Mask>::only(65).count();
    println!(rt; "8: size {size}, the mask's 63 is number 64: {has}, only 65 holds {beyond}")?;
    Ok(())
}

// Sixteen Masks, and a Single more.
pub(crate) fn piles(rt: &HostRuntime) -> anyhow::Result<()> {
    println!(rt;
        "13: sixteen Masks begin: {}, a Single more: {}",
        Granted(can_begin_one::<Masks16>()),
        Granted(can_begin_one::<Pair<Masks16, Single>>())
    )?;
    Ok(())
}

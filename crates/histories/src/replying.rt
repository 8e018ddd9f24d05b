// The replies to requests that leave a comparison in its phase.
ghost use Rattle.std.specs.Prelude.{◌≡◌};
ghost use Rattle.theory.specs.Calls.{Moment};
ghost use Rattle.tables.specs.Tables.{standing};
ghost use Rattle.comparing.specs.Moments.{frame};
ghost use Rattle.histories.specs.declared.Request.TheVariants as request;
ghost use Rattle.histories.specs.Turns.{Asks};
ghost use Rattle.histories.specs.Plays.{StaysOpen};

use crate::Reply;
use comparing::Comparison;
use families::Family;
use refusals::Refusal;
use variants::VariantSet;

// The reply to a sweep.
pub(crate) fn sweep<S: VariantSet>(
    comparison: &mut Comparison<S>,
    left: &Family<S>,
    right: &Family<S>,
) -> Result<Reply<S>, Refusal>
    ensures { StaysOpen S.VariantSet left.now right.now comparison.old request.Sweep result comparison.new }
{
    Ok(Reply::Struck(comparison.sweep(left, right)?))
}

// The reply to a run.
pub(crate) fn run<S: VariantSet>(
    comparison: &mut Comparison<S>,
    budget: u32,
    left: &Family<S>,
    right: &Family<S>,
) -> Result<Reply<S>, Refusal>
    ensures { StaysOpen S.VariantSet left.now right.now comparison.old (request.Run budget) result comparison.new }
{
    let (sweeps, strikes) = comparison.run(budget, left, right)?;
    Ok(Reply::Ran { sweeps, strikes })
}

// The reply to a question, in either phase.
pub(crate) fn ask<S: VariantSet, P>(
    comparison: &Comparison<S, P>,
    s: u8,
    t: u8,
    v: u32,
) -> Result<Reply<S>, Refusal>
    ensures { (m : Moment) → m.table ≡ standing S.VariantSet comparison.now.table → Asks S.VariantSet (frame S.VariantSet comparison.now) m s t v result }
{
    Ok(Reply::Stands(comparison.ask(s, t, v)?))
}

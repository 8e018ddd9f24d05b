// Requests, one after the other.
ghost use Rattle.histories.specs.declared.Stage.TheVariants as stage;
ghost use Rattle.families.specs.declared.Family.{Family};
ghost use Rattle.histories.specs.Plays.{TakesOne, Plays};

use crate::replying::{ask, run, sweep};
use crate::{Played, Reply, Request, Stage, Taken, Turn};
use comparing::{Comparison, Settled};
use families::Family;
use variants::VariantSet;

// One request to a comparison that is not settled.
fn take_open<'t, S: VariantSet>(
    mut comparison: Comparison<'t, S>,
    left: &Family<S>,
    right: &Family<S>,
    request: Request,
) -> Taken<'t, S>
    ensures { TakesOne S.VariantSet left.now right.now (stage.Open comparison.entry) request result }
{
    let reply = match request {
        Request::Sweep => Some(sweep(&mut comparison, left, right)),
        Request::Run(budget) => Some(run(&mut comparison, budget, left, right)),
        Request::Ask { s, t, v } => Some(ask(&comparison, s, t, v)),
        Request::Settle => match comparison.can_settle() {
            Ok(()) => {
                return Taken {
                    stage: Stage::Settled(comparison.settle()),
                    reply: Some(Ok(Reply::Settled)),
                };
            }
            Err(refusal) => Some(Err(refusal)),
        },
        Request::Verdict => None,
    };
    Taken {
        stage: Stage::Open(comparison),
        reply,
    }
}

// One request to a settled comparison.
fn take_settled<'t, S: VariantSet>(settled: Settled<'t, S>, request: Request) -> Taken<'t, S>
    ensures { (left right : Family S) → TakesOne S.VariantSet left right (stage.Settled settled.entry) request result }
{
    let reply = match request {
        Request::Ask { s, t, v } => Some(ask(&settled, s, t, v)),
        Request::Verdict => Some(Ok(Reply::Verdict(settled.verdict()))),
        Request::Sweep | Request::Run(_) | Request::Settle => None,
    };
    Taken {
        stage: Stage::Settled(settled),
        reply,
    }
}

// One request.
fn take<'t, S: VariantSet>(
    stage: Stage<'t, S>,
    left: &Family<S>,
    right: &Family<S>,
    request: Request,
) -> Taken<'t, S>
    ensures { TakesOne S.VariantSet left.now right.now stage.entry request result }
{
    match stage {
        Stage::Open(comparison) => take_open(comparison, left, right, request),
        Stage::Settled(settled) => take_settled(settled, request),
    }
}

// Does the requests in order, with the two families, and writes each answer beside its request, up to the
// first that the comparison does not take as it then stands.
pub fn play<'t, S: VariantSet>(
    mut stage: Stage<'t, S>,
    left: &Family<S>,
    right: &Family<S>,
    turns: &mut [Turn<S>],
) -> Played<'t, S>
    ensures { Plays S.VariantSet left.now right.now stage.entry turns.old turns.new result }
{
    for (done, turn) in turns.iter_mut().enumerate() {
        let Taken { stage: next, reply } = take(stage, left, right, turn.request);
        stage = next;
        let Some(reply) = reply else {
            return Played { done, stage };
        };
        turn.reply = Some(reply);
    }
    Played {
        done: turns.len(),
        stage,
    }
}

// A comparison that is stepped through, request by request.
use crate::swept::LIST;
use comparing::{Comparison, can_begin};
use families::{Family, Step, can_make};
use histories::{Reply, Request, Stage, Turn, play};
use lines::{first_left, first_right};
use masks::Mask;
use refusals::Refusal;

const REQUESTS: [Request; 9] = [
    Request::Settle,
    Request::Sweep,
    Request::Ask { s: 0, t: 0, v: 1 },
    Request::Settle,
    Request::Run(9),
    Request::Ask { s: 0, t: 0, v: 1 },
    Request::Settle,
    Request::Verdict,
    Request::Sweep,
];

// What a request was answered.
fn show(rt: &HostRuntime, reply: Result<Reply<Mask>, Refusal>) -> anyhow::Result<()> {
    match reply {
        Ok(Reply::Struck(strikes)) => println!(rt; "  sweep: {strikes} struck")?,
        Ok(Reply::Ran { sweeps, strikes }) => {
            println!(rt; "  run: {sweeps} sweeps, {strikes} struck")?
        }
        Ok(Reply::Stands(stands)) => println!(rt; "  ask: {stands}")?,
        Ok(Reply::Settled) => println!(rt; "  settled")?,
        Ok(Reply::Verdict(set)) => println!(rt; "  verdict {set}")?,
        Err(refusal) => println!(rt; "  refused by {}", refusal.number())?,
    }
    Ok(())
}

// Steps through the first line; the last request, a sweep after settling, is not taken.
pub(crate) fn run(rt: &HostRuntime) -> anyhow::Result<()> {
    let mut left_memory = [Step::default(); 3];
    let mut right_memory = [Step::default(); 2];
    let mut table = [Mask::default(); 4];
    let mut turns = REQUESTS.map(|request| Turn {
        request,
        reply: None,
    });
    let (left_steps, right_steps) = (first_left(), first_right());
    can_make(2, &left_steps, left_memory.len())?;
    can_make(2, &right_steps, right_memory.len())?;
    let left = Family::make(2, &left_steps, &mut left_memory);
    let right = Family::make(2, &right_steps, &mut right_memory);
    can_begin(&left, &right, table.len())?;
    let comparison = Comparison::begin(&left, &right, LIST, &mut table);
    let done = play(Stage::Open(comparison), &left, &right, &mut turns).done;
    println!(rt; "stepped: {done} of {} requests done", turns.len())?;
    for reply in turns.iter().filter_map(|turn| turn.reply) {
        show(rt, reply)?;
    }
    Ok(())
}

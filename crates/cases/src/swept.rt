// The lines that are swept.
use comparing::{Comparison, can_begin};
use families::{Draft, Family, Step, can_make, can_open};
use lines::{crossed_left, crossed_right, first_left, first_right};
use masks::Mask;
use refusals::Refusal;

// Variants 0 and 1.
pub const LIST: Mask = Mask { bits: 0b11 };

// What a run left, and the verdict, or why it does not settle.
#[derive(Drop)]
struct Outcome {
    table: Vec<Mask>,
    verdict: Result<Mask, Refusal>,
}

// A new comparison of the two families, run with the budget; what the run answered is printed.
fn compare(
    rt: &HostRuntime,
    case: &str,
    left: &Family<Mask>,
    right: &Family<Mask>,
    budget: u32,
) -> anyhow::Result<Outcome> {
    let places = left.pairs_with(right);
    let mut table = vec![in rt.alloc(); Mask::default(); places]?;
    can_begin(left, right, table.len())?;
    let mut comparison = Comparison::begin(left, right, LIST, &mut table);
    let (sweeps, strikes) = comparison.run(budget, left, right)?;
    let verdict = comparison
        .can_settle()
        .map(|()| comparison.settle().verdict());
    print!(rt; "{case}: run {budget} makes {sweeps} sweeps, {strikes} struck,")?;
    Ok(Outcome { table, verdict })
}

impl Outcome {
    // The sets in the table, row by row.
    fn show_table(&self, rt: &HostRuntime) -> anyhow::Result<()> {
        print!(rt; " table")?;
        for set in &self.table {
            print!(rt; " {set}")?;
        }
        println!(rt; "")?;
        Ok(())
    }

    // The verdict, or by which number settling was refused.
    fn show_verdict(&self, rt: &HostRuntime) -> anyhow::Result<()> {
        match self.verdict {
            Ok(verdict) => println!(rt; " verdict {verdict}")?,
            Err(refusal) => println!(rt; " settle refused by {}", refusal.number())?,
        }
        Ok(())
    }
}

fn first_line(rt: &HostRuntime) -> anyhow::Result<()> {
    let mut left_memory = [Step::default(); 3];
    let mut right_memory = [Step::default(); 2];
    let (left_steps, right_steps) = (first_left(), first_right());
    can_make(2, &left_steps, left_memory.len())?;
    can_make(2, &right_steps, right_memory.len())?;
    let left = Family::make(2, &left_steps, &mut left_memory);
    let right = Family::make(2, &right_steps, &mut right_memory);
    compare(rt, "1", &left, &right, 1)?.show_table(rt)?;
    compare(rt, "2", &left, &right, 2)?.show_table(rt)?;
    compare(rt, "2", &left, &right, 3)?.show_table(rt)?;
    compare(rt, "starts not struck", &left, &right, 1)?.show_verdict(rt)?;
    compare(rt, "3", &left, &right, 2)?.show_verdict(rt)?;
    compare(rt, "4", &left, &right, 9)?.show_verdict(rt)
}

fn crossed_line(rt: &HostRuntime) -> anyhow::Result<()> {
    let mut left_memory = [Step::default(); 2];
    let mut right_memory = [Step::default(); 4];
    let (left_steps, right_steps) = (crossed_left(), crossed_right());
    can_make(3, &left_steps, left_memory.len())?;
    can_make(4, &right_steps, right_memory.len())?;
    let left = Family::make(3, &left_steps, &mut left_memory);
    let right = Family::make(4, &right_steps, &mut right_memory);
    compare(rt, "5", &left, &right, 9)?.show_verdict(rt)
}

// One state and no steps, with label 0 and with label 1.
fn resting_line(rt: &HostRuntime) -> anyhow::Result<()> {
    let mut dark_memory = [];
    let mut lit_memory = [];
    can_make::<Mask>(1, &[], 0)?;
    let dark = Family::make(1, &[], &mut dark_memory);
    can_open(1, 0)?;
    let mut lit = Draft::open(1, 0, &mut lit_memory);
    lit.label(0, 1)?;
    let lit = lit.close();
    compare(rt, "6", &dark, &lit, 1)?.show_verdict(rt)?;
    compare(rt, "7", &dark, &dark, 1)?.show_verdict(rt)
}

pub(crate) fn run(rt: &HostRuntime) -> anyhow::Result<()> {
    first_line(rt)?;
    crossed_line(rt)?;
    resting_line(rt)
}

// A run of no sweeps.
pub(crate) fn no_sweep(rt: &HostRuntime) -> anyhow::Result<()> {
    let mut left_memory = [Step::default(); 3];
    let mut right_memory = [Step::default(); 2];
    let (left_steps, right_steps) = (first_left(), first_right());
    can_make(2, &left_steps, left_memory.len())?;
    can_make(2, &right_steps, right_memory.len())?;
    let left = Family::make(2, &left_steps, &mut left_memory);
    let right = Family::make(2, &right_steps, &mut right_memory);
    compare(rt, "14", &left, &right, 0)?.show_verdict(rt)
}

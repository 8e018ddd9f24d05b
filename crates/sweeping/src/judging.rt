// What the rule leaves of a pair.
ghost use Rattle.tables.specs.Tables.{standing};
ghost use Rattle.sweeping.specs.Judging.{JudgedBy, JudgedFurther, spared, spared_at};
ghost use Rattle.sweeping.specs.Visits.{rule_of_sides};

use crate::Sides;
use answering::{Row, answered};
use families::Step;
use tables::Table;
use variants::VariantSet;

// What is kept of a pair's set, and how many variants were struck from it.
#[derive(Clone, Copy)]
pub struct Judged<S> {
    pub(crate) kept: S,
    pub(crate) strikes: u64,
}

// `judged` after a left step that the right side follows in the variants of `followed`.
fn struck<S: VariantSet>(judged: Judged<S>, left: Step<S>, followed: S) -> Judged<S>
    ensures { JudgedFurther S.VariantSet judged (spared (S.VariantSet.holds left.set) (S.VariantSet.holds followed)) result }
{
    let missing = left.set.without(followed);
    let struck = judged.kept.both(missing);
    Judged {
        kept: judged.kept.without(missing),
        strikes: judged.strikes.saturating_add(u64::from(struck.count())),
    }
}

impl<'f, S: VariantSet> Sides<'f, S> {
    // `judged` after the left step, which strikes nothing where it does not leave `s`.
    #[tactic(auto, using(theory::proofs::Cards::gone_nothing, theory::proofs::Rules::answered_row))]
    fn after_step(
        &self,
        judged: Judged<S>,
        table: &Table<S>,
        left: Step<S>,
        s: u8,
        t: u8,
    ) -> Judged<S>
        ensures { JudgedFurther S.VariantSet judged (spared_at S.VariantSet self.now (standing S.VariantSet table.now) s t left) result }
    {
        if left.from != s {
            return judged;
        }
        let entered = Row {
            cells: table.row(left.to),
        };
        let followed = answered(left, self.right, &entered, t);
        struck(judged, left, followed)
    }

    // What the rule leaves of the pair of `s` and `t`.
    pub(crate) fn judge(&self, table: &Table<S>, s: u8, t: u8) -> Judged<S>
        ensures { JudgedBy S.VariantSet (standing S.VariantSet table.now s t) (rule_of_sides S.VariantSet self.now (standing S.VariantSet table.now) s t) result }
    {
        let held = Judged {
            kept: table.at(s, t),
            strikes: 0,
        };
        self.left.steps_from(s).fold(held, |judged, (_, step)| {
            self.after_step(judged, table, step, s, t)
        })
    }
}

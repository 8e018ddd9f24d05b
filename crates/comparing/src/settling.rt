// Settling, the verdict, and the memory given back.
ghost use Rattle.std.specs.Prelude.{◌≡◌, Some, MatchResult};
ghost use Rattle.refusals.specs.Numbers.{plain};
ghost use Rattle.comparing.specs.Outcomes.{settle_answer, SettleRefused, Settles, Judges};

use crate::{Comparison, Quiet, Settled};
use refusals::Refusal;
use variants::VariantSet;

impl<'t, S: VariantSet> Comparison<'t, S> {
    // Whether a sweep was made and the last one struck nothing.
    #[tactic(auto, using(crate::proofs::Calls::refused_settle))]
    pub fn can_settle(&self) -> Result<(), Refusal>
        ensures answers { plain result ≡ settle_answer self.now.phase.last }
        ensures grants { MatchResult result (λ _. self.now.phase.last ≡ Some 0) (λ _. SettleRefused S.VariantSet self.now (plain result)) }
    {
        if self.phase.last == Some(0) {
            Ok(())
        } else {
            Err(Refusal::NotSettled)
        }
    }

    // The comparison, settled, as `can_settle` granted.
    pub fn settle(self) -> Settled<'t, S>
        requires { self.phase.last ≡ Some 0 }
        ensures settles { Settles S.VariantSet self.entry result }
        ensures memory { result.table.cells.now ≡ self.entry.table.cells.now }
        ensures table { result.table ≡ self.entry.table }
    {
        let Comparison {
            table,
            left_start,
            right_start,
            ..
        } = self;
        Comparison {
            table,
            left_start,
            right_start,
            phase: Quiet,
        }
    }
}

impl<'t, S: VariantSet> Settled<'t, S> {
    // The variants in which the pair of starts is related.
    pub fn verdict(&self) -> S
        ensures { Judges S.VariantSet self.now result }
    {
        self.table.at(self.left_start, self.right_start)
    }
}

impl<'t, S: VariantSet, P: Drop> Comparison<'t, S, P> {
    // The lent memory, given back.
    pub fn release(self) -> &'t mut [S]
        ensures { result.now ≡ self.entry.table.cells.now }
    {
        let Comparison { table, .. } = self;
        table.release()
    }
}

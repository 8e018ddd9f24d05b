// Sweeps, one at a time or as many as it takes.
ghost use Rattle.std.specs.Prelude.{◌≡◌, ℕ, ◌*◌, ◌≤◌, Decides, MatchResult};
ghost use Rattle.theory.specs.Sweeps.{strikes};
ghost use Rattle.theory.specs.Calls.{Brings, after_sweep};
ghost use Rattle.variants.specs.Kinds.{Countable};
ghost use Rattle.families.specs.Drafts.{model};
ghost use Rattle.tables.specs.Tables.{standing};
ghost use Rattle.comparing.specs.Moments.{frame, moment, Continues};
ghost use Rattle.comparing.specs.Outcomes.{Sweeps, Runs};

use crate::Comparison;
use families::Family;
use refusals::Refusal;
use sweeping::sweep;
use variants::VariantSet;

impl<'t, S: VariantSet> Comparison<'t, S> {
    // Whether the families have the numbers of states and the starts that begin saw.
    fn brings(&self, left: &Family<S>, right: &Family<S>) -> bool
        ensures { Decides result (Brings (frame S.VariantSet self.now) (model S.VariantSet left.now) (model S.VariantSet right.now)) }
    {
        left.states() == self.table.rows()
            && left.start() == self.left_start
            && right.states() == self.table.cols()
            && right.start() == self.right_start
    }

    // One sweep with families that fit.
    fn sweep_once(&mut self, left: &Family<S>, right: &Family<S>) -> u64
        requires { Brings (frame S.VariantSet self.old) (model S.VariantSet left.now) (model S.VariantSet right.now) }
        ensures kept { Continues self.old self.new }
        ensures moment { Countable S.VariantSet → moment S.VariantSet self.new ≡ after_sweep S.VariantSet.variants (model S.VariantSet left.now) (model S.VariantSet right.now) (moment S.VariantSet self.old) }
        ensures strikes { Countable S.VariantSet → result ≡ strikes (model S.VariantSet left.now) (model S.VariantSet right.now) S.VariantSet.variants (standing S.VariantSet self.old.table) }
        ensures few { Countable S.VariantSet → result ≤ 256 * (256 * 1024) }
    {
        let struck = sweep(&mut self.table, left, right);
        self.phase.last = Some(struck);
        struck
    }

    // One sweep over all pairs; answers how many variants it struck.
    pub fn sweep(&mut self, left: &Family<S>, right: &Family<S>) -> Result<u64, Refusal>
        ensures does { Sweeps S.VariantSet self.old left.now right.now result self.new }
        ensures leaves { MatchResult result (λ _. Continues self.old self.new) (λ _. self.new ≡ self.old) }
    {
        if !self.brings(left, right) {
            return Err(Refusal::OtherFamilies);
        }
        Ok(self.sweep_once(left, right))
    }

    // Sweeps until one strikes nothing, at most `budget` times; answers the sweeps made and the strikes made.
    #[tactic(auto, using(crate::proofs::Calls::continues_trans))]
    pub fn run(
        &mut self,
        budget: u32,
        left: &Family<S>,
        right: &Family<S>,
    ) -> Result<(u32, u64), Refusal>
        ensures does { Runs S.VariantSet self.old budget left.now right.now result self.new }
        ensures leaves { MatchResult result (λ _. Continues self.old self.new) (λ _. self.new ≡ self.old) }
    {
        if !self.brings(left, right) {
            return Err(Refusal::OtherFamilies);
        }
        let mut strikes: u64 = 0;
        for sweeps in 1..=budget {
            let struck = self.sweep_once(left, right);
            strikes = strikes.saturating_add(struck);
            if struck == 0 {
                return Ok((sweeps, strikes));
            }
        }
        Ok((budget, strikes))
    }
}

// Questions to a comparison, settled or not.
ghost use Rattle.std.specs.Prelude.{◌≡◌};
ghost use Rattle.theory.specs.Calls.{Moment};
ghost use Rattle.tables.specs.Tables.{standing};
ghost use Rattle.comparing.specs.Moments.{frame};
ghost use Rattle.comparing.specs.Outcomes.{Asks};

use crate::Comparison;
use refusals::Refusal;
use variants::VariantSet;

impl<'t, S: VariantSet, P> Comparison<'t, S, P> {
    // Whether the variant stands at the pair; the same at every moment with this table.
    pub fn ask(&self, s: u8, t: u8, v: u32) -> Result<bool, Refusal>
        ensures { (m : Moment) → m.table ≡ standing S.VariantSet self.now.table → Asks S.VariantSet (frame S.VariantSet self.now) m s t v result }
    {
        if s >= self.table.rows() || t >= self.table.cols() {
            return Err(Refusal::NoSuchState);
        }
        if v >= S::size() {
            return Err(Refusal::NoSuchVariant);
        }
        Ok(self.table.at(s, t).has(v))
    }
}

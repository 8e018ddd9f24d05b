// Working the reach out: joining sets along the silent steps, round after round.
ghost use Rattle.std.specs.Prelude.{◌≡◌, ◌<◌, Decides};
ghost use Rattle.theory.specs.Reach.{joined, stepped, round as rounded};
ghost use Rattle.families.specs.Models.{step_of};
ghost use Rattle.families.specs.Drafts.{model};
ghost use Rattle.tables.specs.Tables.{Fits, Resembles};
ghost use Rattle.reaching.specs.Working.{Kept, WorkedOut, worked, family_of};

use crate::{Reaching, Staying};
use families::{Family, Step};
use tables::{Table, fill};
use variants::VariantSet;

impl<'f, 'a, 'r, 't, S: VariantSet> Reaching<'f, 'a, 'r, 't, S> {
    // What the step holds of the reach from `i` to the state it leaves joins the reach from `i` to the state it
    // enters. Answers whether no set grew.
    fn join(&mut self, i: u8, step: Step<S>) -> bool
        requires row { i < self.old.table.now.rows }
        requires target { step.to < self.old.table.now.cols }
        ensures kept { Kept self.old self.new }
        ensures joined { worked S.VariantSet self.new ≡ joined (step_of S.VariantSet step) i (worked S.VariantSet self.old) }
        ensures still { Decides result (worked S.VariantSet self.new ≡ worked S.VariantSet self.old) }
    {
        let old = self.table.at(i, step.to);
        let new = old.either(self.table.at(i, step.from).both(step.set));
        self.table.put(i, step.to, new);
        new.same(old)
    }

    // The same from each state in turn, if the step is silent.
    fn pass(&mut self, step: Step<S>) -> bool
        requires target { step.to < self.old.table.now.cols }
        ensures kept { Kept self.old self.new }
        ensures stepped { worked S.VariantSet self.new ≡ stepped self.old.table.now.rows (step_of S.VariantSet step) (worked S.VariantSet self.old) }
        ensures still { Decides result (worked S.VariantSet self.new ≡ worked S.VariantSet self.old) }
    {
        if step.action != 0 {
            return true;
        }
        let mut still = true;
        for i in 0..self.table.rows() {
            still &= self.join(i, step);
        }
        still
    }

    // One round: once through the silent steps in list order. Answers whether no set grew.
    fn round(&mut self) -> bool
        ensures kept { Kept self.old self.new }
        ensures rounded { worked S.VariantSet self.new ≡ rounded self.old.table.now.rows (family_of S.VariantSet self.old).steps (worked S.VariantSet self.old) }
        ensures still { Decides result (worked S.VariantSet self.new ≡ worked S.VariantSet self.old) }
    {
        let mut still = true;
        for (_, step) in self.family.silent_steps() {
            still &= self.pass(step);
        }
        still
    }
}

// Works the silent reach of the family out in the table, in rounds up to the first in which no set grows; answers
// how many.
pub(crate) fn rounds<S: VariantSet>(family: &Family<S>, table: &mut Table<S>) -> u32
    requires rows { table.old.rows ≡ (model S.VariantSet family.now).states }
    requires cols { table.old.cols ≡ (model S.VariantSet family.now).states }
    requires fits { Fits table.old }
    ensures kept { Resembles table.old table.new }
    ensures reach { WorkedOut S.VariantSet (model S.VariantSet family.now) result table.new }
{
    fill(table, &Staying);
    let mut reaching = Reaching { family, table };
    let mut made: u32 = 0;
    loop {
        made = made.saturating_add(1);
        if reaching.round() {
            return made;
        }
    }
}

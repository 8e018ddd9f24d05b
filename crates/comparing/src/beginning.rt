// How a comparison begins.
ghost use Rattle.std.specs.Prelude.{◌≡◌, length, OnOk};
ghost use Rattle.theory.specs.Sweeps.{begun};
ghost use Rattle.theory.specs.Histories.{ComparingIsExact};
ghost use Rattle.refusals.specs.Numbers.{plain};
ghost use Rattle.families.specs.Drafts.{model};
ghost use Rattle.comparing.specs.Moments.{Begun};
ghost use Rattle.comparing.specs.Outcomes.{begin_answer, Beginnable};

use crate::{Comparison, Sweeping};
use families::Family;
use refusals::Refusal;
use tables::{Origin, Table, fill};
use variants::{LIMIT, VariantSet};

// What a comparison begins with: the list where the labels are equal, else nothing.
#[derive(Drop)]
struct Beginning<'f, S> {
    left: &'f Family<'f, S>,
    right: &'f Family<'f, S>,
    list: S,
}

impl<'f, S: VariantSet> Origin<S> for Beginning<'f, S> {
    ghost stands = { λ b. begun (model S.VariantSet b.left.now) (model S.VariantSet b.right.now) (S.VariantSet.holds b.list) };

    #[tactic(auto, unfolding(theory::specs::Systems::agree))]
    fn set_at(&self, s: u8, t: u8) -> S {
        let (Some(a), Some(b)) = (self.left.label(s), self.right.label(t)) else {
            return S::none();
        };
        if a == b { self.list } else { S::none() }
    }
}

// Whether a comparison of the two families can begin in a table of so many places.
pub fn can_begin<S: VariantSet>(
    left: &Family<S>,
    right: &Family<S>,
    places: usize,
) -> Result<(), Refusal>
    ensures answers { plain result ≡ begin_answer S.VariantSet.variants (model S.VariantSet left.now).states (model S.VariantSet right.now).states places }
    ensures grants { OnOk result (Beginnable S.VariantSet left.now right.now places) }
{
    if S::size() > LIMIT {
        return Err(Refusal::KindTooLarge);
    }
    if places < left.pairs_with(right) {
        return Err(Refusal::TableTooShort);
    }
    Ok(())
}

impl<'t, S: VariantSet> Comparison<'t, S> {
    // A comparison that `can_begin` granted: of the two families, over the variants of the list, in the lent table.
    pub fn begin(
        left: &Family<S>,
        right: &Family<S>,
        list: S,
        table: &'t mut [S],
    ) -> Comparison<'t, S>
        requires { Beginnable S.VariantSet left.now right.now (length table.old) }
        ensures begins { Begun S.VariantSet left.now right.now list table.old result }
        ensures memory { result.table.cells.ghost_name ≡ table.entry.ghost_name }
        ensures promises { ComparingIsExact S.VariantSet.variants (model S.VariantSet left.now) (model S.VariantSet right.now) (S.VariantSet.holds list) }
    {
        let mut table = Table::over(left.states(), right.states(), table);
        fill(&mut table, &Beginning { left, right, list });
        Comparison {
            table,
            left_start: left.start(),
            right_start: right.start(),
            phase: Sweeping { last: None },
        }
    }
}

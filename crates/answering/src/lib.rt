#![tactic(auto)]

// In which variants a step of one side is answered by a step of the other with the same action.
ghost use Rattle.std.specs.Prelude.{◌≡◌, ℕ, Bool, ◌||◌};
ghost use Rattle.theory.specs.Sweeps.{answered};
ghost use Rattle.families.specs.Models.{step_of};
ghost use Rattle.families.specs.Drafts.{model};
ghost use Rattle.tables.specs.Cells.{cell};
ghost use Rattle.answering.specs.Partners.{each_row, answers_into};

use families::{Family, Step};
use tables::nth;
use variants::VariantSet;

// The partners of a state on the other side, each in the variants in which the two are paired.
pub trait Partners<S: VariantSet> {
    // Whether the state is a partner in the variant.
    ghost paired: { Self → ℕ → ℕ → Bool };

    // The variants in which the state is a partner.
    fn with(&self, state: u8) -> S
        ensures { (v : ℕ) → S.VariantSet.holds result v ≡ paired self.now state v };
}

// The partners as a row of sets, one for each state.
#[derive(Drop)]
pub struct Row<'r, S> {
    pub cells: &'r [S],
}

impl<'r, S: VariantSet> Partners<S> for Row<'r, S> {
    ghost paired = { λ r t v. cell S.VariantSet r.cells.now t v };

    fn with(&self, state: u8) -> S {
        nth(self.cells, state)
    }
}

// `so_far`, and the variants in which `answer` is a step from `t` with the action of `step` into one of the
// partners: both hold them, the step and the pair.
fn joined<S: VariantSet, P: Partners<S>>(
    so_far: S,
    step: Step<S>,
    answer: Step<S>,
    partners: &P,
    t: u8,
) -> S
    ensures { (v : ℕ) → S.VariantSet.holds result v ≡ (S.VariantSet.holds so_far v || answers_into S.VariantSet (P.Partners.paired partners.now) t step answer v) }
{
    if answer.from == t && answer.action == step.action {
        so_far.either(answer.set.both(partners.with(answer.to)))
    } else {
        so_far
    }
}

// The variants in which some step of the family from `t` has the action of `step` and enters one of the
// partners.
pub fn answered<S: VariantSet, P: Partners<S>>(
    step: Step<S>,
    family: &Family<S>,
    partners: &P,
    t: u8,
) -> S
    ensures { (v : ℕ) → S.VariantSet.holds result v ≡ answered (model S.VariantSet family.now).steps (each_row (P.Partners.paired partners.now)) t (step_of S.VariantSet step) v }
{
    family.steps_from(t).fold(S::none(), |found, (_, answer)| {
        joined(found, step, answer, partners, t)
    })
}

// Families that are made of a list of steps.
ghost use Rattle.std.specs.Prelude.{◌≡◌, ◌++◌, map, length, drop, [], OnOk, IfOk};
ghost use Rattle.refusals.specs.Numbers.{answer, plain};
ghost use Rattle.families.specs.Models.{step_of, made};
ghost use Rattle.families.specs.Drafts.{model};
ghost use Rattle.families.specs.Making.{family_answer, Makeable, Made};

use crate::drafting::can_open;
use crate::{Draft, Family, Step};
use refusals::Refusal;
use variants::VariantSet;

// Whether a family of so many states can be made of the steps, in memory of so many places.
pub fn can_make<S: Copy>(states: u8, steps: &[Step<S>], places: usize) -> Result<(), Refusal>
    ensures answers { plain result ≡ family_answer states places steps.now }
    ensures grants { OnOk result (Makeable states places steps.now) }
{
    can_open(states, 0)?;
    for (held, step) in steps.iter().enumerate() {
        if step.from >= states || step.to >= states {
            return Err(Refusal::NoSuchState);
        }
        if held >= 1024 || held >= places {
            return Err(Refusal::NoRoomForStep);
        }
    }
    Ok(())
}

impl<'a, S: VariantSet> Family<'a, S> {
    // The closed family that `can_make` granted: of so many states, with the steps in their order, over the lent
    // memory; it starts in state 0, and all labels are 0.
    pub fn make(states: u8, steps: &[Step<S>], memory: &'a mut [Step<S>]) -> Family<'a, S>
        requires { Makeable states (length memory.old) steps.now }
        ensures { Made S.VariantSet states steps.now memory.old result }
    {
        let mut draft = Draft::open(states, 0, memory);
        for step in steps {
            draft.parts.push(*step);
        }
        draft.close()
    }
}

// `can_make` and `Family::make` in one call: the closed family of so many states that has the steps, in their order,
// over the lent memory; it starts in state 0, and all labels are 0.
pub fn family_of<'a, S: VariantSet>(
    states: u8,
    steps: &[Step<S>],
    memory: &'a mut [Step<S>],
) -> Result<Family<'a, S>, Refusal>
    ensures answers { answer (λ _. []) result ≡ family_answer states (length memory.old) steps.now }
    ensures closes { IfOk result (λ f. model S.VariantSet f ≡ made states (map (step_of S.VariantSet) steps.now)) }
    ensures holds { IfOk result (λ f. f.parts.steps.now ≡ steps.now ++ drop (length steps.now) memory.old) }
{
    can_make(states, steps, memory.len())?;
    Ok(Family::make(states, steps, memory))
}

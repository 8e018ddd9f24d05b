// Drafts: open, label, step, close.
ghost use Rattle.std.specs.Prelude.{◌≡◌, MatchResult, OnOk};
ghost use Rattle.refusals.specs.Numbers.{plain};
ghost use Rattle.families.specs.Drafts.{Openable, open_answer, label_answer, step_answer, Opened, Labelled, Stepped, Closed};

use crate::parts::Parts;
use crate::{Draft, Family, Step};
use refusals::Refusal;
use variants::VariantSet;

// Whether a draft of so many states with this start can be opened.
pub fn can_open(states: u8, start: u8) -> Result<(), Refusal>
    ensures answers { plain result ≡ open_answer states start }
    ensures grants { OnOk result (Openable states start) }
{
    if states == 0 || states > 64 {
        return Err(Refusal::StatesOutOfRange);
    }
    if start >= states {
        return Err(Refusal::StartOutOfRange);
    }
    Ok(())
}

impl<'a, S: VariantSet> Draft<'a, S> {
    // A draft that `can_open` granted, with all labels 0 and no steps, over the lent memory.
    pub fn open(states: u8, start: u8, memory: &'a mut [Step<S>]) -> Draft<'a, S>
        requires { Openable states start }
        ensures { Opened S.VariantSet states start memory.old result }
    {
        let parts = Parts {
            states,
            start,
            labels: [0; 64],
            held: 0,
            steps: memory,
        };
        Draft { parts }
    }

    // Writes the label of a state.
    pub fn label(&mut self, state: u8, lamps: u16) -> Result<(), Refusal>
        ensures answers { plain result ≡ label_answer self.old state }
        ensures leaves { MatchResult result (λ _. Labelled S.VariantSet self.old state lamps self.new) (λ _. self.new ≡ self.old) }
    {
        if state >= self.parts.states {
            return Err(Refusal::NoSuchState);
        }
        self.parts.labels[usize::from(state)] = lamps;
        Ok(())
    }

    // Adds a step at the end of the list.
    pub fn step(&mut self, step: Step<S>) -> Result<(), Refusal>
        ensures answers { plain result ≡ step_answer self.old step }
        ensures leaves { MatchResult result (λ _. Stepped S.VariantSet self.old step self.new) (λ _. self.new ≡ self.old) }
    {
        if step.from >= self.parts.states || step.to >= self.parts.states {
            return Err(Refusal::NoSuchState);
        }
        if self.parts.is_full() {
            return Err(Refusal::NoRoomForStep);
        }
        self.parts.push(step);
        Ok(())
    }

    // The family, which takes no more labels and steps.
    pub fn close(self) -> Family<'a, S>
        ensures { Closed S.VariantSet self.entry result }
    {
        let index = self.parts.index();
        let Draft { parts } = self;
        Family { parts, index }
    }
}

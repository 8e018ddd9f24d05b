// What is read of a closed family.
ghost use Rattle.std.specs.Prelude.{◌≡◌, ◌+◌, ◌*◌, ◌<◌, ◌≤◌, slice_index};
ghost use Rattle.families.specs.Models.{held_steps};
ghost use Rattle.families.specs.Places.{sources, leaving_from, silent_from};
ghost use Rattle.families.specs.Seeking.{sought_from, numbered};
ghost use Rattle.families.specs.declared.seeking.Sought.TheVariants.{Leaving, Silent};
ghost use Rattle.families.specs.Drafts.{model, label_at};

use crate::seeking::{Sought, Steps};
use crate::{Family, Step};
use variants::VariantSet;

impl<'a, S: VariantSet> Family<'a, S> {
    // How many states there are, 1 to 64.
    pub fn states(&self) -> u8
        ensures value { result ≡ (model S.VariantSet self.now).states }
        ensures bounds { (0 < result) × (result ≤ 64) }
    {
        self.parts.states
    }

    // How many pairs there are of a state of this family and one of the other.
    pub fn pairs_with(&self, other: &Family<S>) -> usize
        ensures value { result ≡ (model S.VariantSet self.now).states * (model S.VariantSet other.now).states }
        ensures few { result ≤ 4096 }
    {
        usize::from(self.parts.states) * usize::from(other.parts.states)
    }

    // The state in which every machine of the family starts.
    pub fn start(&self) -> u8
        ensures value { result ≡ (model S.VariantSet self.now).start }
        ensures inside { result < (model S.VariantSet self.now).states }
    {
        self.parts.start
    }

    // The label of a state, if there is such a state.
    pub fn label(&self, state: u8) -> Option<u16>
        ensures { result ≡ label_at (model S.VariantSet self.now) state }
    {
        if state < self.parts.states {
            Some(self.parts.labels[usize::from(state)])
        } else {
            None
        }
    }

    // The steps, in the order in which they were added.
    pub fn steps(&self) -> &[Step<S>]
        ensures { result.now ≡ held_steps self.now.parts }
    {
        &self.parts.steps[..self.parts.held]
    }

    // The steps that are sought, from the first place of one on.
    fn steps_sought(&self, sought: Sought, first: Option<u16>) -> Steps<S>
        requires { first ≡ sought_from sought (held_steps self.now.parts) 0 }
        ensures { result ≡ numbered sought (held_steps self.now.parts) 0 }
    {
        Steps {
            sought,
            steps: self.steps(),
            links: &self.index.links,
            next: first,
        }
    }

    // The steps that leave a state, each with its place.
    pub fn steps_from(&self, state: u8) -> Steps<S>
        ensures { result ≡ numbered (Leaving state) (held_steps self.now.parts) 0 }
    {
        let first = if state < self.parts.states {
            self.index.first[usize::from(state)]
        } else {
            None
        };
        self.steps_sought(Sought::Leaving(state), first)
    }

    // The silent steps, each with its place.
    pub fn silent_steps(&self) -> Steps<S>
        ensures { result ≡ numbered Silent (held_steps self.now.parts) 0 }
    {
        self.steps_sought(Sought::Silent, self.index.silent)
    }

    // The place of the next step that leaves the same state as the one at `place`, for callers that keep a place.
    pub fn next_from(&self, place: usize) -> Option<usize>
        ensures { result ≡ leaving_from (held_steps self.now.parts) (slice_index (sources (held_steps self.now.parts)) place) (place + 1) }
    {
        if place >= self.parts.held {
            return None;
        }
        self.index.links[place].leaving.map(usize::from)
    }

    // The next silent place after `place`.
    pub fn next_silent(&self, place: usize) -> Option<usize>
        ensures { result ≡ silent_from (held_steps self.now.parts) (place + 1) }
    {
        if place >= self.parts.held {
            return None;
        }
        self.index.links[place].silent.map(usize::from)
    }
}

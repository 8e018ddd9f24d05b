// The places of steps in their list, by the state that they leave.
ghost use Rattle.std.specs.Prelude.{◌<◌, ◌≤◌, length};
ghost use Rattle.std.specs.List.{AllWithin};
ghost use Rattle.families.specs.Models.{held_steps};
ghost use Rattle.families.specs.Places.{Indexes, Added};

use crate::parts::{Index, Link, Parts, Step};

impl Index {
    // Puts the step at a place before all others.
    fn add(&mut self, place: u16, from: u8, action: u8)
        requires place { place < 1024 }
        requires from { from < 64 }
        ensures { Added self.old place from action self.new }
    {
        self.links[usize::from(place)] = Link {
            leaving: self.first[usize::from(from)],
            silent: self.silent,
        };
        self.first[usize::from(from)] = Some(place);
        if action == 0 {
            self.silent = Some(place);
        }
    }

    // The index of the steps.
    pub(crate) fn of<S: Copy>(steps: &[Step<S>]) -> Index
        requires few { length steps.now ≤ 1024 }
        requires leaves { AllWithin (λ x. x.from < 64) steps.now 0 (length steps.now) }
        ensures { Indexes steps.now 0 result }
    {
        let mut index = Index {
            first: [None; 64],
            silent: None,
            links: [Link {
                leaving: None,
                silent: None,
            }; 1024],
        };
        let mut rest = steps;
        while let Some((step, before)) = rest.split_last() {
            rest = before;
            index.add(rest.len() as u16, step.from, step.action);
        }
        index
    }
}

impl<'a, S: Copy> Parts<'a, S> {
    // The index of the steps that are held.
    pub(crate) fn index(&self) -> Index
        ensures { Indexes (held_steps self.now) 0 result }
    {
        Index::of(&self.steps[..self.held])
    }
}

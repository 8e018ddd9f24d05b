// Steps that are sought along the index.
ghost use Rattle.std.specs.Prelude.{◌≡◌};
ghost use Rattle.std.specs.Iterator.{YieldsFirst, item_count};
ghost use Rattle.families.specs.Seeking.{along};

use crate::parts::{Link, Step};
use std::marker::Model;

// Which steps are sought: those that leave a state, or the silent ones.
#[derive(Clone, Copy, Debug, PartialEq, Eq)]
pub enum Sought {
    Leaving(u8),
    Silent,
}

impl Sought {
    // The next place along the chain.
    fn along(self, link: Link) -> Option<u16>
        ensures { result ≡ along self link }
    {
        match self {
            Sought::Leaving(_) => link.leaving,
            Sought::Silent => link.silent,
        }
    }
}

// The steps that are sought, each with its place, in list order.
#[derive(Drop)]
pub struct Steps<'f, S> {
    pub(crate) sought: Sought,
    pub(crate) steps: &'f [Step<S>],
    pub(crate) links: &'f [Link; 1024],
    // The place of the next one.
    pub(crate) next: Option<u16>,
}

impl<'f, S> Model for Steps<'f, S> {
    ghost use Rattle.std.specs.Prelude.{ℕ, List};
    ghost use Rattle.families.specs.declared.parts.Step.{Step};

    ghost Value = { List (ℕ × Step S) };

    ghost use Rattle.families.specs.Seeking.{numbered_from, Linked};

    ghost view = { λ it. numbered_from it.sought it.steps.now it.next };

    ghost invariant = { λ it. Linked it.sought it.steps.now it.links.now it.next };
}

impl<'f, S: Copy> Iterator for Steps<'f, S> {
    type Item = (usize, Step<S>);

    ghost next_gives = { YieldsFirst (λ rest. rest) };

    ghost remaining = { item_count (λ rest. rest) };

    fn next(&mut self) -> Option<(usize, Step<S>)> {
        let place = usize::from(self.next?);
        self.next = self.sought.along(self.links[place]);
        Some((place, self.steps[place]))
    }
}

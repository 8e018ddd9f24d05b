#![tactic(auto)]

// Following: in which variants a step of one side is followed by the other side, from a pair of states.
ghost use Rattle.std.specs.Prelude.{◌≡◌, ℕ};
ghost use Rattle.following.specs.Views.{seen, ways, followed_by, Lacks};

use answering::{Partners, answered};
use families::{Family, Step};
use tables::{Grid, nth};
use variants::VariantSet;

// The side whose steps are to be followed.
#[derive(Clone, Copy, Debug, PartialEq, Eq)]
pub enum Side {
    Left,
    Right,
}

// A table of pairs as one side sees it: its own state first.
#[derive(Clone, Copy)]
pub struct View<'h, S> {
    pub side: Side,
    pub grid: Grid<'h, S>,
}

impl<'h, S: VariantSet> View<'h, S> {
    // The set of the pair of a state of this side and one of the other side.
    pub fn at(&self, own: u8, other: u8) -> S
        ensures { (v : ℕ) → S.VariantSet.holds result v ≡ seen S.VariantSet self.now own other v }
    {
        let (s, t) = match self.side {
            Side::Left => (own, other),
            Side::Right => (other, own),
        };
        self.grid.at(s, t)
    }
}

// The states of the other side that are paired with `own`.
#[derive(Drop)]
struct PairedWith<'h, S> {
    view: View<'h, S>,
    own: u8,
}

impl<'h, S: VariantSet> Partners<S> for PairedWith<'h, S> {
    ghost paired = { λ p t v. seen S.VariantSet p.view p.own t v };

    fn with(&self, state: u8) -> S {
        self.view.at(self.own, state)
    }
}

// A pair of states as one side sees it, whose steps the other side is to follow: `own` is the side's state and
// `other` the follower's, and `reach` is the follower's silent reach from `other`.
#[derive(Drop)]
pub struct Position<'p, S> {
    pub view: View<'p, S>,
    pub own: u8,
    pub other: u8,
    pub follower: &'p Family<'p, S>,
    pub reach: &'p [S],
}

impl<'p, S: VariantSet> Position<'p, S> {
    // The variants in which the step is followed by way of `r`: `r` is reached and still paired with `own`, and
    // from there the same action leads to a state paired with what the step enters, or nothing is needed since
    // the step is silent.
    fn by_way_of(&self, step: Step<S>, r: u8) -> S
        ensures { (v : ℕ) → S.VariantSet.holds result v ≡ ways S.VariantSet self.now step v r }
    {
        let still = nth(self.reach, r).both(self.view.at(self.own, r));
        if still.same(S::none()) {
            return still;
        }
        let entered = PairedWith {
            view: self.view,
            own: step.to,
        };
        let answers = answered(step, self.follower, &entered, r);
        if step.action == 0 {
            still.both(answers.either(self.view.at(step.to, r)))
        } else {
            still.both(answers)
        }
    }

    // The variants in which the step is followed by way of some state.
    fn followed(&self, step: Step<S>) -> S
        ensures { (v : ℕ) → S.VariantSet.holds result v ≡ followed_by S.VariantSet self.now step v }
    {
        (0..self.follower.states()).fold(S::none(), |found, r| {
            found.either(self.by_way_of(step, r))
        })
    }

    // The least variant in which the step leaves `own`, is held at the pair and not followed.
    pub fn lacking(&self, step: Step<S>) -> Option<u32>
        ensures { Lacks S.VariantSet self.now step result }
    {
        if step.from != self.own {
            return None;
        }
        let due = self.view.at(self.own, self.other).both(step.set);
        due.without(self.followed(step)).least()
    }
}

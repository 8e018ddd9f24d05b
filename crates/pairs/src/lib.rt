#![tactic(auto)]

// The kind built of two kinds.
ghost use Rattle.std.specs.Prelude.{◌≡◌, ℕ, ◌+◌, Bool, true, false, not, ◌&&◌, ◌||◌};
ghost use Rattle.pairs.specs.Joins.{joined};
ghost use Rattle.std.proofs.Common.{rules};

use variants::{LIMIT, VariantSet};

// One set of each of two kinds: the numbers of the first kind come first, those of the second follow.
#[derive(Clone, Copy, Debug, Default, PartialEq, Eq)]
pub struct Pair<First, Second> {
    pub first: First,
    pub second: Second,
}

impl<First: VariantSet, Second: VariantSet> VariantSet for Pair<First, Second> {
    ghost variants = { First.VariantSet.variants + Second.VariantSet.variants };

    ghost holds = { λ p. joined First.VariantSet.variants (First.VariantSet.holds p.first) (Second.VariantSet.holds p.second) };

    ghost inhabited = { Prim.search rules };

    ghost within = { Prim.search rules };

    fn none() -> Self {
        Pair {
            first: First::none(),
            second: Second::none(),
        }
    }

    fn all() -> Self {
        Pair {
            first: First::all(),
            second: Second::all(),
        }
    }

    // A capped size of the first kind says nothing of numbers above 1023, so the second half gets none of them.
    fn only(v: u32) -> Self {
        let firsts = First::size();
        if v < firsts {
            Pair {
                first: First::only(v),
                ..Self::none()
            }
        } else if v < LIMIT {
            Pair {
                second: Second::only(v - firsts),
                ..Self::none()
            }
        } else {
            Self::none()
        }
    }

    fn both(self, other: Self) -> Self {
        Pair {
            first: self.first.both(other.first),
            second: self.second.both(other.second),
        }
    }

    fn either(self, other: Self) -> Self {
        Pair {
            first: self.first.either(other.first),
            second: self.second.either(other.second),
        }
    }

    fn without(self, other: Self) -> Self {
        Pair {
            first: self.first.without(other.first),
            second: self.second.without(other.second),
        }
    }

    fn has(self, v: u32) -> bool {
        let firsts = First::size();
        if v < firsts {
            self.first.has(v)
        } else {
            v < LIMIT && self.second.has(v - firsts)
        }
    }

    fn same(self, other: Self) -> bool {
        self.first.same(other.first) && self.second.same(other.second)
    }

    #[tactic(auto, using(crate::proofs::Joined::card_joined))]
    fn count(self) -> u32 {
        (self.first.count() + self.second.count()).min(LIMIT + 1)
    }

    fn size() -> u32 {
        (First::size() + Second::size()).min(LIMIT + 1)
    }

    // The second half is asked only where the first holds nothing.
    fn least(self) -> Option<u32> {
        if let Some(v) = self.first.least() {
            return Some(v);
        }
        let second = self.second.least().map(|w| First::size() + w);
        second.filter(|&v| v < LIMIT)
    }
}

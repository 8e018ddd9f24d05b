// The kind of one variant.
ghost use Rattle.std.specs.Prelude.{◌≡◌, Bool, true, false, not, ◌&&◌, ◌||◌, ◌==◌};
ghost use Rattle.std.proofs.Common.{rules};

use crate::VariantSet;

// A set of the one variant, number 0: held or not.
#[derive(Clone, Copy, Debug, Default, PartialEq, Eq)]
pub struct Single {
    pub held: bool,
}

impl VariantSet for Single {
    ghost variants = { 1 };

    ghost holds = { λ s v. (v == 0) && s.held };

    ghost inhabited = { Prim.search rules };

    ghost within = { Prim.search rules };

    fn none() -> Self {
        Single { held: false }
    }

    fn all() -> Self {
        Single { held: true }
    }

    fn only(v: u32) -> Self {
        Single { held: v == 0 }
    }

    fn both(self, other: Self) -> Self {
        Single {
            held: self.held & other.held,
        }
    }

    fn either(self, other: Self) -> Self {
        Single {
            held: self.held | other.held,
        }
    }

    fn without(self, other: Self) -> Self {
        Single {
            held: self.held & !other.held,
        }
    }

    fn has(self, v: u32) -> bool {
        v == 0 && self.held
    }

    fn same(self, other: Self) -> bool {
        self == other
    }

    #[tactic(auto, unfolding(theory::specs::Sets::card))]
    fn count(self) -> u32 {
        u32::from(self.held)
    }

    fn size() -> u32 {
        1
    }

    fn least(self) -> Option<u32> {
        self.held.then_some(0)
    }
}

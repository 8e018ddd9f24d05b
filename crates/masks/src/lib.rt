#![tactic(auto)]

// The kind of sixty-four variants, one machine word a set.
ghost use Rattle.std.specs.Prelude.{◌≡◌, Some};
ghost use Rattle.masks.specs.Texts.{set_text};
ghost use Rattle.masks.specs.Words.{word};
ghost use Rattle.std.proofs.Common.{rules};

use std::fmt;
use variants::VariantSet;

// The set of the numbers at which `bits` has a one: number `v` has the value 2 to the power of `v`.
#[derive(Clone, Copy, Debug, Default, PartialEq, Eq)]
pub struct Mask {
    pub bits: u64,
}

#[tactic(auto, using(crate::proofs::Words::held))]
impl VariantSet for Mask {
    ghost variants = { 64 };

    ghost holds = { λ m. word m.bits };

    ghost inhabited = { Prim.search rules };

    ghost within = { Prim.search rules };

    fn none() -> Self {
        Mask { bits: 0 }
    }

    fn all() -> Self {
        Mask { bits: u64::MAX }
    }

    fn only(v: u32) -> Self {
        Mask {
            bits: if v < 64 { 1 << v } else { 0 },
        }
    }

    fn both(self, other: Self) -> Self {
        Mask {
            bits: self.bits & other.bits,
        }
    }

    fn either(self, other: Self) -> Self {
        Mask {
            bits: self.bits | other.bits,
        }
    }

    fn without(self, other: Self) -> Self {
        Mask {
            bits: self.bits & !other.bits,
        }
    }

    fn has(self, v: u32) -> bool {
        v < 64 && (self.bits >> v) & 1 == 1
    }

    fn same(self, other: Self) -> bool {
        self == other
    }

    fn count(self) -> u32 {
        self.bits.count_ones()
    }

    fn size() -> u32 {
        64
    }

    fn least(self) -> Option<u32> {
        (self.bits != 0).then_some(self.bits.trailing_zeros())
    }
}

// The numbers held, in order: `{0,3}`, or `{}` where none is.
impl fmt::Display for Mask {
    ghost output = { λ m. Some (set_text m.bits) };

    fn fmt<W: fmt::Write>(&self, f: &mut fmt::Formatter<W>) -> fmt::Result {
        write!(f, "{{")?;
        let mut separator = "";
        for v in 0..Self::size() {
            if self.has(v) {
                write!(f, "{separator}{v}")?;
                separator = ",";
            }
        }
        write!(f, "}}")
    }
}

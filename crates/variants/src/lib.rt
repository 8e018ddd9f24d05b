#![tactic(auto)]

// Sets of variants, by kinds: what every kind offers, and the kind of one variant.
ghost use Rattle.std.specs.Prelude.{◌≡◌, ℕ, ◌<◌, Bool, true, false, not, ◌&&◌, ◌||◌, Decides, nat_lt};
ghost use Rattle.theory.specs.Sets.{card};
ghost use Rattle.variants.specs.Sets.{capped, just, Least};

mod singles;

pub use singles::Single;

// `only`, `has` and `least` look at the numbers below this one; `count` and `size` answer one more for anything above it.
pub const LIMIT: u32 = 1024;

// A set of a kind of variants; a kind numbers its variants from 0.
pub trait VariantSet: Copy {
    // How many variants the kind has.
    ghost variants: { ℕ };

    // Which numbers a set holds.
    ghost holds: { Self → ℕ → Bool };

    // The empty set.
    fn none() -> Self
        ensures { (v : ℕ) → holds result v ≡ false };

    // The set of all variants of the kind.
    fn all() -> Self
        ensures { (v : ℕ) → holds result v ≡ nat_lt v variants };

    // The set that holds just `v`; empty if the kind has no such variant, or `v` is above 1023.
    fn only(v: u32) -> Self
        ensures { (w : ℕ) → holds result w ≡ just variants v w };

    // The numbers that both sets hold.
    fn both(self, other: Self) -> Self
        ensures { (v : ℕ) → holds result v ≡ (holds self v && holds other v) };

    // The numbers that at least one of the sets holds.
    fn either(self, other: Self) -> Self
        ensures { (v : ℕ) → holds result v ≡ (holds self v || holds other v) };

    // The numbers that this set holds and the other does not.
    fn without(self, other: Self) -> Self
        ensures { (v : ℕ) → holds result v ≡ (holds self v && not (holds other v)) };

    // Whether `v` is at most 1023 and held.
    fn has(self, v: u32) -> bool
        ensures { result ≡ (nat_lt v 1024 && holds self v) };

    // Whether the two sets hold the same numbers.
    fn same(self, other: Self) -> bool
        ensures { Decides result ((v : ℕ) → holds self v ≡ holds other v) };

    // How many numbers the set holds; 1025 stands for anything above 1024.
    fn count(self) -> u32
        ensures { result ≡ capped (card variants (holds self)) };

    // How many variants the kind has; 1025 stands for anything above 1024.
    fn size() -> u32
        ensures { result ≡ capped variants };

    // The smallest number held, if one up to 1023 is held.
    fn least(self) -> Option<u32>
        ensures { Least (holds self) result };

    // Law: a kind has at least one variant.
    ghost inhabited: { 0 < variants };

    // Law: a set holds only numbers that its kind has.
    ghost within: { (x : Self) (v : ℕ) → holds x v ≡ true → v < variants };
}

// What the numbers of each kind are, said of the fields themselves.
ghost use Rattle.std.specs.Prelude.{◌≡◌, ◌-◌, ◌/◌, ◌%◌, ◌^◌, ◌&&◌, if◌then◌else◌, ◌==◌, nat_lt};

use masks::Mask;
use pairs::Pair;
use variants::{Single, VariantSet};

// How many variants a Single, a Mask, and a Pair of the two have.
pub fn sizes() -> (u32, u32, u32)
    ensures { (result.0 ≡ 1) × (result.1 ≡ 64) × (result.2 ≡ 65) }
{
    (Single::size(), Mask::size(), Pair::<Single, Mask>::size())
}

// The one number of a Single is 0.
pub fn single_has(single: Single, v: u32) -> bool
    ensures { result ≡ (v == 0 && single.held) }
{
    single.has(v)
}

// A Mask holds the numbers 0 to 63 at which its bits have a one.
pub fn mask_has(mask: Mask, v: u32) -> bool
    ensures { result ≡ (nat_lt v 64 && mask.bits / 2 ^ v % 2 == 1) }
{
    mask.has(v)
}

// Of a Pair of Single and Mask, number 0 is the Single's 0, and number v from 1 to 64 the Mask's v - 1.
pub fn pair_has(first: Single, second: Mask, v: u32) -> bool
    ensures { result ≡ (if nat_lt v 1 then first.held else nat_lt v 65 && second.bits / 2 ^ (v - 1) % 2 == 1) }
{
    Pair { first, second }.has(v)
}

// A Pair of Single and Mask has no number 65: the set of just 65 holds nothing.
pub fn pair_only_65() -> u32
    ensures { result ≡ 0 }
{
    Pair::<Single, Mask>::only(65).count()
}

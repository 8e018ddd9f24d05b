// Marking, refusals first.
ghost use Rattle.std.specs.Prelude.{◌≡◌, ℕ, ◌≤◌, true, length, Decides, MatchResult};
ghost use Rattle.refusals.specs.Numbers.{number_of};
ghost use Rattle.marking.specs.Marks.{OnlyListed, both_places, Markable, Refused, ReachedBoth, Marks, Refuses};

use crate::{Marked, Marking};
use families::Family;
use reaching::{places, reach};
use refusals::Refusal;
use variants::{LIMIT, VariantSet};

// Whether every variant of the set is listed.
fn is_listed<S: VariantSet>(set: S, list: S) -> bool
    ensures { Decides result ((v : ℕ) → S.VariantSet.holds set v ≡ true → S.VariantSet.holds list v ≡ true) }
{
    set.without(list).same(S::none())
}

// Whether every set holds listed variants only.
fn only_listed<S: VariantSet>(cells: &[S], list: S) -> bool
    ensures { Decides result (OnlyListed S.VariantSet list cells.now) }
{
    cells.iter().all(|set| is_listed(*set, list))
}

// How many places both reaches take.
fn both_places<S: VariantSet>(left: &Family<S>, right: &Family<S>) -> usize
    ensures { result ≡ both_places S.VariantSet left.now right.now }
{
    places(left) + places(right)
}

// Whether marking takes what it is brought, with a scratch of so many places.
fn can_mark<S: VariantSet>(
    left: &Family<S>,
    right: &Family<S>,
    list: S,
    candidate: &[S],
    scratch: usize,
) -> Result<(), Refusal>
    ensures { MatchResult result (λ _. Markable S.VariantSet left.now right.now list candidate.now scratch) (λ e. Refused S.VariantSet left.now right.now list candidate.now scratch (number_of e)) }
{
    if S::size() > LIMIT {
        return Err(Refusal::KindTooLarge);
    }
    let pairs = left.pairs_with(right);
    if candidate.len() < pairs {
        return Err(Refusal::TableTooShort);
    }
    if scratch < both_places(left, right) {
        return Err(Refusal::ScratchTooShort);
    }
    if !only_listed(&candidate[..pairs], list) {
        return Err(Refusal::UnlistedVariant);
    }
    Ok(())
}

// Writes the left reach and then the right reach.
fn reach_both<S: VariantSet>(
    left: &Family<S>,
    right: &Family<S>,
    scratch: &mut [S],
) -> Result<(), Refusal>
    requires { both_places S.VariantSet left.now right.now ≤ length scratch.old }
    ensures { MatchResult result (λ _. ReachedBoth S.VariantSet left.now right.now scratch.old scratch.new) (λ _. ⊥) }
{
    let first = places(left);
    reach(left, scratch)?;
    reach(right, &mut scratch[first..])?;
    Ok(())
}

// Marks a candidate for the two families and the list: accepted, or its first fault. The scratch then holds
// the silent reach of the left family, row by row, and after it that of the right family.
pub fn mark<S: VariantSet>(
    left: &Family<S>,
    right: &Family<S>,
    list: S,
    candidate: &[S],
    scratch: &mut [S],
) -> Result<Marked, Refusal>
    ensures { MatchResult result (λ m. Marks S.VariantSet left.now right.now list candidate.now scratch.old scratch.new m) (λ e. Refuses S.VariantSet left.now right.now list candidate.now scratch.old scratch.new e) }
{
    can_mark(left, right, list, candidate, scratch.len())?;
    reach_both(left, right, scratch)?;
    let reach: &[S] = &*scratch;
    let right_reach = &reach[places(left)..];
    let marking = Marking::new(left, right, candidate, reach, right_reach);
    Ok(marking.judge(list))
}

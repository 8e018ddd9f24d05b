#![tactic(auto)]

// Silent reach: in which variants silent steps lead from one state to another.
ghost use Rattle.std.specs.Prelude.{◌≡◌, ℕ, ◌≤◌, ◌&&◌, MatchResult, ◌==◌, nat_lt};
ghost use Rattle.tables.specs.Tables.{Fits};
ghost use Rattle.reaching.specs.Reaches.{reach_places, Reached, TooShort};

use families::Family;
use refusals::Refusal;
use tables::{Origin, Table};
use variants::VariantSet;

mod working;

use working::rounds;

// What the reach begins with: every variant from a state to itself, else none.
#[derive(Drop)]
struct Staying;

impl<S: VariantSet> Origin<S> for Staying {
    ghost stands = { λ _ s t v. (s == t) && nat_lt v S.VariantSet.variants };

    fn set_at(&self, s: u8, t: u8) -> S {
        if s == t { S::all() } else { S::none() }
    }
}

// The reach of a family as far as it is worked out: the table has a row and a column for each state, and the
// memory a place for every pair.
#[derive(Drop)]
struct Reaching<'f, 'a, 'r, 't, S> {
    family: &'f Family<'a, S>,
    table: &'r mut Table<'t, S>,
    ghost rows: { table.now.rows ≡ family.now.parts.states },
    ghost cols: { table.now.cols ≡ family.now.parts.states },
    ghost fits: { Fits table.now },
}

// How many places the reach of the family takes: one for each pair of its states.
pub fn places<S: VariantSet>(family: &Family<S>) -> usize
    ensures value { result ≡ reach_places S.VariantSet family.now }
    ensures few { result ≤ 4096 }
{
    let n = usize::from(family.states());
    n * n
}

// Writes the silent reach of the family into the first places, row by row; answers the rounds that it took.
pub fn reach<S: VariantSet>(family: &Family<S>, cells: &mut [S]) -> Result<u32, Refusal>
    ensures { MatchResult result (λ k. Reached S.VariantSet family.now cells.old cells.new k) (λ e. TooShort S.VariantSet family.now cells.old cells.new e) }
{
    let n = family.states();
    if cells.len() < places(family) {
        return Err(Refusal::ScratchTooShort);
    }
    let mut table = Table::over(n, n, cells);
    Ok(rounds(family, &mut table))
}

// Two families, examined in every way.
ghost use Rattle.std.specs.Prelude.{length};
ghost use Rattle.comparing.specs.Outcomes.{Beginnable};
ghost use Rattle.guarantee.specs.Everything.{EverythingHolds};

use crate::Examined;
use comparing::Comparison;
use families::Family;
use histories::{Stage, Turn, play};
use marking::mark;
use variants::VariantSet;

// Begins a comparison of the two families over the variants of the list in the lent table, as `can_begin`
// granted, carries out the requests on it, and marks the candidate.
pub fn examine<'t, S: VariantSet>(
    left: &Family<S>,
    right: &Family<S>,
    list: S,
    table: &'t mut [S],
    turns: &mut [Turn<S>],
    candidate: &[S],
    scratch: &mut [S],
) -> Examined<'t, S>
    requires { Beginnable S.VariantSet left.now right.now (length table.old) }
    ensures { EverythingHolds S.VariantSet left.now right.now list table.old turns.old turns.new candidate.now scratch.old scratch.new result }
{
    let comparison = Comparison::begin(left, right, list, table);
    let played = play(Stage::Open(comparison), left, right, turns);
    let marked = mark(left, right, list, candidate, scratch);
    Examined { played, marked }
}

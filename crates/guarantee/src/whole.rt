// A whole comparison in one call.
ghost use Rattle.std.specs.Prelude.{length};
ghost use Rattle.comparing.specs.Outcomes.{Beginnable};
ghost use Rattle.guarantee.specs.Wholes.{Compares};

use crate::Compared;
use comparing::Comparison;
use families::Family;
use variants::VariantSet;

// Compares the two families over the variants of the list in the lent table, as `can_begin` granted, sweep by
// sweep until it settles. Begin's own families are never refused, and so many sweeps settle any comparison.
pub fn compare<'t, S: VariantSet>(
    left: &Family<S>,
    right: &Family<S>,
    list: S,
    table: &'t mut [S],
) -> Compared<'t, S>
    requires { Beginnable S.VariantSet left.now right.now (length table.old) }
    ensures { Compares S.VariantSet left.now right.now list table.old result }
{
    let mut comparison = Comparison::begin(left, right, list, table);
    let (sweeps, strikes) = comparison.run(u32::MAX, left, right).unwrap();
    Compared {
        sweeps,
        strikes,
        settled: comparison.settle(),
    }
}

// Visits, row by row.
ghost use Rattle.std.specs.Prelude.{◌≡◌, ℕ, ◌*◌, ◌≤◌};
ghost use Rattle.theory.specs.Sets.{gone};
ghost use Rattle.theory.specs.Sweeps.{visited, row_visited, rows_visited, row_struck, removed};
ghost use Rattle.tables.specs.Tables.{standing, Resembles};
ghost use Rattle.variants.specs.Kinds.{Countable};
ghost use Rattle.sweeping.specs.Visits.{rule_of, rule_of_sides};

use crate::Sides;
use families::Family;
use tables::Table;
use variants::VariantSet;

impl<'f, S: VariantSet> Sides<'f, S> {
    // Visits the pair of `s` and `t`, and answers how many variants were struck.
    fn visit(&self, table: &mut Table<S>, s: u8, t: u8) -> u64
        ensures kept { Resembles table.old table.new }
        ensures visited { standing S.VariantSet table.new ≡ visited (rule_of_sides S.VariantSet self.now) (standing S.VariantSet table.old) s t }
        ensures strikes { Countable S.VariantSet → result ≡ gone S.VariantSet.variants (standing S.VariantSet table.old s t) (standing S.VariantSet table.new s t) }
    {
        let judged = self.judge(table, s, t);
        table.put(s, t, judged.kept);
        judged.strikes
    }

    // Visits the pairs of the row of `s` by ascending right state.
    #[tactic(auto, using(crate::proofs::Visits::row_struck_fits))]
    fn sweep_row(&self, table: &mut Table<S>, s: u8) -> u64
        ensures kept { Resembles table.old table.new }
        ensures visited { standing S.VariantSet table.new ≡ row_visited (rule_of_sides S.VariantSet self.now) (standing S.VariantSet table.old) s table.old.cols }
        ensures strikes { Countable S.VariantSet → result ≡ row_struck S.VariantSet.variants (rule_of_sides S.VariantSet self.now) (standing S.VariantSet table.old) s table.old.cols }
        ensures few { Countable S.VariantSet → result ≤ 256 * 1024 }
    {
        let mut strikes: u64 = 0;
        for t in 0..table.cols() {
            strikes = strikes.saturating_add(self.visit(table, s, t));
        }
        strikes
    }
}

// One sweep: visits every pair by ascending left state, then ascending right state, and answers how many
// variants were struck.
pub fn sweep<S: VariantSet>(table: &mut Table<S>, left: &Family<S>, right: &Family<S>) -> u64
    ensures kept { Resembles table.old table.new }
    ensures visited { standing S.VariantSet table.new ≡ rows_visited (rule_of S.VariantSet left.now right.now) table.old.cols (standing S.VariantSet table.old) table.old.rows }
    ensures strikes { Countable S.VariantSet → result ≡ removed S.VariantSet.variants table.old.rows table.old.cols (standing S.VariantSet table.old) (standing S.VariantSet table.new) }
    ensures few { Countable S.VariantSet → result ≤ 256 * (256 * 1024) }
{
    let sides = Sides { left, right };
    let mut strikes: u64 = 0;
    for s in 0..table.rows() {
        strikes = strikes.saturating_add(sides.sweep_row(table, s));
    }
    strikes
}

// Tables that are filled pair by pair.
ghost use Rattle.std.specs.Prelude.{◌≡◌, ℕ, ◌<◌, Bool, ◌≢◌};
ghost use Rattle.tables.specs.Cells.{bounded};
ghost use Rattle.tables.specs.Tables.{standing, Fits, Resembles};

use crate::Table;
use variants::VariantSet;

// What the pairs of a table begin with.
pub trait Origin<S: VariantSet> {
    // Which numbers the set of a pair holds.
    ghost stands: { Self → ℕ → ℕ → ℕ → Bool };

    // The set of a pair.
    fn set_at(&self, s: u8, t: u8) -> S
        ensures { (v : ℕ) → S.VariantSet.holds result v ≡ stands self.now s t v };
}

// Writes the row of `s`.
fn fill_row<S: VariantSet, O: Origin<S>>(table: &mut Table<S>, origin: &O, s: u8)
    ensures kept { Resembles table.old table.new }
    ensures row { Fits table.old → s < table.old.rows → (t v : ℕ) → t < table.old.cols → standing S.VariantSet table.new s t v ≡ O.Origin.stands origin.now s t v }
    ensures others { Fits table.old → s < table.old.rows → (r t v : ℕ) → (r ≢ s) → standing S.VariantSet table.new r t v ≡ standing S.VariantSet table.old r t v }
{
    for t in 0..table.cols() {
        table.put(s, t, origin.set_at(s, t));
    }
}

// Writes every pair of the table; where the memory is too short, nothing is said of the pairs.
pub fn fill<S: VariantSet, O: Origin<S>>(table: &mut Table<S>, origin: &O)
    ensures kept { Resembles table.old table.new }
    ensures filled { Fits table.old → standing S.VariantSet table.new ≡ bounded table.old.rows table.old.cols (O.Origin.stands origin.now) }
{
    for s in 0..table.rows() {
        fill_row(table, origin, s);
    }
}

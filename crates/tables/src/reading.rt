// Sets in memory, read row by row.
ghost use Rattle.std.specs.Prelude.{◌≡◌, ℕ};
ghost use Rattle.tables.specs.Cells.{cell};
ghost use Rattle.tables.specs.Tables.{shown};

use variants::VariantSet;

// Sets in memory as a table that is read: the set of the pair of `s` and `t` stands at place `s` times `cols` plus
// `t`; later places are not the table's.
#[derive(Clone, Copy)]
pub struct Grid<'c, S> {
    pub rows: u8,
    pub cols: u8,
    pub cells: &'c [S],
}

// The set at a place of a row, or the empty set past its end.
pub fn nth<S: VariantSet>(row: &[S], place: u8) -> S
    ensures { (v : ℕ) → S.VariantSet.holds result v ≡ cell S.VariantSet row.now place v }
{
    let Some(set) = row.get(usize::from(place)) else {
        return S::none();
    };
    *set
}

impl<'c, S: VariantSet> Grid<'c, S> {
    // The row of a left state, as far as the memory has it; empty where there is no such row.
    pub fn row(&self, s: u8) -> &'c [S]
        ensures { (t v : ℕ) → cell S.VariantSet result.now t v ≡ shown S.VariantSet self.now s t v }
    {
        let first = usize::from(s) * usize::from(self.cols);
        let end = (first + usize::from(self.cols)).min(self.cells.len());
        if s < self.rows && first < end {
            &self.cells[first..end]
        } else {
            &self.cells[0..0]
        }
    }

    // The set of a pair, or the empty set where the table has no such pair.
    pub fn at(&self, s: u8, t: u8) -> S
        ensures { (v : ℕ) → S.VariantSet.holds result v ≡ shown S.VariantSet self.now s t v }
    {
        nth(self.row(s), t)
    }
}

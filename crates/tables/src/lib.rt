#![tactic(auto)]

// Tables of variant sets over lent memory: a row for each left state, in it a set for each right state.
ghost use Rattle.std.specs.Prelude.{◌≡◌, ℕ, ◌+◌, ◌*◌, set};
ghost use Rattle.tables.specs.Cells.{cell};
ghost use Rattle.tables.specs.Tables.{standing, written, Has, Resembles, Same};

use variants::VariantSet;

mod filling;
mod reading;

pub use filling::{Origin, fill};
pub use reading::{Grid, nth};

// The set of the pair of `s` and `t` stands at place `s` times `cols` plus `t`; later places are not the table's.
#[derive(Drop)]
pub struct Table<'t, S> {
    rows: u8,
    cols: u8,
    cells: &'t mut [S],
}

impl<'t, S: VariantSet> Table<'t, S> {
    // The table of so many rows and columns in the lent memory.
    pub fn over(rows: u8, cols: u8, cells: &'t mut [S]) -> Table<'t, S>
        ensures rows { result.rows ≡ rows }
        ensures cols { result.cols ≡ cols }
        ensures cells { result.cells.now ≡ cells.old }
        ensures memory { result.cells.ghost_name ≡ cells.entry.ghost_name }
    {
        Table { rows, cols, cells }
    }

    // How many rows there are.
    pub fn rows(&self) -> u8
        ensures { result ≡ self.now.rows }
    {
        self.rows
    }

    // How many columns there are.
    pub fn cols(&self) -> u8
        ensures { result ≡ self.now.cols }
    {
        self.cols
    }

    // The table as it is read.
    pub fn grid(&self) -> Grid<S>
        ensures rows { result.rows ≡ self.now.rows }
        ensures cols { result.cols ≡ self.now.cols }
        ensures cells { result.cells.now ≡ self.now.cells.now }
    {
        Grid {
            rows: self.rows,
            cols: self.cols,
            cells: &*self.cells,
        }
    }

    // The row of a left state.
    pub fn row(&self, s: u8) -> &[S]
        ensures { (t v : ℕ) → cell S.VariantSet result.now t v ≡ standing S.VariantSet self.now s t v }
    {
        self.grid().row(s)
    }

    // The set of a pair, or the empty set where the table has no such pair.
    pub fn at(&self, s: u8, t: u8) -> S
        ensures { (v : ℕ) → S.VariantSet.holds result v ≡ standing S.VariantSet self.now s t v }
    {
        self.grid().at(s, t)
    }

    // Writes the set of a pair; nothing where the table has no such pair.
    pub fn put(&mut self, s: u8, t: u8, x: S)
        ensures kept { Resembles self.old self.new }
        ensures writes { Has self.old s t → standing S.VariantSet self.new ≡ written (standing S.VariantSet self.old) s t (S.VariantSet.holds x) }
        ensures passes { (Has self.old s t → ⊥) → Same self.old self.new }
    {
        let place = usize::from(s) * usize::from(self.cols) + usize::from(t);
        if s < self.rows && t < self.cols && place < self.cells.len() {
            self.cells[place] = x;
        }
    }

    // The lent memory, given back.
    pub fn release(self) -> &'t mut [S]
        ensures { result.now ≡ self.entry.cells.now }
    {
        let Table { cells, .. } = self;
        cells
    }
}

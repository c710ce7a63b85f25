// The elimination on the working matrix.
ghost use Rattle.std.specs.Prelude.{◌≡◌, ℕ, suc, ◌+◌, ◌*◌, ◌≤◌, ◌<◌, length, get_or};
ghost use Rattle.field.specs.Field.{IsByte, Bytes, add, mul};
ghost use Rattle.matrix.specs.Matrix.{entry};
ghost use Rattle.matrix.specs.Working.{grid, row_plus, row_times, Rewritten, LoadedRow, Loaded, Units, Reduced, FoundAt, Found, Raised, Ready, Ended};

use crate::Uninvertible;

// The working matrix: of each of its first `side` rows the columns 0 to side - 1 start as m's, and the columns side to 2·side - 1 end as the inverse's.
#[derive(Drop)]
pub(crate) struct Work {
    side: usize,
    rows: [[u8; 64]; 32],
    ghost some: { 1 ≤ side },
    ghost fits: { side ≤ 32 },
    ghost bytes: { (i k : ℕ) → IsByte (grid rows i k) },
}

impl Work {
    // Zeros, for `load` to fill: the matrix is loaded in place, since a value that is filled and then returned would be copied.
    pub(crate) fn zeros(side: usize) -> Work
        requires { (1 ≤ side) × (side ≤ 32) }
        ensures { (result.side ≡ side) × ((i k : ℕ) → grid result.rows i k ≡ 0) }
    {
        Work {
            side,
            rows: [[0; 64]; 32],
        }
    }

    // Makes the zeros [m | 1].
    pub(crate) fn load(&mut self, m: &[u8])
        requires { (length m.now ≡ self.old.side * self.old.side) × ((i k : ℕ) → grid self.old.rows i k ≡ 0) }
        ensures { (self.new.side ≡ self.old.side) × Loaded self.old.side m.now self.new.rows }
    {
        // not zipped with rows.iter_mut(): what goes through a zip of iter_mut, no proof knows afterwards
        for (i, entries) in m.chunks_exact(self.side).enumerate() {
            let rows = &mut self.rows;
            load_row(&mut rows[i], i, entries);
        }
    }

    // Brings column after column to the identity's. Document 01 ("Forms we want to see") asks for this form: the pivot search answers a row or nothing, and elimination takes
    // it with let else, refusing where none is found.
    pub(crate) fn eliminate(&mut self) -> Result<(), Uninvertible>
        ensures { (self.new.side ≡ self.old.side) × Ended self.old.side self.old.rows self.new.rows result }
    {
        for j in 0..self.side {
            let Some(p) = self.find_pivot(j) else {
                return Err(Uninvertible::Singular(j + 1));
            };
            self.reduce(j, p);
        }
        Ok(())
    }

    // The first row from j on whose entry in column j is not zero.
    fn find_pivot(&self, j: usize) -> Option<usize>
        requires { j < self.now.side }
        ensures { Found self.now.side j self.now.rows result }
    {
        (j..self.side).find(|i| self.rows[*i][j] != 0)
    }

    // Brings column j, whose pivot is in row p, to the identity's.
    fn reduce(&mut self, j: usize, p: usize)
        requires { Units self.old.side j self.old.rows × FoundAt self.old.side j self.old.rows p }
        ensures { (self.new.side ≡ self.old.side) × Reduced self.old.side (j + 1) self.old.rows self.new.rows }
    {
        self.raise(j, p);
        let pivot = elements::Elem(self.rows[j][j]);
        self.scale_row(j, pivot.inverse().0);
        self.clear_column(j);
    }

    // Gives row j a pivot: where its own entry is zero, row p is added to it.
    fn raise(&mut self, j: usize, p: usize)
        requires { Units self.old.side j self.old.rows × FoundAt self.old.side j self.old.rows p }
        ensures { (self.new.side ≡ self.old.side) × Raised self.old.side j self.old.rows self.new.rows }
    {
        if p != j {
            let row = self.rows[p];
            self.add_multiple(j, 1, &row);
        }
    }

    // Multiplies row j by c.
    fn scale_row(&mut self, j: usize, c: u8)
        requires { j < self.old.side }
        ensures { (self.new.side ≡ self.old.side) × Rewritten self.old.side j self.old.rows self.new.rows (row_times self.old.rows c j) }
    {
        let width = 2 * self.side;
        // a name for the rows, and the whole row to the function: by `&mut rows[j][..width]` no proof knows the row afterwards
        let rows = &mut self.rows;
        scale(&mut rows[j], width, c);
    }

    // Adds c times the given row to row i.
    fn add_multiple(&mut self, i: usize, c: u8, row: &[u8; 64])
        requires { i < self.old.side }
        ensures { (self.new.side ≡ self.old.side) × Rewritten self.old.side i self.old.rows self.new.rows (row_plus self.old.rows i c (λ k. get_or row.now k 0)) }
    {
        let width = 2 * self.side;
        let rows = &mut self.rows;
        add_to(&mut rows[i], width, c, row);
    }

    // Clears column j, whose entry in row j is 1, in every other row.
    fn clear_column(&mut self, j: usize)
        requires { Ready self.old.side j self.old.rows }
        ensures { (self.new.side ≡ self.old.side) × Reduced self.old.side (j + 1) self.old.rows self.new.rows }
    {
        let row = self.rows[j];
        // by a range: add_multiple takes the whole matrix, so its rows cannot be lent to the loop
        for i in 0..self.side {
            if i != j {
                let c = self.rows[i][j];
                self.add_multiple(i, c, &row);
            }
        }
    }

    // Writes the right half to out.
    pub(crate) fn store(&self, out: &mut [u8])
        requires { length out.old ≡ self.now.side * self.now.side }
        ensures { (i k : ℕ) → i < self.now.side → k < self.now.side → entry self.now.side out.new i k ≡ grid self.now.rows i (self.now.side + k) }
    {
        let side = self.side;
        // by an index: what goes through chunks_exact_mut, no proof knows afterwards
        for i in 0..side {
            let at = i * side;
            out[at..at + side].copy_from_slice(&self.rows[i][side..2 * side]);
        }
    }
}

// Makes a row of zeros row i of [m | 1].
fn load_row(row: &mut [u8; 64], i: usize, entries: &[u8])
    requires { (i < length entries.now) × (length entries.now ≤ 32) × ((k : ℕ) → get_or row.old k 0 ≡ 0) }
    ensures { LoadedRow i entries.now row.new }
{
    let side = entries.len();
    row[..side].copy_from_slice(entries);
    row[side + i] = 1;
}

// Multiplies the first entries of a row by c.
fn scale(row: &mut [u8; 64], width: usize, c: u8)
    requires { width ≤ 64 }
    ensures done { (k : ℕ) → k < width → get_or row.new k 0 ≡ mul c (get_or row.old k 0) }
    ensures bytes { Bytes row.new }
{
    for x in row[..width].iter_mut() {
        *x = field::times(c, *x);
    }
}

// Adds c times another row's first entries to a row's. The two lie apart in memory, so that the loop becomes vector code.
fn add_to(row: &mut [u8; 64], width: usize, c: u8, other: &[u8; 64])
    requires { width ≤ 64 }
    ensures done { (k : ℕ) → k < width → get_or row.new k 0 ≡ add (get_or row.old k 0) (mul c (get_or other.now k 0)) }
    ensures bytes { Bytes row.new }
{
    // not zipped with the other row: what goes through an adapter of iter_mut, no proof knows afterwards
    for (i, x) in row[..width].iter_mut().enumerate() {
        *x ^= field::times(c, other[i]);
    }
}

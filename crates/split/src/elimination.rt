// The search in a matrix over a field for the first row that depends on the rows before it.
//
// The matrix and its bookkeeping stand in one slice of codes, row by row, d codes to a row. Rows 0 to d - 1 are the matrix, of which
// row 0 takes no part. Row d + j holds the coefficients of the combination of the rows at the start that row j has become.
ghost use Rattle.std.specs.Prelude.{◌≡◌, ℕ, ◌+◌, ◌-◌, ◌*◌, ◌<◌, ◌≤◌, length, ◌≢◌, slice_index};
ghost use Rattle.field.specs.Rows.{IsRow, Written};
ghost use Rattle.split.specs.Matrix.{cell, Codes, Answer};
ghost use Rattle.split.specs.Echelon.{First, Frame, Subtracted, Scaled, Reduces, Clears, unit_at, less, pivot_of};

use field::{Field, ONE, Ring, scale};

// The place of the first code that is not 0, or the length: contracts tell by it whether a row has a pivot below d.
fn pivot(row: &[u16]) -> usize
    ensures { First row.now result }
{
    row.iter().position(|c| *c != 0).unwrap_or(row.len())
}

// Takes t times the row `from` from the row `into`.
fn subtract_multiple<R: Ring>(ring: &R, t: u16, from: &[u16], into: &mut [u16])
    requires made { R.made ring.now }
    requires sized { length from.now ≡ length into.old }
    ensures { IsRow into.new (length into.old) (λ i. less (R.meaning ring.now) t (slice_index into.old i) (slice_index from.now i)) }
{
    // not by zip: nothing is known of a row after a loop over what zip lends of it
    for (i, c) in into.iter_mut().enumerate() {
        let multiple = ring.product(t, from[i]);
        *c = ring.sum(*c, ring.opposite(multiple));
    }
}

// The matrix and its bookkeeping, in a slice that is lent.
#[derive(Drop)]
struct Matrix<'a, F: Field> {
    field: &'a F,
    d: usize,
    codes: &'a mut [u16],
    ghost space: { 2 * (d * d) ≤ length codes.now },
    ghost below: { Codes (F.meaning field.now) (2 * (d * d)) codes.now },
}

impl<F: Field> Matrix<'_, F> {
    ghost use Rattle.split.specs.Kept.{Kept};

    // Row e of the matrix.
    fn row(&self, e: usize) -> &[u16]
        requires { e < self.now.d }
        ensures { IsRow result.now self.now.d (cell self.now.codes.now self.now.d e) }
    {
        &self.codes[e * self.d..e * self.d + self.d]
    }

    // Takes t times row r from row e, of the matrix or of the bookkeeping.
    fn subtract(&mut self, t: u16, r: usize, e: usize)
        requires made { F.made self.old.field.now }
        requires above { r < e }
        requires row { e < 2 * self.old.d }
        ensures kept { Kept self.old self.new }
        ensures written { Written self.old.codes.now self.new.codes.now (e * self.old.d) self.old.d (λ i. less (F.meaning self.old.field.now) t (cell self.old.codes.now self.old.d e i) (cell self.old.codes.now self.old.d r i)) }
    {
        let d = self.d;
        // under a name of its own: of a field that is cut in two it is not known what was written
        let codes = &mut *self.codes;
        let (before, after) = codes.split_at_mut(e * d);
        subtract_multiple(self.field, t, &before[r * d..r * d + d], &mut after[0..d]);
    }

    // Multiplies row e by u, of the matrix or of the bookkeeping.
    fn scale(&mut self, u: u16, e: usize)
        requires made { F.made self.old.field.now }
        requires row { e < 2 * self.old.d }
        ensures kept { Kept self.old self.new }
        ensures written { Written self.old.codes.now self.new.codes.now (e * self.old.d) self.old.d (λ i. (F.meaning self.old.field.now).product u (cell self.old.codes.now self.old.d e i)) }
    {
        let at = e * self.d;
        scale(self.field, u, &mut self.codes[at..at + self.d]);
    }

    // Makes the combination of row e the row itself.
    fn start_combination(&mut self, e: usize)
        requires made { F.made self.old.field.now }
        requires row { e < self.old.d }
        ensures kept { Kept self.old self.new }
        ensures written { Written self.old.codes.now self.new.codes.now ((self.old.d + e) * self.old.d) self.old.d (unit_at e) }
    {
        let at = (self.d + e) * self.d;
        let combination = &mut self.codes[at..at + self.d];
        combination.fill(0);
        combination[e] = ONE;
    }

    // Takes from row e the multiple of row r that clears it at the pivot of row r, and does the same to their combinations.
    fn clear_at_pivot(&mut self, r: usize, e: usize)
        requires made { F.made self.old.field.now }
        requires above { r < e }
        requires row { e < self.old.d }
        requires pivot { pivot_of self.old.codes.now self.old.d r < self.old.d }
        ensures kept { Kept self.old self.new }
        ensures subtracted { Subtracted (F.meaning self.old.field.now) self.old.d r e (cell self.old.codes.now self.old.d e (pivot_of self.old.codes.now self.old.d r)) self.old.codes.now self.new.codes.now }
    {
        let d = self.d;
        let column = pivot(self.row(r));
        let t = self.row(e)[column];
        self.subtract(t, r, e);
        self.subtract(t, d + r, d + e);
    }

    // Clears row e at the pivots of rows 1 to e - 1.
    fn reduce(&mut self, e: usize)
        requires made { F.made self.old.field.now }
        requires low { 1 ≤ e }
        requires row { e < self.old.d }
        requires pivots { (r : ℕ) → 1 ≤ r → r < e → pivot_of self.old.codes.now self.old.d r < self.old.d }
        ensures kept { Kept self.old self.new }
        ensures frame { Frame self.old.d e self.old.codes.now self.new.codes.now }
        ensures reduced { Reduces (F.meaning self.old.field.now) self.old.d e self.old.codes.now self.new.codes.now (e - 1) }
    {
        // rows by their number: each turn reads one row of the lent slice and writes another
        for r in 1..e {
            self.clear_at_pivot(r, e);
        }
    }

    // Makes the combination of row e the row itself, and then clears the row at the pivots of rows 1 to e - 1.
    fn clear_row(&mut self, e: usize)
        requires made { F.made self.old.field.now }
        requires low { 1 ≤ e }
        requires row { e < self.old.d }
        requires pivots { (r : ℕ) → 1 ≤ r → r < e → pivot_of self.old.codes.now self.old.d r < self.old.d }
        ensures kept { Kept self.old self.new }
        ensures frame { Frame self.old.d e self.old.codes.now self.new.codes.now }
        ensures cleared { Clears (F.meaning self.old.field.now) self.old.d e self.old.codes.now self.new.codes.now }
    {
        self.start_combination(e);
        self.reduce(e);
    }

    // Multiplies row e and its combination so that the row is one at its pivot.
    fn scale_to_one(&mut self, e: usize, pivot: usize)
        requires made { F.made self.old.field.now }
        requires row { e < self.old.d }
        requires column { pivot < self.old.d }
        requires before { (k : ℕ) → k < pivot → cell self.old.codes.now self.old.d e k ≡ 0 }
        requires here { cell self.old.codes.now self.old.d e pivot ≢ 0 }
        ensures kept { Kept self.old self.new }
        ensures scaled { (u : ℕ) × Scaled (F.meaning self.old.field.now) self.old.d e u self.old.codes.now self.new.codes.now }
    {
        let d = self.d;
        match self.field.inverse(self.row(e)[pivot]) {
            Some(u) => {
                self.scale(u, e);
                self.scale(u, d + e);
            }
            None => unreachable(),
        }
    }

    // The first row that depends on those before it, or none.
    fn search(&mut self) -> Option<usize>
        requires made { F.made self.old.field.now }
        ensures kept { Kept self.old self.new }
        ensures past { (k : ℕ) → 2 * (self.old.d * self.old.d) ≤ k → slice_index self.new.codes.now k ≡ slice_index self.old.codes.now k }
        ensures answer { Answer (F.meaning self.old.field.now) self.old.d self.old.codes.now self.new.codes.now result }
    {
        let d = self.d;
        // left by a label at the first code of a row that is not zero; a row with none is the answer
        'rows: for e in 1..d {
            self.clear_row(e);
            for column in 0..d {
                if self.row(e)[column] != 0 {
                    self.scale_to_one(e, column);
                    continue 'rows;
                }
            }
            return Some(e);
        }
        None
    }
}

// The first of rows 1 to d - 1 that depends on those before it, or none. What the rows were reduced to, and the combinations
// that made them, is left in the first 2 * d * d codes: for a row e found, row d + e holds the combination that is zero.
pub(crate) fn dependent_row<F: Field>(field: &F, d: usize, codes: &mut [u16]) -> Option<usize>
    requires made { F.made field.now }
    requires space { 2 * (d * d) ≤ length codes.old }
    requires below { Codes (F.meaning field.now) (d * d) codes.old }
    ensures below { Codes (F.meaning field.now) (2 * (d * d)) codes.new }
    ensures past { (k : ℕ) → 2 * (d * d) ≤ k → slice_index codes.new k ≡ slice_index codes.old k }
    ensures answer { Answer (F.meaning field.now) d codes.old codes.new result }
{
    codes[d * d..2 * (d * d)].fill(0);
    let mut matrix = Matrix { field, d, codes };
    matrix.search()
}

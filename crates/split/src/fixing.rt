// The matrix whose dependent rows tell the fixed polynomials: row j is X^(j q) - X^j modulo f, where q is the order of the field.
ghost use Rattle.std.specs.Prelude.{◌≡◌, ℕ, ◌+◌, ◌*◌, ◌<◌, ◌≤◌, length, slice_index};
ghost use Rattle.field.specs.Polynomial.{degree};
ghost use Rattle.field.specs.Rows.{Written};
ghost use Rattle.split.specs.Matrix.{Codes};
ghost use Rattle.split.specs.Calls.{Taken};
ghost use Rattle.split.specs.FixedRows.{PowerRow, FixedRows, changed_at};

use crate::remainders::Modulo;
use field::{ONE, Ring};
use poly::MOST_CODES;

// Writes a row as row j of the matrix, with v in place of its code at column i.
pub(crate) fn put_row(j: usize, row: &[u16], i: usize, v: u16, codes: &mut [u16])
    requires within { j * length row.now + length row.now ≤ length codes.old }
    requires column { i < length row.now }
    ensures { Written codes.old codes.new (j * length row.now) (length row.now) (changed_at row.now i v) }
{
    let place = j * row.len();
    let out = &mut codes[place..place + row.len()];
    out.copy_from_slice(row);
    out[i] = v;
}

// Writes the rows of the matrix, where x is X^q modulo f and the row begins as X^0.
fn fill_rows<R: Ring>(modulo: &Modulo<R>, q: usize, x: &[u16], row: &mut [u16], codes: &mut [u16])
    requires made { R.made modulo.now.ring.now }
    requires order { q ≡ (R.meaning modulo.now.ring.now).order }
    requires power { PowerRow (R.meaning modulo.now.ring.now) modulo.now.f.now q x.now }
    requires start { PowerRow (R.meaning modulo.now.ring.now) modulo.now.f.now 0 row.old }
    requires space { degree modulo.now.f.now * degree modulo.now.f.now ≤ length codes.old }
    ensures below { Codes (R.meaning modulo.now.ring.now) (degree modulo.now.f.now * degree modulo.now.f.now) codes.new }
    ensures rows { FixedRows (R.meaning modulo.now.ring.now) modulo.now.f.now (degree modulo.now.f.now) codes.new }
    ensures past { (k : ℕ) → degree modulo.now.f.now * degree modulo.now.f.now ≤ k → slice_index codes.new k ≡ slice_index codes.old k }
{
    // by index: the rows of the matrix are parts of the one slice that is lent
    for j in 0..row.len() {
        let less_one = modulo.ring.sum(row[j], modulo.ring.opposite(ONE));
        put_row(j, row, j, less_one, codes);
        modulo.advance(q, x, row);
    }
}

// Writes the matrix of f.
pub(crate) fn fill_matrix<R: Ring>(ring: &R, f: &[u16], codes: &mut [u16])
    requires made { R.made ring.now }
    requires taken { Taken (R.meaning ring.now) f.now }
    requires space { degree f.now * degree f.now ≤ length codes.old }
    ensures below { Codes (R.meaning ring.now) (degree f.now * degree f.now) codes.new }
    ensures rows { FixedRows (R.meaning ring.now) f.now (degree f.now) codes.new }
    ensures past { (k : ℕ) → degree f.now * degree f.now ≤ k → slice_index codes.new k ≡ slice_index codes.old k }
{
    let modulo = Modulo { ring, f };
    let d = f.len() - 1;
    let q = ring.order();
    let mut power = [0u16; MOST_CODES];
    let x = &mut power[0..d];
    modulo.write_power(q, x);
    let mut start = [0u16; MOST_CODES];
    let row = &mut start[0..d];
    modulo.write_power(0, row);
    fill_rows(&modulo, q as usize, x, row, codes);
}

// From values to coefficients, by the basis polynomials of Lagrange: that of a point is 1 there and 0 at the other points, so a polynomial is the sum of
// these, each times the value at its point. Only the leading coefficients are wanted, so only these are found. They are the lowest: the product of all z - x, for
// the points x, is multiplied out once as far as they go; for each point it is divided by the point's own z - x, from the lowest coefficient up, and by the value
// that the quotient, times z, has at the point. That takes a number of steps that grows with the square of the number of points, where elimination takes its
// cube.
ghost use Rattle.std.specs.Prelude.{◌≡◌, ℕ, ◌*◌, ◌<◌, length, get_or};
ghost use Rattle.field.specs.Field.{pow};
ghost use Rattle.interpolation.specs.Polynomial.{Points};
ghost use Rattle.coefficients.specs.Working.{product_at, Widened, Lowest, Multiplied, Multiplied-prop, BasisRows, BasisPut, Columned};

use crate::distances::Anchors;
use tables::Exponent;

// Column i of rows := the count lowest coefficients of the basis polynomial of point i.
pub(crate) fn basis_rows(points: &[u8], count: usize, rows: &mut [u8])
    requires { Columned count points.now rows.old }
    ensures { BasisRows count points.now (length points.now) rows.new }
{
    let mut product = [0u8; 32];
    multiply_out(points, &mut product[..count]);
    let product = Product {
        points,
        lowest: &product[..count],
    };
    product.fill_columns(rows);
}

// product := the product of all z - x, as far as it goes. It is handed in as zeros.
fn multiply_out(points: &[u8], product: &mut [u8])
    requires points { Points points.now }
    requires product_nonzero { 0 < length product.old }
    requires by_index { (j : ℕ) → get_or product.old j 0 ≡ 0 }
    ensures { Lowest points.now (length points.now) product.new }
{
    product[0] = 1;
    for x in points {
        widen(Exponent::of(*x), product);
    }
}

// Multiplies a polynomial by z - 02^x, from the highest coefficient down; what would stand behind the last is left out.
fn widen(x: Exponent, p: &mut [u8])
    requires { 0 < length p.old }
    ensures { Widened (pow 2 x.value) p.old p.new }
{
    // by a range: each entry is made of itself and the one before
    for j in (1..p.len()).rev() {
        p[j] = p[j - 1] ^ x.times(p[j]);
    }
    p[0] = x.times(p[0]);
}

// The lowest coefficients of the product of all z - x, as many as are wanted of each basis polynomial.
#[derive(Clone, Copy)]
struct Product<'a> {
    points: &'a [u8],
    lowest: &'a [u8],
    ghost multiplied: { Multiplied points.now lowest.now } by { Multiplied-prop points.now lowest.now },
}

impl Product<'_> {
    // Column by column, from the exponent of the product's lowest coefficient: that is the product of all points, and so not 00.
    fn fill_columns(&self, rows: &mut [u8])
        requires { length rows.old ≡ length self.now.lowest.now * length self.now.points.now }
        ensures { BasisRows (length self.now.lowest.now) self.now.points.now (length self.now.points.now) rows.new }
    {
        let first = Exponent::of(self.lowest[0]);
        // by a range: column i is no slice of rows
        for i in 0..self.points.len() {
            self.fill_column(i, first, rows);
        }
    }

    // Column i of rows := the lowest coefficients of point i's basis polynomial. They belong to the powers from 1 on: it is z times the quotient, divided by what that
    // is at the point. Each coefficient of the product is one of the quotient less the point times the next one.
    fn fill_column(&self, i: usize, first: Exponent, rows: &mut [u8])
        requires i_in_bounds { i < length self.now.points.now }
        requires first { pow 2 first.value ≡ product_at self.now.points.now (length self.now.points.now) 0 }
        requires room { length rows.old ≡ length self.now.lowest.now * length self.now.points.now }
        ensures { BasisPut (length self.now.lowest.now) self.now.points.now i rows.old rows.new }
    {
        let Product { points, lowest } = *self;
        let anchors = Anchors { e: 0, at: points };
        let back = -Exponent::of(points[i]);
        let scale = -anchors.apart_exponent(points[i]);
        let mut lead = (first + scale + back).power();
        rows[i] = lead;
        // by a range: entry j of the column stands in row j, and what is written through chunks_exact_mut no proof knows
        for j in 1..lowest.len() {
            lead = back.times(lead ^ scale.times(lowest[j]));
            rows[j * points.len() + i] = lead;
        }
    }
}

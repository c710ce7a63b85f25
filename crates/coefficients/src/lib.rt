// Small matrices of coefficients, found once for each call and then applied to blocks: powers of points, and what takes values at some points to
// coefficients (module reading) or to values at others (module completing). Both are written down by Lagrange's basis polynomials, the one by their
// coefficients, the other by their values. A polynomial has no constant term here: its coefficients belong to the powers from 1 on.
#![tactic(auto)]

mod completing;
mod distances;
mod raising;
mod reading;

ghost use Rattle.base.specs.Decided.{Decided};
ghost use Rattle.coefficients.specs.Coefficients.{PowersPost, ReadsPost, Roomy, ExtendsPost};

use base::is_product;
use points::{different, lists};

// out := a row for each point: its powers 1, .., m. Where out is longer or shorter than these rows, nothing is written.
pub fn power_rows(points: &[u8], m: usize, out: &mut [u8])
    ensures { PowersPost points.now m out.old out.new }
{
    if !is_product(out.len(), points.len(), m) {
        return;
    }
    raising::fill_rows(points, m, out);
}

// rows := the coefficients that take the values at the points to the k leading coefficients of a polynomial with as many coefficients as there are points:
// column i has those of the basis polynomial of point i. Nothing is written where k exceeds the number of points, where there are more than 32, where one is 00
// or two are equal, and where rows is longer or shorter than k rows.
pub fn reading_rows(k: usize, points: &[u8], rows: &mut [u8])
    ensures { ReadsPost k points.now rows.old rows.new }
{
    let count = points.len();
    if k == 0 {
        return;
    }
    if 32 < count {
        return;
    }
    if count < k {
        return;
    }
    if rows.len() != k * count {
        return;
    }
    if !different(points) {
        return;
    }
    reading::basis_rows(points, k, rows);
}

// A polynomial with e leading coefficients, and as many others as `at` has points, is settled by the leading ones and its values at these points. leading and
// gains become the coefficients that take them to its values at the targets. Nothing is written where e, the number of points or that of targets exceeds 32,
// where a point or a target is 00 or two points are equal, and where leading or gains is longer or shorter than a row for each target.
pub fn completion_rows(e: usize, at: &[u8], targets: &[u8], leading: &mut [u8], gains: &mut [u8])
    ensures { ExtendsPost e at.now targets.now leading.old gains.old leading.new gains.new }
{
    if !can_complete(e, at, targets, leading.len(), gains.len()) {
        return;
    }
    completing::complete(e, at, targets, leading, gains);
}

// Whether the points and targets, and the lengths of leading and gains, are as the rows ask.
fn can_complete(e: usize, at: &[u8], targets: &[u8], leading: usize, gains: usize) -> bool
    ensures { Decided (Roomy e at.now targets.now leading gains) result }
{
    let m = at.len();
    let count = targets.len();
    if 32 < e {
        return false;
    }
    if 32 < m {
        return false;
    }
    if 32 < count {
        return false;
    }
    if leading != count * e {
        return false;
    }
    if gains != count * m {
        return false;
    }
    if !different(at) {
        return false;
    }
    !lists(targets, 0)
}

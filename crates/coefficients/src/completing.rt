// From leading coefficients and values at some points to values at others. Rows and entries are written by their numbers: of what is written through chunks_mut, or
// through a zip with iter_mut, nothing is proved.
ghost use Rattle.std.specs.Prelude.{◌≡◌, ◌*◌, ◌≤◌, length};
ghost use Rattle.interpolation.specs.Polynomial.{Points};
ghost use Rattle.points.specs.Lists.{Among};
ghost use Rattle.coefficients.specs.Coefficients.{Extends, Roomy};
ghost use Rattle.coefficients.specs.Working.{unit_row, basis_values, basis_value_rows, Weighed, Weighed-prop, Carries, Carriable, with_powers, with_share, Shared};

use crate::distances::Anchors;
use crate::raising::fill_rows;
use block_numbers::in_order;
use kernels::add_product;
use points::lists;
use tables::Exponent;

// leading and gains := the rows that take leading coefficients, and values at the points of `at`, to values at the targets. A value at a
// point of `at` has the leading coefficients' share in it, which the gains carry to the targets too, where it does not belong. So leading subtracts it, which in this field is adding it.
pub(crate) fn complete(e: usize, at: &[u8], targets: &[u8], leading: &mut [u8], gains: &mut [u8])
    requires { Roomy e at.now targets.now (length leading.old) (length gains.old) }
    ensures { Extends e at.now targets.now leading.new gains.new }
{
    let anchors = Anchors { e, at };
    fill_rows(targets, e, leading);
    anchors.gain_rows(targets, gains);
    let rows = targets.len();
    let carried = Gains {
        anchors,
        rows,
        gains,
    };
    carried.add_share(leading);
}

impl Anchors<'_> {
    // gains := the coefficients that take what the other coefficients give at the points of `at` to what they give at the targets. These are Lagrange basis values: at
    // target t, for the point c, (t/c)^(e+1) times the product of all (t - d)/(c - d), for the other points d.
    fn gain_rows(&self, targets: &[u8], gains: &mut [u8])
        requires { Carriable self.now.at.now targets.now gains.old }
        ensures { Carries self.now.e self.now.at.now targets.now gains.new }
    {
        let weights = Weights {
            anchors: *self,
            exponents: self.weigh(),
        };
        weights.fill_gains(targets, gains);
    }

    // For each point the exponent of the inverse of its barycentric weight.
    fn weigh(&self) -> [u8; 32]
        ensures { Weighed self.now.e self.now.at.now (length self.now.at.now) result }
    {
        let mut weights = [0u8; 32];
        for (i, x) in self.at.iter().enumerate() {
            weights[i] = self.apart_exponent(*x).value as u8;
        }
        weights
    }
}

// The points of `at` with these exponents.
#[derive(Clone, Copy)]
struct Weights<'a> {
    anchors: Anchors<'a>,
    exponents: [u8; 32],
    ghost weighed: { Weighed anchors.e anchors.at.now (length anchors.at.now) exponents } by { Weighed-prop anchors.e anchors.at.now (length anchors.at.now) exponents },
}

impl Weights<'_> {
    // gains := a row for each target.
    fn fill_gains(&self, targets: &[u8], gains: &mut [u8])
        requires { Carriable self.now.anchors.at.now targets.now gains.old }
        ensures { gains.new ≡ basis_value_rows self.now.anchors.e self.now.anchors.at.now targets.now }
    {
        let m = self.anchors.at.len();
        for (t, target) in targets.iter().enumerate() {
            let first = t * m;
            let end = first + m;
            self.fill_gain(*target, &mut gains[first..end]);
        }
    }

    // gains := the row of one target.
    fn fill_gain(&self, target: u8, gains: &mut [u8])
        requires nonzero { target ≡ 0 → ⊥ }
        requires room { length gains.old ≡ length self.now.anchors.at.now }
        ensures { gains.new ≡ basis_values self.now.anchors.e self.now.anchors.at.now target }
    {
        if lists(self.anchors.at, target) {
            fill_unit(self.anchors.at, target, gains);
            return;
        }
        self.fill_apart(target, gains);
    }

    // A target that is none of the points: the product of all t - d, without the point's own factor, times the point's barycentric weight.
    fn fill_apart(&self, target: u8, gains: &mut [u8])
        requires nonzero { target ≡ 0 → ⊥ }
        requires room { length gains.old ≡ length self.now.anchors.at.now }
        requires apart { Among (length self.now.anchors.at.now) self.now.anchors.at.now target → ⊥ }
        ensures { gains.new ≡ basis_values self.now.anchors.e self.now.anchors.at.now target }
    {
        let at = self.anchors.at;
        let whole = self.anchors.apart_exponent(target);
        for (j, gain) in gains.iter_mut().enumerate() {
            let weight = Exponent {
                value: usize::from(self.exponents[j]),
            };
            let parts = weight + Exponent::of(target ^ at[j]);
            *gain = (whole + -parts).power();
        }
    }
}

// A row of gains for each of at most 32 targets.
#[derive(Clone, Copy)]
struct Gains<'a> {
    anchors: Anchors<'a>,
    rows: usize,
    gains: &'a [u8],
    ghost few: { rows ≤ 32 },
    ghost room: { length gains.now ≡ rows * length anchors.at.now },
}

impl Gains<'_> {
    // leading += gains times the powers 1, .., e of the points of `at`.
    fn add_share(&self, leading: &mut [u8])
        requires { length leading.old ≡ self.now.rows * self.now.anchors.e }
        ensures { Shared self.now.rows self.now.anchors.e self.now.anchors.at.now self.now.gains.now leading.old leading.new }
    {
        if self.anchors.at.len() * self.anchors.e <= 32 {
            self.add_row_shares(leading);
            return;
        }
        let mut powers = [0u8; 1024];
        self.share_within(&mut powers, leading);
    }

    // The same, row by row: for few powers.
    fn add_row_shares(&self, leading: &mut [u8])
        requires { length leading.old ≡ self.now.rows * self.now.anchors.e }
        ensures { Shared self.now.rows self.now.anchors.e self.now.anchors.at.now self.now.gains.now leading.old leading.new }
    {
        let Anchors { e, at } = self.anchors;
        let m = at.len();
        for t in 0..self.rows {
            let first = t * e;
            let end = first + e;
            let start = t * m;
            let stop = start + m;
            add_row_share(at, &self.gains[start..stop], &mut leading[first..end]);
        }
    }

    // The same as add_share, through one product, with room for the powers: for many of them.
    fn share_within(&self, powers: &mut [u8], leading: &mut [u8])
        requires room { length leading.old ≡ self.now.rows * self.now.anchors.e }
        requires e_in_bounds { length self.now.anchors.at.now * self.now.anchors.e ≤ length powers.old }
        ensures { Shared self.now.rows self.now.anchors.e self.now.anchors.at.now self.now.gains.now leading.old leading.new }
    {
        let Anchors { e, at } = self.anchors;
        let m = at.len();
        let area = m * e;
        fill_rows(at, e, &mut powers[..area]);
        let order = in_order();
        let columns = in_order();
        add_product(
            leading,
            &order[..self.rows],
            e,
            &powers[..area],
            &columns[..m],
            self.gains,
            m,
        );
    }
}

// A target that is one of the points: its own value, and no other.
fn fill_unit(at: &[u8], target: u8, gains: &mut [u8])
    requires { length gains.old ≡ length at.now }
    ensures { gains.new ≡ unit_row at.now target }
{
    for (j, gain) in gains.iter_mut().enumerate() {
        *gain = u8::from(at[j] == target);
    }
}

// One row: leading += the gains times the powers 1, 2, .. of the points of `at`.
fn add_row_share(at: &[u8], gains: &[u8], leading: &mut [u8])
    requires points { Points at.now }
    requires gains_len { length gains.now ≡ length at.now }
    ensures { leading.new ≡ with_share (length at.now) at.now gains.now leading.old }
{
    for (g, x) in gains.iter().zip(at) {
        add_powers(*g, *x, leading);
    }
}

// leading += g times the powers 1, 2, .. of x, which is not 00.
fn add_powers(g: u8, x: u8, leading: &mut [u8])
    requires { x ≡ 0 → ⊥ }
    ensures { leading.new ≡ with_powers g x leading.old }
{
    if g == 0 {
        return;
    }
    let l = Exponent::of(x);
    let mut sum = Exponent::of(g);
    for coefficient in leading.iter_mut() {
        sum = sum + l;
        *coefficient ^= sum.power();
    }
}

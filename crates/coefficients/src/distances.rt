// What Lagrange's formula divides by, and what it multiplies: products of the differences of points, by the sums of their exponents.
ghost use Rattle.std.specs.Prelude.{◌≡◌};
ghost use Rattle.field.specs.Field.{pow};
ghost use Rattle.interpolation.specs.Lagrange.{factor, apart};
ghost use Rattle.coefficients.specs.Working.{Weighable, Weighable-prop};

use tables::Exponent;

// What settles a polynomial: e leading coefficients, and the values at the points of `at`.
#[derive(Clone, Copy)]
pub(crate) struct Anchors<'a> {
    pub(crate) e: usize,
    pub(crate) at: &'a [u8],
    pub(crate) ghost weighable: { Weighable e at.now } by { Weighable-prop e at.now },
}

impl Anchors<'_> {
    // The exponent of x^(e+1) times the product of all x - d, for the points d of `at` other than x, which is not 00.
    pub(crate) fn apart_exponent(&self, x: u8) -> Exponent
        requires { x ≡ 0 → ⊥ }
        ensures { pow 2 result.value ≡ apart self.now.e self.now.at.now x x }
    {
        let at = self.at;
        let mut sum = Exponent::of(x).value * (self.e + 1);
        for d in at {
            sum += difference(x, *d).value;
        }
        Exponent::reduced(sum)
    }
}

// The exponent of x - d; that of 01 where they are equal.
fn difference(x: u8, d: u8) -> Exponent
    ensures { pow 2 result.value ≡ factor x x d }
{
    if x == d {
        return Exponent::of(1);
    }
    Exponent::of(x ^ d)
}

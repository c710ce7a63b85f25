// The elements of the field as a type: sum, product, inverse and power (document 01, "The field"). Products and inverses go by the exponents of 02.
#![tactic(auto)]

ghost use Rattle.std.specs.Prelude.{◌≡◌};
ghost use Rattle.field.specs.Field.{add, mul, pow, Inverse};

use std::ops::{Add, Mul};
use tables::Exponent;

// A field element. Document 01 calls it a field value.
#[derive(Clone, Copy, PartialEq, Eq)]
pub struct Elem(pub u8);

impl Elem {
    pub const ZERO: Elem = Elem(0);

    pub const ONE: Elem = Elem(1);
    // How many elements are not zero: one of the constants that document 01 asks for ("Forms we want to see"); no code here reads it.
    pub const ORDER: usize = 255;

    // The inverse of zero is zero. Any other element is a power of 02, and so is its inverse.
    pub fn inverse(self) -> Elem
        ensures { Inverse self.0 result.0 }
    {
        if self == Elem::ZERO {
            return Elem::ZERO;
        }
        Elem((-Exponent::of(self.0)).power())
    }

    // By squaring: the exponent is halved until it is 0.
    pub fn pow(self, e: u64) -> Elem
        ensures { result.0 ≡ pow self.0 e }
    {
        if e == 0 {
            return Elem::ONE;
        }
        let half = self.pow(e / 2);
        let square = half * half;
        if e % 2 == 0 {
            return square;
        }
        square * self
    }
}

impl Add for Elem {
    type Output = Elem;

    ghost add_gives = { λ a b sum. sum.0 ≡ add a.0 b.0 };

    fn add(self, other: Elem) -> Elem {
        Elem(self.0 ^ other.0)
    }
}

// Zero times anything is zero. Any other element is a power of 02.
impl Mul for Elem {
    type Output = Elem;

    ghost mul_gives = { λ a b product. product.0 ≡ mul a.0 b.0 };

    fn mul(self, other: Elem) -> Elem {
        if self == Elem::ZERO {
            return self;
        }
        if other == Elem::ZERO {
            return other;
        }
        Elem((Exponent::of(self.0) + Exponent::of(other.0)).power())
    }
}

// Exponents of 02: a product of powers by the sum of their exponents, 02^a · 02^b = 02^(a + b), where 02^255 = 01.
ghost use Rattle.std.specs.Prelude.{◌≡◌, ◌+◌, ◌<◌};
ghost use Rattle.field.specs.Field.{mul, pow};

use crate::{logs, powers};
use std::ops::{Add, Neg};

// An exponent, as the table of powers has them.
#[derive(Clone, Copy)]
pub struct Exponent {
    pub value: usize,
    pub ghost small: { value < 255 },
}

impl Exponent {
    // The exponent of a as a power of 02; 00 is none, and has 0.
    pub fn of(a: u8) -> Exponent
        ensures { (a ≡ 0 → ⊥) → pow 2 result.value ≡ a }
    {
        Exponent {
            value: usize::from(logs()[usize::from(a)]),
        }
    }

    // That of 02^e, for any e.
    pub fn reduced(e: usize) -> Exponent
        ensures { pow 2 result.value ≡ pow 2 e }
    {
        Exponent { value: e % 255 }
    }

    // 02 to this power.
    pub fn power(self) -> u8
        ensures { result ≡ pow 2 self.value }
    {
        powers()[self.value]
    }

    // a times 02 to this power.
    pub fn times(self, a: u8) -> u8
        ensures { result ≡ mul a (pow 2 self.value) }
    {
        if a == 0 {
            return 0;
        }
        (Exponent::of(a) + self).power()
    }
}

// The exponent of the product.
impl Add for Exponent {
    type Output = Exponent;

    ghost add_gives = { λ d e sum. pow 2 sum.value ≡ mul (pow 2 d.value) (pow 2 e.value) };

    fn add(self, other: Exponent) -> Exponent {
        let sum = self.value + other.value;
        if sum < 255 {
            return Exponent { value: sum };
        }
        Exponent { value: sum - 255 }
    }
}

// The exponent of the inverse.
impl Neg for Exponent {
    type Output = Exponent;

    ghost neg_gives = { λ e opposite. mul (pow 2 e.value) (pow 2 opposite.value) ≡ 1 };

    fn neg(self) -> Exponent {
        if self.value == 0 {
            return self;
        }
        Exponent {
            value: 255 - self.value,
        }
    }
}

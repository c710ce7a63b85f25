// The field with 256 elements, its modulus z^8 + z^4 + z^3 + z^2 + 1 (document 01, "The field"): what sum, product, power and inverse are is defined in
// specs/Field.antt, with no table, and their laws are in proofs/. The only code here is the product of bytes with no table.
#![tactic(auto)]

ghost use Rattle.std.specs.Prelude.{◌≡◌};
ghost use Rattle.field.specs.Field.{mul};

// 02·x, with no branch and no table, so that a loop over bytes becomes vector code.
pub fn double(x: u8) -> u8
    ensures { result ≡ mul 2 x }
{
    ((x % 128) * 2) ^ ((x / 128) * 29)
}

// c·x by eight steps of doubling and adding, with no branch and no table: for loops over bytes that share the factor c. The steps go by the bits of x, so that
// the multiples of c are the same for all bytes of such a loop and nothing in it depends on the bits of c.
pub fn times(c: u8, x: u8) -> u8
    ensures { result ≡ mul c x }
{
    let mut sum = 0;
    let mut multiple = c;
    let mut rest = x;
    for _ in 0..8usize {
        sum ^= multiple * (rest % 2);
        multiple = double(multiple);
        rest /= 2;
    }
    sum
}

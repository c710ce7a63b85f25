// What the crates above share: definitions and lemmas (questions at the gate, lists by their entries, computed tests), and the test of a product.
#![tactic(auto)]

ghost use Rattle.std.specs.Prelude.{◌≡◌, ◌*◌, eqb};

// Whether length = count · size, for numbers of any size: a product that overflows is no length.
pub fn is_product(length: usize, count: usize, size: usize) -> bool
    ensures { result ≡ eqb length (count * size) }
{
    count.checked_mul(size) == Some(length)
}

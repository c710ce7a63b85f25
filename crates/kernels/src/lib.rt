// A matrix of coefficients times blocks: where the calls spend their time. The one exported function has a narrow contract, for slices of any lengths,
// so that what stands behind it can be replaced by something faster.
#![tactic(auto)]

ghost use Rattle.std.specs.Prelude.{◌≡◌, true, ◌≤◌};
ghost use Rattle.products.specs.Blocks.{Added};

use tiled_products::{add_short, add_tiled};

// A matrix of coefficients times the blocks of src at the given places: row i of the product is added to block targets[i] of out. Blocks have b bytes, and row i of
// the coefficients begins at i·stride. Where the product does not fit the slices, nothing is written: the products in tiles refuse it.
// The parameters are no struct: tried; add_tiles wants that the coefficients are bytes, which a slice behind a lent struct does not tell and a public function may not ask;
// and its five callers would write as many fields as they write arguments now.
pub fn add_product(
    out: &mut [u8],
    targets: &[u8],
    b: usize,
    src: &[u8],
    places: &[u8],
    coeffs: &[u8],
    stride: usize,
)
    ensures { Added b stride src.now targets.now places.now coeffs.now out.old out.new }
{
    if prefers_short(targets.len(), b, places.len()) {
        add_short(out, targets, b, src, places, coeffs, stride);
        return;
    }
    add_tiled(out, targets, b, src, places, coeffs, stride);
}

// Whether a product goes in short tiles: two rows or more, few bytes in all, and no more than the eight rows and four columns that short tiles have room for.
fn prefers_short(rows: usize, b: usize, width: usize) -> bool
    ensures { result ≡ true → (rows ≤ 8) × (width ≤ 4) }
{
    2 <= rows && rows <= 8 && width <= 4 && b <= 512 && rows * b <= 512
}

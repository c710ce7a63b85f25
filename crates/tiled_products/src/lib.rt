// A product in tiles of 64 or 16 bytes, by the bits of the coefficients: c·x is the sum of 02^s·x over the bits s that are 1 in c. Columns go in groups of at most five. The
// sums of a group's tiles, one for each choice of them and so up to 32, are found once; then every row adds up, for each bit from the top, one sum of each group, and
// doubles what it has before the next bit. Nothing branches on a coefficient. (No struct of a product's parameters: see kernels::add_product.)
#![tactic(auto)]

mod picked;
mod rows;
mod short;
mod tables;

ghost use Rattle.std.specs.Prelude.{◌≡◌, false, ◌≤◌};
ghost use Rattle.products.specs.Blocks.{Added};
ghost use Rattle.tiles.specs.Tiling.{groups_of, size_of};

use crate::rows::add_tiles;
pub use crate::short::add_short;
use products::{add_rows, fits};
use tiles::double_tile;

// out += a product, in tiles where these pay, else row by row. Where it does not fit the slices, nothing is written. Doubling the zeros of the first tile changes nothing,
// but makes the compiler lay the table on a boundary of 16 bytes, so that one instruction loads from it and adds. Table and picks have room for seven groups, as many as
// 32 columns make.
pub fn add_tiled(
    out: &mut [u8],
    targets: &[u8],
    b: usize,
    src: &[u8],
    places: &[u8],
    coeffs: &[u8],
    stride: usize,
)
    ensures { Added b stride src.now targets.now places.now coeffs.now out.old out.new }
{
    if prefers_rows(targets.len(), b, places.len()) {
        add_rows(out, targets, b, src, places, coeffs, stride);
        return;
    }
    if !fits(
        b,
        stride,
        targets,
        places,
        src.len(),
        coeffs.len(),
        out.len(),
    ) {
        return;
    }
    let groups = groups_of(places.len());
    let size = size_of(places.len(), groups);
    let mut table = [0u8; 14336];
    double_tile(&mut table[..64usize]);
    let mut picks = [0u8; 1792];
    add_tiles::<64, 7>(
        &mut table, &mut picks, groups, size, out, targets, b, src, places, coeffs, stride,
    );
}

// How many groups n columns make: at least one, since size_of divides by it.
fn groups_of(n: usize) -> usize
    ensures { result ≡ groups_of n }
{
    if n == 0 {
        return 1;
    }
    (n - 1) / 5 + 1
}

// How many columns each group has but the last, which has those that are left.
fn size_of(n: usize, groups: usize) -> usize
    requires { (n ≤ 32) × (groups ≡ groups_of n) }
    ensures { result ≡ size_of n }
{
    (n + groups - 1) / groups
}

// Whether a product goes row by row. The tiles have room for 32 rows and 32 columns, and their tables do not pay for one row, nor
// for little work. The work is estimated: a block of b bytes times a coefficient takes about as long as b + 48 bytes of a long one.
fn prefers_rows(rows: usize, b: usize, width: usize) -> bool
    ensures { result ≡ false → (rows ≤ 32) × (width ≤ 32) }
{
    if 32 < width {
        return true;
    }
    if 32 < rows {
        return true;
    }
    if rows < 2 {
        return true;
    }
    if 128 < b {
        return false;
    }
    rows * width * (b + 48) <= 2000
}

// The picks of all rows and groups of columns.
ghost use Rattle.std.specs.Prelude.{ℕ, ◌+◌, ◌*◌, ◌≤◌, ◌<◌, length};
ghost use Rattle.products.specs.Blocks.{Rows};
ghost use Rattle.tiles.specs.Tiling.{Grouped, RowPicked, Picked};

use picks::put_picks;

// picks := those of a matrix of coefficients. The pick of group g, row i and bit 7 - s stands at place g·256 + i·8 + s.
pub(crate) fn fill_picks(
    picks: &mut [u8],
    groups: usize,
    size: usize,
    rows: usize,
    width: usize,
    coeffs: &[u8],
    stride: usize,
)
    requires grouped { Grouped width groups size }
    requires rows_bound { (rows ≤ 32) × ((g i : ℕ) → g < groups → i < rows → g * 256 + i * 8 + 8 ≤ length picks.old) }
    requires rows { Rows rows width stride (length coeffs.now) }
    ensures { Picked rows stride coeffs.now width groups size picks.old picks.new }
{
    // by a range: coeffs.chunks(stride) refuses a stride of 0, and its chunks are longer than a row where the stride exceeds the width
    for i in 0..rows {
        let row = i * stride;
        let end = row + width;
        fill_row(picks, groups, size, i, &coeffs[row..end]);
    }
}

// The picks of row i := those of its coefficients.
fn fill_row(picks: &mut [u8], groups: usize, size: usize, i: usize, coeffs: &[u8])
    requires grouped { Grouped (length coeffs.now) groups size }
    requires i_bound { (i < 32) × ((g : ℕ) → g < groups → g * 256 + i * 8 + 8 ≤ length picks.old) }
    ensures { RowPicked i size coeffs.now groups picks.old picks.new }
{
    // by a range: coeffs.chunks(size) refuses a size of 0, which no columns have
    for g in 0..groups {
        let j = g * size;
        let end = j + size.min(coeffs.len() - j);
        let at = g * 256 + i * 8;
        let stop = at + 8;
        put_picks(&mut picks[at..stop], &coeffs[j..end]);
    }
}

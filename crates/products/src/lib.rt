// A matrix of coefficients times blocks: what it is, when it fits its slices, and the product added row by row. (No struct of a product's parameters: see kernels::add_product.)
#![tactic(auto)]

ghost use Rattle.std.specs.Prelude.{◌≡◌, ◌+◌, ◌≤◌, ◌<◌, length};
ghost use Rattle.base.specs.Decided.{Decided};
ghost use Rattle.products.specs.Blocks.{Rows, Inside, Fits, Added, plus_multiple, Accumulated};

use field::times;
use words::add_words;

// A matrix of coefficients times the blocks of src at the given places: row i of the product is added to block targets[i] of out. Blocks have b bytes, and row i of
// the coefficients begins at i·stride. Where the product does not fit the slices, nothing is written.
pub fn add_rows(
    out: &mut [u8],
    targets: &[u8],
    b: usize,
    src: &[u8],
    places: &[u8],
    coeffs: &[u8],
    stride: usize,
)
    ensures { Added b stride src.now targets.now places.now coeffs.now out.old out.new }
{
    if !fits(
        b,
        stride,
        targets,
        places,
        src.len(),
        coeffs.len(),
        out.len(),
    ) {
        return;
    }
    for (i, target) in targets.iter().enumerate() {
        let at = usize::from(*target) * b;
        let end = at + b;
        let row = i * stride;
        let stop = row + places.len();
        accumulate(&mut out[at..end], src, places, &coeffs[row..stop]);
    }
}

// dst += the sum of the blocks of src at the given places, each times its coefficient. Blocks are as long as dst. It goes in stretches of at most 256 bytes: that
// the multiples of a coefficient are found anew for each of them costs little then, and the room for its sum is soon cleared.
fn accumulate(dst: &mut [u8], src: &[u8], places: &[u8], coeffs: &[u8])
    requires places_in_bounds { length places.now ≤ length coeffs.now }
    requires inside { Inside (length dst.old) places.now (length src.now) }
    ensures { Accumulated (length dst.old) 0 src.now places.now coeffs.now dst.old dst.new }
{
    let b = dst.len();
    // by step_by: what goes through chunks_mut, no proof knows afterwards
    for at in (0..b).step_by(256) {
        let end = at + (b - at).min(256);
        add_stretch(&mut dst[at..end], b, at, src, places, coeffs);
    }
}

// dst, the bytes of a block from `at` on, += those of the sum: this is formed apart, and meets the block a word at a time.
fn add_stretch(dst: &mut [u8], b: usize, at: usize, src: &[u8], places: &[u8], coeffs: &[u8])
    requires places_in_bounds { length places.now ≤ length coeffs.now }
    requires inside { Inside b places.now (length src.now) }
    requires dst_bound { (at + length dst.old ≤ b) × (length dst.old ≤ 256) }
    ensures { Accumulated b at src.now places.now coeffs.now dst.old dst.new }
{
    let w = dst.len();
    let mut sum = [0u8; 256];
    add_columns(&mut sum[..w], b, at, src, places, coeffs);
    add_words(dst, &sum);
}

// sum += the bytes from `at` on of each block of src at the given places, times its coefficient.
fn add_columns(sum: &mut [u8], b: usize, at: usize, src: &[u8], places: &[u8], coeffs: &[u8])
    requires places_in_bounds { length places.now ≤ length coeffs.now }
    requires inside { Inside b places.now (length src.now) }
    requires sum_bound { at + length sum.old ≤ b }
    ensures { Accumulated b at src.now places.now coeffs.now sum.old sum.new }
{
    for (place, c) in places.iter().zip(coeffs) {
        let start = usize::from(*place) * b + at;
        let end = start + sum.len();
        add_multiple(sum, &src[start..end], *c);
    }
}

// dst += c·src. By index: of what a zip of iter_mut writes, a proof knows nothing afterwards.
fn add_multiple(dst: &mut [u8], src: &[u8], c: u8)
    requires { length dst.old ≡ length src.now }
    ensures { dst.new ≡ plus_multiple dst.old c src.now }
{
    for (p, byte) in dst.iter_mut().enumerate() {
        *byte ^= times(c, src[p]);
    }
}

// Whether the product fits: each block and each row that it takes lies within its slice. No step overflows, whatever the numbers.
pub fn fits(
    b: usize,
    stride: usize,
    targets: &[u8],
    places: &[u8],
    src: usize,
    coeffs: usize,
    out: usize,
) -> bool
    ensures { Decided (Fits b stride targets.now places.now src coeffs out) result }
{
    if b == 0 {
        return false;
    }
    if !rows_fit(targets.len(), places.len(), stride, coeffs) {
        return false;
    }
    if !places_fit(b, targets, out) {
        return false;
    }
    places_fit(b, places, src)
}

// Whether each of the rows, of `width` coefficients, lies within the `coeffs` that there are.
fn rows_fit(rows: usize, width: usize, stride: usize, coeffs: usize) -> bool
    ensures { Decided (Rows rows width stride coeffs) result }
{
    if rows == 0 {
        return true;
    }
    if coeffs < width {
        return false;
    }
    if stride == 0 {
        return true;
    }
    rows - 1 <= (coeffs - width) / stride
}

// Whether each place names a block that a slice of `src` bytes has.
fn places_fit(b: usize, places: &[u8], src: usize) -> bool
    requires { 0 < b }
    ensures { Decided (Inside b places.now src) result }
{
    let count = src / b;
    places.iter().all(|place| usize::from(*place) < count)
}

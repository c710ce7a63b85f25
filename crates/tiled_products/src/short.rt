// A product of few short blocks: in tiles of 16 bytes, of at most eight rows and four columns. The columns are one group, so that the table is small.
ghost use Rattle.products.specs.Blocks.{Added};

use crate::add_tiled;
use crate::rows::add_tiles;
use products::fits;

// out += a product, in such tiles if it is no larger than they have room for. Where it does not fit the slices, nothing is written.
pub fn add_short(
    out: &mut [u8],
    targets: &[u8],
    b: usize,
    src: &[u8],
    places: &[u8],
    coeffs: &[u8],
    stride: usize,
)
    ensures { Added b stride src.now targets.now places.now coeffs.now out.old out.new }
{
    if 8 < targets.len() || 4 < places.len() {
        add_tiled(out, targets, b, src, places, coeffs, stride);
        return;
    }
    if !fits(
        b,
        stride,
        targets,
        places,
        src.len(),
        coeffs.len(),
        out.len(),
    ) {
        return;
    }
    let mut table = [0u8; 256];
    let mut picks = [0u8; 64];
    add_tiles::<16, 1>(
        &mut table,
        &mut picks,
        1,
        places.len(),
        out,
        targets,
        b,
        src,
        places,
        coeffs,
        stride,
    );
}

// What is done with a tile, some bytes of a block: 64, or 16 in the short product. And the definitions and laws that the products in tiles share.
#![tactic(auto)]

ghost use Rattle.std.specs.Prelude.{◌≡◌};
ghost use Rattle.field.specs.Field.{plus};
ghost use Rattle.tiles.specs.Tiling.{multiple};

use blocks::{add_block, copy_block};
use field::double;

// x := 02·x
pub fn double_tile(x: &mut [u8])
    ensures { x.new ≡ multiple 2 x.old }
{
    for byte in x.iter_mut() {
        *byte = double(*byte);
    }
}

// dst += src; a byte that src does not have counts as 00, as in add_block. Where the two are not as long as each other, add_block is lent a copy of src of 64 bytes, so that
// with a dst of as many its loop has a constant length. More than 64 bytes are no tile, and are added as they are.
// (It stays, though its one caller lends a tile of zeros: the crate exports it, and the edits long_part_cut and ragged_tile_one_byte_short stand on it.)
pub fn add_part(dst: &mut [u8], src: &[u8])
    ensures { dst.new ≡ plus dst.old src.now }
{
    if dst.len() == src.len() {
        add_block(dst, src);
        return;
    }
    if 64 < src.len() {
        add_block(dst, src);
        return;
    }
    let mut copy = [0u8; 64];
    copy_block(&mut copy, src);
    add_block(dst, &copy);
}

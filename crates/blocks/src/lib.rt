// Adding, copying, clearing and comparing blocks, each with one narrow contract for slices of any lengths.
#![tactic(auto)]

ghost use Rattle.std.specs.Prelude.{◌≡◌, length, replicate};
ghost use Rattle.field.specs.Field.{plus};
ghost use Rattle.blocks.specs.Bytes.{over, Compared};

// dst += src. A byte that src does not have counts as 00.
pub fn add_block(dst: &mut [u8], src: &[u8])
    ensures { dst.new ≡ plus dst.old src.now }
{
    let count = dst.len().min(src.len());
    for (p, byte) in dst[..count].iter_mut().enumerate() {
        *byte ^= src[p];
    }
}

// dst := src, as far as both go.
// (A loop and no `copy_from_slice`: that may move bytes within one slice, so the C archive would need `memmove` where it needs `memcpy` and `memset` alone.)
pub fn copy_block(dst: &mut [u8], src: &[u8])
    ensures { dst.new ≡ over dst.old src.now }
{
    let size = dst.len().min(src.len());
    for (p, byte) in dst[..size].iter_mut().enumerate() {
        *byte = src[p];
    }
}

// dst := 0
// (By name, as its contract is what the callers cite; over u32 it is serials::clear_serials.)
pub fn clear(dst: &mut [u8])
    ensures { dst.new ≡ replicate (length dst.old) 0 }
{
    dst.fill(0);
}

// Whether two blocks differ, in their lengths or in a byte.
// (A name for `!=`: edits of what it means stand on it.)
pub fn differs(x: &[u8], y: &[u8]) -> bool
    ensures { Compared x.now y.now result }
{
    x != y
}

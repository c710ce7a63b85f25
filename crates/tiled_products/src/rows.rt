// A product tile by tile: each row of a tile from the tables. A tile is TILE bytes of a block.
ghost use Rattle.std.specs.Prelude.{◌≡◌, ℕ, ◌+◌, ◌*◌, ◌^◌, ◌≤◌, ◌<◌, length};
ghost use Rattle.base.specs.Seq.{tabulate};
ghost use Rattle.field.specs.Field.{plus};
ghost use Rattle.products.specs.Blocks.{Inside, Fits, Added, Spanned};
ghost use Rattle.tiles.specs.Tiling.{Grouped, by_bits, Stepped, Gathered, Reached};

use crate::picked::fill_picks;
use crate::tables::fill_groups;
use blocks::add_block;
use tiles::double_tile;
use words::add_words;

// out += the product, tile by tile, its columns in so many groups of the given size, at most MOST. Table and picks have room for them.
pub(crate) fn add_tiles<const TILE: usize, const MOST: usize>(
    table: &mut [u8],
    picks: &mut [u8],
    groups: usize,
    size: usize,
    out: &mut [u8],
    targets: &[u8],
    b: usize,
    src: &[u8],
    places: &[u8],
    coeffs: &[u8],
    stride: usize,
)
    requires fits { Fits b stride targets.now places.now (length src.now) (length coeffs.now) (length out.old) }
    requires grouped { Grouped (length places.now) groups size }
    requires bounds { (length targets.now ≤ 32) × (groups ≤ MOST) × (0 < TILE) × (TILE ≤ 64) }
    requires table_room { (g : ℕ) → g < groups → (g * 32 + 2 ^ size) * TILE ≤ length table.old }
    requires picks_room { (g : ℕ) → g < groups → g * 256 + length targets.now * 8 ≤ length picks.old }
    ensures { Added b stride src.now targets.now places.now coeffs.now out.old out.new }
{
    fill_picks(
        picks,
        groups,
        size,
        targets.len(),
        places.len(),
        coeffs,
        stride,
    );
    for at in (0..b).step_by(TILE) {
        let w = (b - at).min(TILE);
        fill_groups::<TILE>(table, groups, size, b, at, w, src, places);
        add_tile_rows::<TILE, MOST>(out, targets, b, at, w, table, groups, picks);
    }
}

// For each target, the w bytes from `at` on of its block += the bytes that its row takes from the tables.
fn add_tile_rows<const TILE: usize, const MOST: usize>(
    out: &mut [u8],
    targets: &[u8],
    b: usize,
    at: usize,
    w: usize,
    table: &[u8],
    groups: usize,
    picks: &[u8],
)
    requires inside { Inside b targets.now (length out.old) }
    requires w_bound { (at + w ≤ b) × (w ≤ TILE) × (TILE ≤ 64) }
    requires groups_bound { (groups ≤ MOST) × (length targets.now ≤ 32) }
    requires by_index { (i s : ℕ) → i < length targets.now → s < 8 → Reached TILE groups (i * 8 + s) table.now picks.now }
    ensures { Spanned b at w targets.now (λ i. by_bits TILE groups table.now picks.now i 8)
        (length targets.now) out.old out.new }
{
    for (i, target) in targets.iter().enumerate() {
        let start = usize::from(*target) * b + at;
        let end = start + w;
        add_row::<TILE, MOST>(&mut out[start..end], table, groups, picks, i);
    }
}

// dst, at most a tile, += the bytes that row i takes from the tables: for each bit from the top, the sum is doubled and the entries that the picks name are added.
fn add_row<const TILE: usize, const MOST: usize>(
    dst: &mut [u8],
    table: &[u8],
    groups: usize,
    picks: &[u8],
    i: usize,
)
    requires groups_bound { (groups ≤ MOST) × (i < 32) × (TILE ≤ 64) }
    requires by_index { (s : ℕ) → s < 8 → Reached TILE groups (i * 8 + s) table.now picks.now }
    ensures { dst.new ≡ plus dst.old (tabulate TILE (by_bits TILE groups table.now picks.now i 8)) }
{
    let mut sum = [0u8; TILE];
    for s in 0..8 {
        double_tile(&mut sum);
        add_picked::<TILE, MOST>(&mut sum, table, groups, picks, i * 8 + s);
    }
    add_sum::<TILE>(dst, &sum);
}

// dst += a row's sum, eight bytes at a time (request 2026-02 of document 02: a difference meets its block by words, never by add_block). Both arms do the same, but in the
// first, that of a whole tile, the number of words is a constant, so that the compiler makes vectors of them.
fn add_sum<const TILE: usize>(dst: &mut [u8], sum: &[u8])
    requires { length sum.now ≡ TILE }
    ensures { dst.new ≡ plus dst.old sum.now }
{
    if dst.len() == TILE {
        add_words(&mut dst[..TILE], &sum[..TILE]);
        return;
    }
    add_words(dst, sum);
}

// sum += the entry of each group that its pick at place q names. There are at most MOST groups; a constant bound lets the compiler unroll the loop.
fn add_picked<const TILE: usize, const MOST: usize>(
    sum: &mut [u8],
    table: &[u8],
    groups: usize,
    picks: &[u8],
    q: usize,
)
    requires sum_len { (length sum.old ≡ TILE) × (groups ≤ MOST) }
    requires reached { Reached TILE groups q table.now picks.now }
    ensures { Gathered TILE groups table.now picks.now q sum.old sum.new }
{
    for g in 0..MOST {
        add_entry::<TILE>(sum, table, groups, picks, g, q);
    }
}

// sum += the entry of group g that its pick at place q names, if there is that group.
fn add_entry<const TILE: usize>(
    sum: &mut [u8],
    table: &[u8],
    groups: usize,
    picks: &[u8],
    g: usize,
    q: usize,
)
    requires sum_len { length sum.old ≡ TILE }
    requires reached { Reached TILE groups q table.now picks.now }
    ensures { Stepped TILE groups table.now picks.now g q sum.old sum.new }
{
    if groups <= g {
        return;
    }
    let n = g * 32 + usize::from(picks[g * 256 + q]);
    let at = n * TILE;
    let end = at + TILE;
    add_block(sum, &table[at..end]);
}

// The tables of the groups of columns: for every choice of a group's columns, the sum of their tiles. A tile is TILE bytes of a block.
ghost use Rattle.std.specs.Prelude.{◌≡◌, ℕ, ◌+◌, ◌*◌, ◌^◌, ◌≤◌, ◌<◌, length};
ghost use Rattle.base.specs.Parts.{part_of, put_block};
ghost use Rattle.field.specs.Field.{plus};
ghost use Rattle.products.specs.Blocks.{Inside};
ghost use Rattle.tiles.specs.Tiling.{Grouped, tile_at, Raised, Chosen, Tabled};

use blocks::{add_block, clear, copy_block};
use tiles::add_part;

// The table of each group := the sums of the w bytes from `at` on of the blocks at its places. That of group g begins with entry 32·g.
pub(crate) fn fill_groups<const TILE: usize>(
    table: &mut [u8],
    groups: usize,
    size: usize,
    b: usize,
    at: usize,
    w: usize,
    src: &[u8],
    places: &[u8],
)
    requires inside { Inside b places.now (length src.now) }
    requires w_bound { (at + w ≤ b) × (w ≤ TILE) × (TILE ≤ 64) }
    requires grouped { Grouped (length places.now) groups size }
    requires room { (g : ℕ) → g < groups → (g * 32 + 2 ^ size) * TILE ≤ length table.old }
    ensures { Tabled TILE b at w size src.now places.now groups table.old table.new }
{
    let last = table.len();
    // by a range: after chunks_mut no proof knows an entry, and places.chunks(size) refuses a size of 0, which no columns have
    for g in 0..groups {
        let j = g * size;
        let end = j + size.min(places.len() - j);
        let first = g * (32 * TILE);
        fill_group::<TILE>(&mut table[first..last], b, at, w, src, &places[j..end]);
    }
}

// Entry n of a group's table := the sum of the columns that the bits of n name; the lowest bit names the last column. A column is the w bytes from `at` on of a block.
fn fill_group<const TILE: usize>(
    table: &mut [u8],
    b: usize,
    at: usize,
    w: usize,
    src: &[u8],
    places: &[u8],
)
    requires inside { Inside b places.now (length src.now) }
    requires w_bound { (at + w ≤ b) × (w ≤ TILE) × (TILE ≤ 64) }
    requires room { (length places.now ≤ 5) × (2 ^ length places.now * TILE ≤ length table.old) }
    ensures { Chosen TILE w (length places.now) (tile_at b at src.now places.now) table.old table.new }
{
    clear(&mut table[0..TILE]);
    let mut half = 1;
    // by a range and not places.iter().rev(): the invariant needs the index, and a reversed iterator has only what it gave
    for t in (0..places.len()).rev() {
        let start = usize::from(places[t]) * b + at;
        let end = start + w;
        add_column::<TILE>(table, half, &src[start..end]);
        half *= 2;
    }
}

// Entry half + m, for each m below half, := entry m plus the column. A byte that the column does not have counts as 00; a column of a whole tile needs no copy.
fn add_column<const TILE: usize>(table: &mut [u8], half: usize, part: &[u8])
    requires half_bound { (half ≤ 16) × ((half + half) * TILE ≤ length table.old) }
    requires part_bound { (length part.now ≤ TILE) × (TILE ≤ 64) }
    ensures { Raised TILE half half part.now table.old table.new }
{
    if part.len() == TILE {
        raise::<TILE>(table, half, part);
        return;
    }
    let mut tile = [0u8; TILE];
    add_part(&mut tile, part);
    raise::<TILE>(table, half, &tile);
}

// The same where the column is a whole tile.
fn raise<const TILE: usize>(table: &mut [u8], half: usize, tile: &[u8])
    requires half_bound { (half ≤ 16) × ((half + half) * TILE ≤ length table.old) }
    requires tile_bound { (length tile.now ≡ TILE) × (TILE ≤ 64) }
    ensures { Raised TILE half half tile.now table.old table.new }
{
    for m in 0..half {
        set_sum::<TILE>(table, half + m, m, tile);
    }
}

// Entry n := entry m + tile.
fn set_sum<const TILE: usize>(table: &mut [u8], n: usize, m: usize, tile: &[u8])
    requires n_in_bounds { (n * TILE + TILE ≤ length table.old) × (m * TILE + TILE ≤ length table.old) }
    requires tile_len { (length tile.now ≡ TILE) × (TILE ≤ 64) }
    ensures { table.new ≡ put_block TILE n table.old (plus (part_of TILE m table.old) tile.now) }
{
    let from = m * TILE;
    let end = from + TILE;
    let mut sum = [0u8; TILE];
    copy_block(&mut sum, &table[from..end]);
    add_block(&mut sum, tile);
    let at = n * TILE;
    let stop = at + TILE;
    copy_block(&mut table[at..stop], &sum);
}

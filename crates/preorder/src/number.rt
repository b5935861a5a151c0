// The numbering, in one pass over the junctions for each step: chains by depth, blocks from the deepest up, spots from the roots down.
ghost use Rattle.std.specs.Prelude.{◌≡◌, ◌+◌, ◌≤◌, ◌<◌, length};
ghost use Rattle.tables.specs.working.Layout.{order_from, table_places, StaysBelow};
ghost use Rattle.network.specs.NetworkFile.{junctions_of};
ghost use Rattle.forest.specs.Forest.{depth_of};
ghost use Rattle.forest.specs.working.Fits.{ParentsFit, DepthsFilled};
ghost use Rattle.preorder.specs.working.Numbered.{Numbered};
ghost use Rattle.preorder.specs.working.Levels.{LevelsFrom, Levels};
ghost use Rattle.preorder.specs.working.Blocks.{Merged, AllMerged, OffsetsSmall, Placed, Spread, Listed, CopiedBelow};

use forest::parents::{NO_PARENT, parent_at};
use network::header::junctions_of;
use tables::{ORDER, SIZES, SPOTS};

// Chains the junctions by depth, from the last to the first, so that each depth has its junctions in order; each is a block of its own.
fn chain_levels(
    labels: &[u8],
    depths: &[u32; 1024],
    heads: &mut [u32; 1024],
    nexts: &mut [u32; 1024],
    sizes: &mut [u32; 1024],
)
    requires parents_fit { ParentsFit labels.now }
    requires depths_filled { DepthsFilled labels.now depths.now }
    requires levels_from { LevelsFrom labels.now heads.old nexts.old sizes.old (junctions_of labels.now) }
    ensures { LevelsFrom labels.now heads.new nexts.new sizes.new 0 }
{
    for v in (0..junctions_of(labels) as usize).rev() {
        let depth = depths[v] as usize;
        nexts[v] = heads[depth];
        heads[depth] = v as u32;
        sizes[v] = 1;
    }
}

// Puts the block of v behind what its parent's block has so far, a root's behind the roots before it. Returns what the roots fill.
fn merge(
    labels: &[u8],
    v: usize,
    total: u32,
    sizes: &mut [u32; 1024],
    offsets: &mut [u32; 1024],
) -> u32
    requires parents_fit { ParentsFit labels.now × (v < junctions_of labels.now) }
    requires merged { Merged labels.now sizes.old offsets.old total (depth_of labels.now v) v }
    ensures { Merged labels.now sizes.new offsets.new result (depth_of labels.now v) (v + 1) }
{
    let parent = parent_at(labels, v);
    let size = sizes[v];
    if parent == NO_PARENT {
        offsets[v] = total;
        return total + size;
    }
    let above = parent as usize;
    let room = sizes[above];
    offsets[v] = room;
    sizes[above] = room + size;
    total
}

// Merges the junctions of one level.
fn merge_level(
    labels: &[u8],
    level: usize,
    heads: &[u32; 1024],
    nexts: &[u32; 1024],
    total: u32,
    sizes: &mut [u32; 1024],
    offsets: &mut [u32; 1024],
) -> u32
    requires parents_fit { ParentsFit labels.now × (level < junctions_of labels.now) }
    requires levels { Levels labels.now heads.now nexts.now }
    requires merged { Merged labels.now sizes.old offsets.old total (level + 1) 1024 }
    ensures { Merged labels.now sizes.new offsets.new result level 1024 }
{
    let n = junctions_of(labels) as usize;
    let mut filled = total;
    let mut v = heads[level] as usize;
    // A chain: each junction leads to the next of its level.
    while v < n {
        filled = merge(labels, v, filled, sizes, offsets);
        v = nexts[v] as usize;
    }
    filled
}

// Merges every junction, from the deepest level up, so that a block is whole before it is put into another.
fn merge_all(
    labels: &[u8],
    heads: &[u32; 1024],
    nexts: &[u32; 1024],
    sizes: &mut [u32; 1024],
    offsets: &mut [u32; 1024],
)
    requires parents_fit { ParentsFit labels.now }
    requires levels { Levels labels.now heads.now nexts.now }
    requires merged { Merged labels.now sizes.old offsets.old 0 (junctions_of labels.now) 1024 }
    ensures { AllMerged labels.now sizes.new offsets.new }
{
    let mut total = 0;
    for level in (0..junctions_of(labels) as usize).rev() {
        total = merge_level(labels, level, heads, nexts, total, sizes, offsets);
    }
}

// The spot of v: its offset behind its parent's, a root's offset itself.
fn place(labels: &[u8], v: usize, offsets: &[u32; 1024], spots: &mut [u32; 1024])
    requires parents_fit { ParentsFit labels.now × (v < junctions_of labels.now) × OffsetsSmall labels.now offsets.now }
    requires placed { Placed labels.now offsets.now spots.old (depth_of labels.now v) v }
    ensures { Placed labels.now offsets.now spots.new (depth_of labels.now v) (v + 1) }
{
    let parent = parent_at(labels, v);
    if parent == NO_PARENT {
        spots[v] = offsets[v];
        return;
    }
    let above = parent as usize;
    spots[v] = spots[above] + offsets[v];
}

// Places the junctions of one level.
fn place_level(
    labels: &[u8],
    level: usize,
    heads: &[u32; 1024],
    nexts: &[u32; 1024],
    offsets: &[u32; 1024],
    spots: &mut [u32; 1024],
)
    requires parents_fit { ParentsFit labels.now × (level < junctions_of labels.now) × OffsetsSmall labels.now offsets.now }
    requires levels { Levels labels.now heads.now nexts.now }
    requires placed { Placed labels.now offsets.now spots.old level 0 }
    ensures { Placed labels.now offsets.now spots.new (level + 1) 0 }
{
    let n = junctions_of(labels) as usize;
    let mut v = heads[level] as usize;
    // A chain: each junction leads to the next of its level.
    while v < n {
        place(labels, v, offsets, spots);
        v = nexts[v] as usize;
    }
}

// Places every junction, from the roots down, so that a parent's spot is known before its children's.
fn place_all(
    labels: &[u8],
    heads: &[u32; 1024],
    nexts: &[u32; 1024],
    offsets: &[u32; 1024],
    spots: &mut [u32; 1024],
)
    requires parents_fit { ParentsFit labels.now × OffsetsSmall labels.now offsets.now }
    requires levels { Levels labels.now heads.now nexts.now }
    requires spots_len { length spots.old ≡ 1024 }
    ensures { Placed labels.now offsets.now spots.new (junctions_of labels.now) 0 }
{
    for level in 0..junctions_of(labels) as usize {
        place_level(labels, level, heads, nexts, offsets, spots);
    }
}

// Lists the junctions by their spots.
fn list_order(n: usize, spots: &[u32; 1024], order: &mut [u32; 1024])
    requires { Spread n spots.now × (length spots.now ≡ 1024) × (length order.old ≡ 1024) }
    ensures { Listed spots.now order.new n }
{
    for v in 0..n {
        order[spots[v] as usize] = v as u32;
    }
}

// Copies what is known of the first n junctions and spots to the lent table.
fn copy_numbering(
    n: usize,
    order: &[u32; 1024],
    spots: &[u32; 1024],
    sizes: &[u32; 1024],
    tables: &mut [u32; 13312],
)
    requires n_bound { (n ≤ 1024) × (length tables.old ≡ table_places) }
    requires order_len { (length order.now ≡ 1024) × (length spots.now ≡ 1024) × (length sizes.now ≡ 1024) }
    ensures { CopiedBelow order.now spots.now sizes.now tables.old tables.new n }
{
    tables[ORDER..ORDER + n].copy_from_slice(&order[..n]);
    tables[SPOTS..SPOTS + n].copy_from_slice(&spots[..n]);
    tables[SIZES..SIZES + n].copy_from_slice(&sizes[..n]);
}

// The numbering of all junctions, into the lent table.
pub fn number(labels: &[u8], depths: &[u32; 1024], tables: &mut [u32; 13312])
    requires parents_fit { ParentsFit labels.now }
    requires depths_filled { DepthsFilled labels.now depths.now }
    requires tables_len { length tables.old ≡ table_places }
    ensures { Numbered labels.now tables.new × StaysBelow order_from tables.old tables.new }
{
    // 1024 stands for no junction, so that a chain takes no more room than its numbers.
    let mut heads: [u32; 1024] = [1024; 1024];
    let mut nexts: [u32; 1024] = [0; 1024];
    let mut offsets: [u32; 1024] = [0; 1024];
    let mut order: [u32; 1024] = [0; 1024];
    let mut spots: [u32; 1024] = [0; 1024];
    let mut sizes: [u32; 1024] = [0; 1024];
    let n = junctions_of(labels) as usize;
    chain_levels(labels, depths, &mut heads, &mut nexts, &mut sizes);
    merge_all(labels, &heads, &nexts, &mut sizes, &mut offsets);
    place_all(labels, &heads, &nexts, &offsets, &mut spots);
    list_order(n, &spots, &mut order);
    copy_numbering(n, &order, &spots, &sizes, tables);
}

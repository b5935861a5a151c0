// Where one of two junctions stands above the other: the numbering tells whether it does, and the other's list for it is found without
// reading a parent.
ghost use Rattle.std.specs.Prelude.{◌≡◌, ◌≤◌, ◌<◌, length};
ghost use Rattle.refusals.specs.working.Decides.{Decides};
ghost use Rattle.tables.specs.working.Layout.{table_places};
ghost use Rattle.network.specs.NetworkFile.{junctions_of};
ghost use Rattle.forest.specs.Forest.{depth_of};
ghost use Rattle.forest.specs.working.Fits.{DepthsFilled};
ghost use Rattle.stored.specs.working.Formed.{Formed, StartsFilled};
ghost use Rattle.stored.specs.working.Scanned.{FoundList};
ghost use Rattle.query.specs.working.Blocks.{InBlock};

use crate::passing::pass_lists;
use stored::place::number_of;
use tables::{SIZES, SPOTS, STARTS, entry_at};

// Whether v stands in the block of u.
pub fn in_block(tables: &[u32; 13312], u: usize, v: usize) -> bool
    requires tables_len { length tables.now ≡ table_places }
    requires u_bound { (u < 1024) × (v < 1024) }
    ensures { Decides (InBlock tables.now u v) result }
{
    let start = entry_at(tables, SPOTS + u);
    let spot = entry_at(tables, SPOTS + v);
    start <= spot && spot - start < entry_at(tables, SIZES + u)
}

// The byte of v's list for u, which stands above it: as many lists behind v's first as there are junctions between.
pub fn list_above(
    labels: &[u8],
    depths: &[u32; 1024],
    tables: &[u32; 13312],
    v: usize,
    u: usize,
) -> usize
    requires formed { Formed labels.now }
    requires depths_filled { DepthsFilled labels.now depths.now }
    requires starts_filled { StartsFilled labels.now tables.now }
    requires v_bound { (v < junctions_of labels.now) × (u < junctions_of labels.now) }
    requires u_bound { depth_of labels.now u < depth_of labels.now v }
    ensures { FoundList labels.now v u result }
{
    let between = number_of(depths, v) - number_of(depths, u) - 1;
    let start = entry_at(tables, STARTS + v);
    pass_lists(labels, start, between)
}

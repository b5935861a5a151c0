// Where the lists of two junctions for their common ancestors stand: both climb to where they meet, each list place with its ancestor.
ghost use Rattle.std.specs.Prelude.{◌≡◌, ◌+◌, ◌-◌, ◌*◌, ◌≤◌, ◌<◌, length};
ghost use Rattle.network.specs.NetworkFile.{junctions_of};
ghost use Rattle.forest.specs.Forest.{depth_of};
ghost use Rattle.forest.specs.working.Fits.{DepthsFilled};
ghost use Rattle.preorder.specs.working.Numbered.{Numbered};
ghost use Rattle.stored.specs.ListForm.{most_bytes};
ghost use Rattle.stored.specs.working.Formed.{Formed, StartsFilled};
ghost use Rattle.query.specs.working.Between.{Climbs, Steps, Abreast, Leads};

use crate::Between;
use crate::above::{in_block, list_above};
use forest::parents::parent_at;
use stored::place::Place;
use tables::{STARTS, entry_at};

// The climb of a junction: an ancestor of it, at first the junction itself, and the byte of its list for that one's parent.
#[derive(Clone, Copy)]
pub struct Climb {
    pub from: usize,
    pub up: usize,
    pub at: usize,
}

// To the parent, and to the list behind.
fn step(labels: &[u8], below: Climb) -> Climb
    requires up_in_bounds { (18 + 2 * below.up ≤ length labels.now) × (below.at + 2 ≤ length labels.now) }
    requires labels_len_bound { length labels.now ≤ most_bytes }
    ensures { Steps labels.now below result }
{
    Climb {
        from: below.from,
        up: parent_at(labels, below.up) as usize,
        at: Place { at: below.at }.next(labels).at,
    }
}

// The climb of v, so many steps up.
fn climb_of(labels: &[u8], tables: &[u32; 13312], v: usize, steps: u32) -> Climb
    requires formed { Formed labels.now × StartsFilled labels.now tables.now }
    requires v_bound { (v < junctions_of labels.now) × (steps ≤ depth_of labels.now v) }
    ensures { Climbs labels.now v (depth_of labels.now v - steps) result }
{
    let mut here = Climb {
        from: v,
        up: v,
        at: entry_at(tables, STARTS + v),
    };
    for _ in 0..steps {
        here = step(labels, here);
    }
    here
}

// Two climbs side by side, until their parents are one.
fn meet(labels: &[u8], depth: u32, near: Climb, far: Climb) -> Between
    requires formed { Formed labels.now }
    requires abreast { Abreast labels.now near.from far.from depth near far }
    ensures { Leads labels.now near.from far.from result }
{
    let mut left = near;
    let mut right = far;
    for level in (0..depth).rev() {
        let above_left = step(labels, left);
        let above_right = step(labels, right);
        if above_left.up == above_right.up {
            return Between::Lists {
                near: left.at,
                far: right.at,
                levels: level + 1,
                meeting: above_left.up,
            };
        }
        left = above_left;
        right = above_right;
    }
    Between::Nothing
}

// The lists that tell of the paths between x and y, two junctions. The higher may stand above the other, which its block tells; if not,
// the deeper climbs to the other's depth, and both climb on from there.
pub fn between(
    labels: &[u8],
    depths: &[u32; 1024],
    tables: &[u32; 13312],
    x: usize,
    y: usize,
) -> Between
    requires formed { Formed labels.now × DepthsFilled labels.now depths.now × StartsFilled labels.now tables.now }
    requires numbered { Numbered labels.now tables.now }
    requires x_bound { (x < junctions_of labels.now) × (y < junctions_of labels.now) × (x ≡ y → ⊥) }
    ensures { Leads labels.now x y result }
{
    let depth_x = depths[x];
    let depth_y = depths[y];
    if depth_y < depth_x {
        if in_block(tables, y, x) {
            return Between::List(list_above(labels, depths, tables, x, y));
        }
        let near = climb_of(labels, tables, x, depth_x - depth_y);
        return meet(labels, depth_y, near, climb_of(labels, tables, y, 0));
    }
    if in_block(tables, x, y) {
        return Between::List(list_above(labels, depths, tables, y, x));
    }
    let near = climb_of(labels, tables, x, 0);
    meet(
        labels,
        depth_x,
        near,
        climb_of(labels, tables, y, depth_y - depth_x),
    )
}

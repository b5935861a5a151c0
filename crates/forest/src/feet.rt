// The foot of a junction: one below it, or itself, that has no child. Two junctions above one foot are related, and no climb is needed to see it.
ghost use Rattle.std.specs.Prelude.{◌≡◌, true, ◌<◌};
ghost use Rattle.network.specs.NetworkFile.{junctions_of};
ghost use Rattle.forest.specs.Forest.{is_ancestor};
ghost use Rattle.forest.specs.working.Fits.{ParentsFit, DepthsFilled};
ghost use Rattle.forest.specs.working.ParentsRead.{FeetRight, OneFoot};

use crate::parents::{parent_at, parent_of};
use network::header::junctions_of;

// Which junctions have a child.
fn parents_noted(labels: &[u8]) -> [bool; 1024]
    requires parents_fit { ParentsFit labels.now }
{
    let mut has_child = [false; 1024];
    for v in 0..junctions_of(labels) as usize {
        if let Some(parent) = parent_of(labels, v) {
            has_child[parent] = true;
        }
    }
    has_child
}

// Makes v the foot of itself and of the junctions above it, up to the first that has one.
fn walk_up(labels: &[u8], feet: &mut [Option<u16>; 1024], v: usize)
    requires parents_fit { ParentsFit labels.now }
    requires feet_right { FeetRight labels.now feet.old }
    requires v_bound { v < junctions_of labels.now }
    ensures { FeetRight labels.now feet.new }
{
    let mut u = v;
    // A chain: each junction leads to its parent.
    while feet[u].is_none() {
        feet[u] = Some(v as u16);
        let Some(parent) = parent_of(labels, u) else {
            return;
        };
        u = parent;
    }
}

// Fills in the feet.
pub fn fill_feet(labels: &[u8], feet: &mut [Option<u16>; 1024])
    requires parents_fit { ParentsFit labels.now }
    requires feet_right { FeetRight labels.now feet.old }
    ensures { FeetRight labels.now feet.new }
{
    let has_child = parents_noted(labels);
    for v in 0..junctions_of(labels) as usize {
        if !has_child[v] {
            walk_up(labels, feet, v);
        }
    }
}

// Whether u and v have one foot.
fn one_foot(feet: &[Option<u16>; 1024], u: usize, v: usize) -> bool
    requires { (u < 1024) × (v < 1024) }
    ensures { result ≡ true → OneFoot feet.now u v }
{
    feet[u].is_some() && feet[u] == feet[v]
}

// Whether u is v or an ancestor of v. The climb from v is over where it meets a junction that has its foot in common with u.
pub fn is_above(
    labels: &[u8],
    depths: &[u32; 1024],
    feet: &[Option<u16>; 1024],
    u: usize,
    v: usize,
) -> bool
    requires parents_fit { ParentsFit labels.now }
    requires depths_filled { DepthsFilled labels.now depths.now }
    requires feet_right { FeetRight labels.now feet.now }
    requires u_bound { u < junctions_of labels.now }
    requires v_bound { v < junctions_of labels.now }
    ensures { result ≡ is_ancestor labels.now u v }
{
    let mut w = v;
    // A chain: each junction leads to its parent.
    while depths[u] < depths[w] {
        if one_foot(feet, u, w) {
            return true;
        }
        w = parent_at(labels, w) as usize;
    }
    w == u
}

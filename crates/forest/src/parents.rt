// The parents of the label file: depths, ancestors, and what 15 and 16 ask of them.
ghost use Rattle.std.specs.Prelude.{◌≡◌, ◌≤◌, ◌<◌, length, MatchOption};
ghost use Rattle.std.proofs.Math.Option.{none, some};
ghost use Rattle.refusals.specs.Order.{every};
ghost use Rattle.file_bytes.specs.working.Reads.{Read16};
ghost use Rattle.network.specs.NetworkFile.{header_bytes, junctions_of, roads_of};
ghost use Rattle.forest.specs.LabelFile.{entries_of, parent_at, parent_end, lists_from, parents_of};
ghost use Rattle.forest.specs.Forest.{depth_of, parent_fits, is_ancestor, road_joins};
ghost use Rattle.forest.specs.working.Fits.{ParentsFit, DepthsFilled};
ghost use Rattle.network.specs.working.Fits.{NetworkFits};
ghost use Rattle.forest.specs.working.ParentsRead.{ParentsStand, Climbable, DepthsKnown, DepthFound, DepthsWritten, DepthSettled, ParentsTested, AncestorRead, FeetRight};

use crate::feet::{fill_feet, is_above};
use file_bytes::{u16_at, u32_at};
use network::header::{HEADER_BYTES, junctions_of, roads_of};
use network::roads::{road_high, road_low};

// What stands in a file for the parent of a root; `parent_of` reads it as none.
pub const NO_PARENT: u32 = 65535;

const PARENT_BYTES: usize = 2;

pub fn parent_at(labels: &[u8], v: usize) -> u32
    requires { parent_end v ≤ length labels.now }
    ensures { Read16 (parent_at labels.now v) result }
{
    u16_at(labels, HEADER_BYTES + PARENT_BYTES * v)
}

// The parent of v, None for a root.
#[tactic(auto, unfolding(crate::specs::LabelFile::parents_of))]
pub fn parent_of(labels: &[u8], v: usize) -> Option<usize>
    requires parents_inside { lists_from labels.now ≤ length labels.now }
    requires v_bound { v < junctions_of labels.now }
    ensures { MatchOption result (parents_of labels.now v ≡ none) (λ parent. parents_of labels.now v ≡ some parent) }
{
    match parent_at(labels, v) {
        NO_PARENT => None,
        parent => Some(parent as usize),
    }
}

// E, the count of all entries.
pub fn entries_of(labels: &[u8]) -> u32
    requires { header_bytes ≤ length labels.now }
    ensures { result ≡ entries_of labels.now }
{
    u32_at(labels, 8)
}

// The byte behind the parents, where the first list starts.
pub fn lists_from(labels: &[u8]) -> usize
    requires { header_bytes ≤ length labels.now }
    ensures { result ≡ lists_from labels.now }
{
    HEADER_BYTES + PARENT_BYTES * junctions_of(labels) as usize
}

#[tactic(auto, unfolding(crate::specs::Forest::parent_fits))]
fn parent_fits(labels: &[u8], n: u32, v: usize) -> bool
    requires n_value { n ≡ junctions_of labels.now }
    requires v_in_bounds { parent_end v ≤ length labels.now }
    ensures { result ≡ parent_fits labels.now v }
{
    let parent = parent_at(labels, v);
    parent < n || parent == NO_PARENT
}

// Whether each parent is a junction or none.
fn parents_fit(labels: &[u8], n: u32) -> bool
    requires parents_stand { ParentsStand labels.now }
    requires n_value { n ≡ junctions_of labels.now }
    ensures { result ≡ every (parent_fits labels.now) (junctions_of labels.now) }
{
    for v in 0..n as usize {
        if !parent_fits(labels, n, v) {
            return false;
        }
    }
    true
}

// The depth of v, by the steps to a root or to a junction whose depth is known; None where its chain returns: n steps have met a junction twice.
fn steps_up(labels: &[u8], depths: &[u32; 1024], n: u32, v: usize) -> Option<u32>
    requires climbable { Climbable labels.now n v }
    requires depths_known { DepthsKnown labels.now depths.now }
    ensures { DepthFound labels.now v result }
{
    let mut u = v;
    for steps in 0..n {
        if depths[u] < n {
            // It is below n; the test is where the proof has that from.
            let depth = steps + depths[u];
            return (depth < n).then_some(depth);
        }
        let Some(parent) = parent_of(labels, u) else {
            return Some(steps);
        };
        u = parent;
    }
    None
}

// Writes the depths of v and of its ancestors, up to the first that is known.
fn write_depths(labels: &[u8], depths: &mut [u32; 1024], n: u32, v: usize, depth: u32)
    requires climbable { Climbable labels.now n v }
    requires depths_known { DepthsKnown labels.now depths.old }
    requires depth_value { (depth ≡ depth_of labels.now v) × (depth < n) }
    ensures { DepthsWritten labels.now v depths.old depths.new }
{
    depths[v] = depth;
    let mut u = v;
    for left in (0..depth).rev() {
        u = parent_at(labels, u) as usize;
        if depths[u] < n {
            return;
        }
        depths[u] = left;
    }
}

// Whether the chain of v ends. If it does, the depth of v is known.
fn settle(labels: &[u8], depths: &mut [u32; 1024], n: u32, v: usize) -> bool
    requires climbable { Climbable labels.now n v }
    requires depths_known { DepthsKnown labels.now depths.old }
    ensures { DepthSettled labels.now v depths.old depths.new result }
{
    if depths[v] < n {
        return true;
    }
    let Some(depth) = steps_up(labels, depths, n, v) else {
        return false;
    };
    write_depths(labels, depths, n, v, depth);
    true
}

// Whether the parents keep the rules of 15. If they do, the depths of all junctions are filled. Each junction is climbed past at most twice.
pub fn fill_depths(labels: &[u8], depths: &mut [u32; 1024]) -> bool
    requires parents_stand { ParentsStand labels.now }
    requires depths_len { length depths.old ≡ 1024 }
    ensures { ParentsTested labels.now depths.new result }
{
    let n = junctions_of(labels);
    if !parents_fit(labels, n) {
        return false;
    }
    // No depth is known yet: n, which no depth reaches, stands for that in the caller's table of numbers.
    depths[..n as usize].fill(n);
    for v in 0..n as usize {
        if !settle(labels, depths, n, v) {
            return false;
        }
    }
    true
}

// The k-th ancestor of v.
pub fn ancestor_of(labels: &[u8], v: usize, k: usize) -> usize
    requires parents_fit { ParentsFit labels.now }
    requires v_bound { v < junctions_of labels.now }
    requires k_bound { k ≤ depth_of labels.now v }
    ensures { AncestorRead labels.now v k result }
{
    let mut u = v;
    for _ in 0..k {
        u = parent_at(labels, u) as usize;
    }
    u
}

// Whether u is v or an ancestor of v.
#[tactic(auto, unfolding(crate::specs::Forest::is_ancestor))]
pub fn is_ancestor(labels: &[u8], depths: &[u32; 1024], u: usize, v: usize) -> bool
    requires parents_fit { ParentsFit labels.now }
    requires depths_filled { DepthsFilled labels.now depths.now }
    requires u_bound { u < junctions_of labels.now }
    requires v_bound { v < junctions_of labels.now }
    ensures { result ≡ is_ancestor labels.now u v }
{
    depths[u] <= depths[v] && ancestor_of(labels, v, (depths[v] - depths[u]) as usize) == u
}

#[tactic(auto, unfolding(crate::specs::Forest::road_joins))]
fn road_joins(
    net: &[u8],
    labels: &[u8],
    depths: &[u32; 1024],
    feet: &[Option<u16>; 1024],
    k: usize,
) -> bool
    requires network_fits { NetworkFits net.now }
    requires net_value { junctions_of net.now ≡ junctions_of labels.now }
    requires parents_fit { ParentsFit labels.now }
    requires depths_filled { DepthsFilled labels.now depths.now }
    requires feet_right { FeetRight labels.now feet.now }
    requires k_bound { k < roads_of net.now }
    ensures { result ≡ road_joins net.now labels.now k }
{
    let low = road_low(net, k);
    let high = road_high(net, k);
    is_above(labels, depths, feet, low, high) || is_above(labels, depths, feet, high, low)
}

// Whether every road joins an ancestor and a descendant, as 16 asks.
pub fn roads_join(net: &[u8], labels: &[u8], depths: &[u32; 1024]) -> bool
    requires network_fits { NetworkFits net.now }
    requires net_value { junctions_of net.now ≡ junctions_of labels.now }
    requires parents_fit { ParentsFit labels.now }
    requires depths_filled { DepthsFilled labels.now depths.now }
    ensures { result ≡ every (road_joins net.now labels.now) (roads_of net.now) }
{
    let mut feet = [None; 1024];
    fill_feet(labels, &mut feet);
    for k in 0..roads_of(net) as usize {
        if !road_joins(net, labels, depths, &feet, k) {
            return false;
        }
    }
    true
}

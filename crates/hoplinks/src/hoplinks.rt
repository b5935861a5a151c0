// The hoplinks of a junction: itself and each proper ancestor that has a road to it or below it.
ghost use Rattle.std.specs.Prelude.{◌≡◌, ◌<◌, length};
ghost use Rattle.network.specs.NetworkFile.{junctions_of, roads_of};
ghost use Rattle.forest.specs.working.Fits.{ParentsFit, DepthsFilled};
ghost use Rattle.stored.specs.working.Formed.{FilesFit};
ghost use Rattle.hoplinks.specs.working.Meeting.{HopMarks};
ghost use Rattle.hoplinks.specs.working.Marking.{OneMark, OnBranch, CrossingDepth, RoadMark};

use forest::parents::is_ancestor;
use network::header::roads_of;
use network::roads::{road_high, road_low};

// Of the places up to `own`, marks the last alone.
fn mark_itself(own: usize, marks: &mut [u8; 1024])
    requires { (own < 1024) × (length marks.old ≡ 1024) }
    ensures { OneMark marks.new own }
{
    marks[..own].fill(0);
    marks[own] = 1;
}

// The depth of `upper` where a road from it to `lower` makes it a hoplink of l, else the depth of l. Depths are compared before any climb.
fn crossing_depth(labels: &[u8], depths: &[u32; 1024], l: usize, upper: usize, lower: usize) -> u32
    requires { ParentsFit labels.now × DepthsFilled labels.now depths.now × (l < junctions_of labels.now) × OnBranch labels.now upper lower }
    ensures { CrossingDepth labels.now l upper lower result }
{
    let own = depths[l];
    let above = depths[upper];
    if own <= above {
        return own;
    }
    // Most roads end here; told apart from the last test, which then chooses between two numbers without a branch.
    if depths[lower] < own {
        return own;
    }
    if is_ancestor(labels, depths, l, lower) {
        above
    } else {
        own
    }
}

// The depth that road k marks: of the hoplink above l that it joins to l or below, or else of l.
fn road_mark(net: &[u8], labels: &[u8], depths: &[u32; 1024], l: usize, k: usize) -> u32
    requires { FilesFit net.now labels.now × DepthsFilled labels.now depths.now × (l < junctions_of labels.now) × (k < roads_of net.now) }
    ensures { RoadMark net.now labels.now l k result }
{
    let low = road_low(net, k);
    let high = road_high(net, k);
    if depths[low] < depths[high] {
        crossing_depth(labels, depths, l, low, high)
    } else {
        crossing_depth(labels, depths, l, high, low)
    }
}

// Marks, by depth, the ancestors of l that have a road to l or below it, and l itself: one pass over the roads. Kept out of the search
// that asks for it, whose many values would take its registers.
#[inline(never)]
pub fn mark_hoplinks(
    net: &[u8],
    labels: &[u8],
    depths: &[u32; 1024],
    l: usize,
    marks: &mut [u8; 1024],
)
    requires { FilesFit net.now labels.now × DepthsFilled labels.now depths.now × (l < junctions_of labels.now) × (length marks.old ≡ 1024) }
    ensures { HopMarks net.now labels.now l marks.new }
{
    mark_itself(depths[l] as usize, marks);
    for k in 0..roads_of(net) as usize {
        marks[road_mark(net, labels, depths, l, k) as usize] = 1;
    }
}

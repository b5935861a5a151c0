// The first route of an unbeaten pair, junction by junction: at each junction the first road in file order after which the rest of the pair
// can still be spent.
ghost use Rattle.std.specs.Prelude.{◌≡◌, true, ◌+◌, ◌*◌, ◌≤◌, ◌<◌, length};
ghost use Rattle.paths.specs.TradeOff.{Skyline};
ghost use Rattle.network.specs.NetworkFile.{junctions_of, roads_of, network_of};
ghost use Rattle.network.specs.working.Roads.{touches};
ghost use Rattle.refusals.specs.working.Decides.{Decides};
ghost use Rattle.query.specs.working.PreparedSet.{IsPrepared};
ghost use Rattle.reaching.specs.working.Reach.{weight_of};
ghost use Rattle.reaching.specs.working.Searched.{Held};
ghost use Rattle.routes.specs.working.Steps.{RoadPair, FitsInto, StepFits, StepRoad};
ghost use Rattle.routes.specs.working.Written.{RouteFound};

use network::header::roads_of;
use network::roads::{first_road, next_road, other_end, road_energy, road_time};
use paths::pair::Pair;
use reaching::reach::{Ends, Hoplinks, reaches};
use stored::set::LabelSet;

// A step on the way to a finish: the road to take from a junction.
#[derive(Clone, Copy)]
pub struct Step {
    pub here: usize,
    pub road: usize,
    pub finish: usize,
}

// The pair of road k.
fn road_pair(net: &[u8], k: usize) -> Pair
    requires { 24 + 8 * k ≤ length net.now }
    ensures { RoadPair net.now k result }
{
    Pair {
        time: road_time(net, k),
        energy: road_energy(net, k),
    }
}

// Whether a part takes no more than the whole in either figure.
fn fits_into(part: Pair, whole: Pair) -> bool
    ensures { Decides (FitsInto part whole) result }
{
    part.time <= whole.time && part.energy <= whole.energy
}

// Whether the step's road fits into the whole and its other end reaches the finish within the rest.
fn step_fits(set: LabelSet<'_>, step: Step, whole: Pair, hoplinks: &mut Hoplinks) -> bool
    requires prepared { IsPrepared set }
    requires finish_bound { step.finish < junctions_of set.net.now }
    requires road_bound { step.road < roads_of set.net.now }
    requires road_value { touches set.net.now step.here step.road ≡ true }
    requires held { Held set.net.now set.labels.now hoplinks.old }
    ensures decides { Decides (StepFits set.entry.net.now step.here step.finish step.road whole.time.0 whole.energy.0) result }
    ensures held_2 { Held set.entry.net.now set.entry.labels.now hoplinks.new }
{
    let takes = road_pair(set.net, step.road);
    if fits_into(takes, whole) {
        let after = whole - takes;
        let ends = Ends {
            from: other_end(set.net, step.here, step.road),
            to: step.finish,
        };
        reaches(set, ends, after, hoplinks)
    } else {
        false
    }
}

// The first road in file order that leads on from the first of two junctions. There is one, since the whole is the pair of a path.
fn step_road(set: LabelSet<'_>, ends: Ends, whole: Pair, hoplinks: &mut Hoplinks) -> usize
    requires prepared { IsPrepared set }
    requires from_bound { (ends.from < junctions_of set.net.now) × (ends.to < junctions_of set.net.now) }
    requires fact { ends.from ≡ ends.to → ⊥ }
    requires skyline { Skyline (network_of set.net.now) ends.from ends.to (weight_of whole) }
    requires held { Held set.net.now set.labels.now hoplinks.old }
    ensures step_road { StepRoad set.entry.net.now ends.from ends.to result whole.time.0 whole.energy.0 }
    ensures held_2 { Held set.entry.net.now set.entry.labels.now hoplinks.new }
{
    let here = ends.from;
    let roads = roads_of(set.net) as usize;
    let mut k = first_road(set.tables, here);
    // A chain: each road of a junction leads to the next.
    while k < roads {
        let step = Step {
            here,
            road: k,
            finish: ends.to,
        };
        let fits = step_fits(set, step, whole, hoplinks);
        if fits {
            return k;
        }
        k = next_road(set.net, set.tables, here, k);
    }
    k
}

// Writes the first route of an unbeaten pair from x to y to the first places, and returns how many junctions it has.
pub fn route(
    set: LabelSet<'_>,
    x: usize,
    y: usize,
    whole: Pair,
    junctions: &mut [u32; 1024],
) -> usize
    requires prepared { IsPrepared set }
    requires x_bound { (x < junctions_of set.net.now) × (y < junctions_of set.net.now) }
    requires skyline { Skyline (network_of set.net.now) x y (weight_of whole) }
    requires junctions_len { length junctions.old ≡ 1024 }
    ensures route_found { RouteFound set.entry.net.now x y (weight_of whole) result junctions.new }
    ensures junctions_len_2 { length junctions.new ≡ 1024 }
{
    let mut hoplinks = Hoplinks::new();
    let mut here = x;
    let mut rest = whole;
    let mut count: usize = 0;
    // A chain: each junction leads to the next of the route.
    while here != y {
        junctions[count] = here as u32;
        count += 1;
        let ends = Ends { from: here, to: y };
        let k = step_road(set, ends, rest, &mut hoplinks);
        rest = rest - road_pair(set.net, k);
        here = other_end(set.net, here, k);
    }
    junctions[count] = y as u32;
    count + 1
}

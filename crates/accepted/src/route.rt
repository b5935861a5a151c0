// Route on an accepted set: the answer, then its first route, written once it is known that the lent places are enough.
ghost use Rattle.std.specs.Prelude.{◌≡◌, false, ◌<◌};
ghost use Rattle.paths.specs.TradeOff.{Skyline};
ghost use Rattle.network.specs.NetworkFile.{network_of, junctions_of};
ghost use Rattle.query.specs.working.PreparedSet.{IsPrepared};
ghost use Rattle.reaching.specs.working.Reach.{weight_of};
ghost use Rattle.accepted.specs.Route.{RouteAnswered};
ghost use Rattle.accepted.specs.RouteAnswers.{route_number_of, route_time_of, route_energy_of, route_count_of};
ghost use Rattle.accepted.specs.working.RoutePut.{RoutePut};
ghost use Rattle.accepted.specs.working.FromCheck.{route_from_check};

use crate::answers::{FoundRoute, RouteRefusal};
use crate::filling::fill_first;
use paths::pair::Pair;
use query::limited::answer;
use routes::route::route;
use stored::set::LabelSet;

// The first route of an unbeaten pair, put into the first of the lent places if they are enough.
fn put_route(
    set: LabelSet<'_>,
    s: usize,
    t: usize,
    best: Pair,
    junctions: &mut [u32],
) -> Result<FoundRoute, RouteRefusal>
    requires prepared { IsPrepared set }
    requires s_bound { (s < junctions_of set.net.now) × (t < junctions_of set.net.now) }
    requires skyline { Skyline (network_of set.net.now) s t (weight_of best) }
    ensures route_put { RoutePut set.entry.net.now s t best.time.0 best.energy.0 junctions.old
        (route_number_of result) (route_time_of result) (route_energy_of result) (route_count_of result) junctions.new }
    ensures result_value { route_from_check result ≡ false }
{
    let mut places: [u32; 1024] = [0; 1024];
    let count = route(set, s, t, best, &mut places);
    if count > junctions.len() {
        return Err(RouteRefusal::NoRoom);
    }
    fill_first(&places, count, junctions);
    Ok(FoundRoute {
        pair: best,
        count: count as u32,
    })
}

// The answer to s, t and the limit with its route.
pub fn answer_route(
    set: LabelSet<'_>,
    s: u32,
    t: u32,
    limit: u32,
    junctions: &mut [u32],
) -> Result<FoundRoute, RouteRefusal>
    requires { IsPrepared set }
    ensures route_answered { RouteAnswered set.entry.net.now s t limit junctions.old
        (route_number_of result) (route_time_of result) (route_energy_of result) (route_count_of result) junctions.new }
    ensures result_value { route_from_check result ≡ false }
{
    let best = answer(set, s, t, limit)?;
    put_route(set, s as usize, t as usize, best, junctions)
}

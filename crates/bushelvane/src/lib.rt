// The calls for C and Rust: functions of `labels` under C names, their statements passed on. An answer that is an enum there is a
// struct of its number and values here.
#![tactic(auto)]

ghost use Rattle.std.specs.Prelude.{◌≡◌};
ghost use Rattle.joins.specs.Answers.{Join, LimitedJoin, join_number_of, join_count_of, sum_number_of, sum_time_of, sum_energy_of};
ghost use Rattle.accepted.specs.Check.{Checked};
ghost use Rattle.labels.specs.Batch.{BatchDone};
ghost use Rattle.labels.specs.Route.{Routed};
ghost use Rattle.accepted.specs.RouteAnswers.{route_number_of, route_time_of, route_energy_of, route_count_of};
ghost use Rattle.labels.specs.List.{Listed};
ghost use Rattle.accepted.specs.ListAnswers.{list_number_of, list_count_of};
ghost use Rattle.labels.specs.Part.{PartShown};

use labels::{FoundRoute, JoinRefusal, ListRefusal, Pair, RouteRefusal, SumRefusal};

#[repr(C)]
#[derive(Clone, Copy)]
pub struct Best {
    pub number: u32,
    pub time: u32,
    pub energy: u32,
}

#[repr(C)]
#[derive(Clone, Copy)]
pub struct BestRoute {
    pub number: u32,
    pub time: u32,
    pub energy: u32,
    pub count: u32,
}

#[repr(C)]
#[derive(Clone, Copy)]
pub struct Count {
    pub number: u32,
    pub count: u32,
}

// Length 0: the empty part.
#[repr(C)]
#[derive(Clone, Copy)]
pub struct Part {
    pub at: usize,
    pub length: usize,
}

#[unsafe(no_mangle)]
pub extern "C" fn bushelvane_check(net: &[u8], labels: &[u8]) -> u32
    ensures { Checked net.now labels.now result }
{
    labels::check(net, labels)
}

#[unsafe(no_mangle)]
pub extern "C" fn bushelvane_batch(
    net: &[u8],
    labels: &[u8],
    queries: &[u32],
    answers: &mut [u32],
) -> u32
    ensures { BatchDone net.now labels.now queries.now answers.old result answers.new }
{
    labels::batch(net, labels, queries, answers)
}

// A refusal carries zeros beside its number.
fn route_values(answer: Result<FoundRoute, RouteRefusal>) -> BestRoute
    ensures { (result.number ≡ route_number_of answer) × (result.time ≡ route_time_of answer) × (result.energy ≡ route_energy_of answer)
        × (result.count ≡ route_count_of answer) }
{
    match answer {
        Ok(found) => BestRoute {
            number: 0,
            time: found.pair.time.0,
            energy: found.pair.energy.0,
            count: found.count,
        },
        Err(refusal) => BestRoute {
            number: refusal.number(),
            time: 0,
            energy: 0,
            count: 0,
        },
    }
}

#[unsafe(no_mangle)]
pub extern "C" fn bushelvane_route(
    net: &[u8],
    labels: &[u8],
    s: u32,
    t: u32,
    limit: u32,
    junctions: &mut [u32],
) -> BestRoute
    ensures { Routed net.now labels.now s t limit junctions.old
        result.number result.time result.energy result.count junctions.new }
{
    let answer = labels::route(net, labels, s, t, limit, junctions);
    route_values(answer)
}

fn list_values(answer: Result<u32, ListRefusal>) -> Count
    ensures { (result.number ≡ list_number_of answer) × (result.count ≡ list_count_of answer) }
{
    match answer {
        Ok(count) => Count { number: 0, count },
        Err(refusal) => Count {
            number: refusal.number(),
            count: 0,
        },
    }
}

#[unsafe(no_mangle)]
pub extern "C" fn bushelvane_list(
    net: &[u8],
    labels: &[u8],
    s: u32,
    t: u32,
    times: &mut [u32],
    energies: &mut [u32],
) -> Count
    ensures { Listed net.now labels.now s t times.old energies.old
        result.number result.count times.new energies.new }
{
    let answer = labels::list(net, labels, s, t, times, energies);
    list_values(answer)
}

fn join_values(answer: Result<u32, JoinRefusal>) -> Count
    ensures { (result.number ≡ join_number_of answer) × (result.count ≡ join_count_of answer) }
{
    match answer {
        Ok(count) => Count { number: 0, count },
        Err(refusal) => Count {
            number: refusal.number(),
            count: 0,
        },
    }
}

#[unsafe(no_mangle)]
pub extern "C" fn bushelvane_join(
    times: &[u32],
    energies: &[u32],
    more_times: &[u32],
    more_energies: &[u32],
    out_times: &mut [u32],
    out_energies: &mut [u32],
) -> Count
    ensures { Join times.now energies.now more_times.now more_energies.now
        out_times.old out_energies.old result.number result.count
        out_times.new out_energies.new }
{
    let answer = labels::join(
        times,
        energies,
        more_times,
        more_energies,
        out_times,
        out_energies,
    );
    join_values(answer)
}

fn sum_values(answer: Result<Pair, SumRefusal>) -> Best
    ensures { (result.number ≡ sum_number_of answer) × (result.time ≡ sum_time_of answer) × (result.energy ≡ sum_energy_of answer) }
{
    match answer {
        Ok(sum) => Best {
            number: 0,
            time: sum.time.0,
            energy: sum.energy.0,
        },
        Err(refusal) => Best {
            number: refusal.number(),
            time: 0,
            energy: 0,
        },
    }
}

#[unsafe(no_mangle)]
pub extern "C" fn bushelvane_limited_join(
    times: &[u32],
    energies: &[u32],
    more_times: &[u32],
    more_energies: &[u32],
    limit: u32,
) -> Best
    ensures { LimitedJoin times.now energies.now more_times.now more_energies.now
        limit result.number result.time result.energy }
{
    let answer = labels::limited_join(times, energies, more_times, more_energies, limit);
    sum_values(answer)
}

#[unsafe(no_mangle)]
pub extern "C" fn bushelvane_show(labels: &[u8], v: u32, u: u32) -> Part
    ensures { PartShown labels.now v u result.at result.length }
{
    let part = labels::show_part(labels, v, u);
    Part {
        at: part.at,
        length: part.length,
    }
}

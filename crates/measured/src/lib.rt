// What bench/ measures, exported to Rust. Each function hands its arguments on, so its time is that of the function measured.
#![tactic(auto)]

ghost use Rattle.std.specs.Prelude.{◌≡◌, ◌<◌, length};
ghost use Rattle.tables.specs.working.Layout.{table_places};
ghost use Rattle.paths.specs.Weights.{pair};
ghost use Rattle.paths.specs.TradeOff.{Skyline};
ghost use Rattle.network.specs.NetworkFile.{junctions_of, network_of};
ghost use Rattle.joins.specs.Answers.{Join, LimitedJoin};
ghost use Rattle.query.specs.working.Prepared.{Prepared};
ghost use Rattle.routes.specs.working.Written.{RouteFound};
ghost use Rattle.accepted.specs.Check.{Checked};
ghost use Rattle.accepted.specs.List.{ListAnswered};
ghost use Rattle.accepted.specs.working.Accepting.{Accepting};
ghost use Rattle.accepted.specs.working.Triples.{Triples, AnsweredTo};
ghost use Rattle.measured.specs.working.FormNumber.{FormNumber};

use accepted::accept::accept;
use accepted::batch::answer_all;
use accepted::list::write_list;
use files::form::labels_number;
use joins::limited::limited_join;
use network::network::net_number;
use network::versions::version_one;
use paths::energy::Energy;
use paths::pair::Pair;
use paths::seconds::Seconds;
use routes::route::route;
use stored::set::LabelSet;
use unbeaten::join::join;

// What Join and Trade-off list answer, for a caller in Rust: the number of a refusal and no count, or 0 and the places filled.
#[repr(C)]
#[derive(Clone, Copy)]
pub struct MeasuredCount {
    pub number: u32,
    pub count: u32,
}

// What Limited join answers: the number it refuses by beside zeros, or 0 and the best sum.
#[repr(C)]
#[derive(Clone, Copy)]
pub struct MeasuredBest {
    pub number: u32,
    pub time: u32,
    pub energy: u32,
}

// A time beside an energy.
#[repr(C)]
#[derive(Clone, Copy)]
pub struct MeasuredPair {
    pub time: u32,
    pub energy: u32,
}

// The whole check.
#[unsafe(no_mangle)]
pub extern "C" fn measured_check(net: &[u8], labels: &[u8]) -> u32
    ensures { Checked net.now labels.now result }
{
    labels::check(net, labels)
}

// The form check of a label file beside a network file: the first number that one of them is refused by, or 0.
#[unsafe(no_mangle)]
pub extern "C" fn measured_form(net: &[u8], labels: &[u8]) -> u32
    ensures { FormNumber net.now labels.now result }
{
    let number = net_number(net, version_one());
    if number != 0 {
        return number;
    }
    let mut depths: [u32; 1024] = [0; 1024];
    let mut tables: [u32; 13312] = [0; 13312];
    labels_number(net, labels, version_one(), &mut depths, &mut tables)
}

// Join, for all inputs.
#[unsafe(no_mangle)]
pub extern "C" fn measured_join(
    times: &[u32],
    energies: &[u32],
    more_times: &[u32],
    more_energies: &[u32],
    out_times: &mut [u32],
    out_energies: &mut [u32],
) -> MeasuredCount
    ensures { Join times.now energies.now more_times.now more_energies.now
        out_times.old
        out_energies.old
        result.number
        result.count
        out_times.new
        out_energies.new }
{
    match join(
        times,
        energies,
        more_times,
        more_energies,
        out_times,
        out_energies,
    ) {
        Ok(count) => MeasuredCount { number: 0, count },
        Err(refusal) => MeasuredCount {
            number: refusal.number(),
            count: 0,
        },
    }
}

// Limited join, for all inputs.
#[unsafe(no_mangle)]
pub extern "C" fn measured_limited_join(
    times: &[u32],
    energies: &[u32],
    more_times: &[u32],
    more_energies: &[u32],
    limit: u32,
) -> MeasuredBest
    ensures { LimitedJoin
        times.now
        energies.now
        more_times.now
        more_energies.now
        limit
        result.number
        result.time
        result.energy }
{
    match limited_join(times, energies, more_times, more_energies, limit) {
        Ok(sum) => MeasuredBest {
            number: 0,
            time: sum.time.0,
            energy: sum.energy.0,
        },
        Err(refusal) => MeasuredBest {
            number: refusal.number(),
            time: 0,
            energy: 0,
        },
    }
}

// The check with its tables left filled. The functions below stand on them: bench/ hands each the tables that this one filled for
// the same files with number 0, and scratch of the sizes that their types say.
#[unsafe(no_mangle)]
pub extern "C" fn measured_accept(
    net: &[u8],
    labels: &[u8],
    depths: &mut [u32; 1024],
    tables: &mut [u32; 13312],
) -> u32
    requires { (length depths.old ≡ 1024) × (length tables.old ≡ table_places) }
    ensures { Accepting net.now labels.now result depths.new tables.new }
{
    match accept(net, labels, depths, tables) {
        Ok(()) => 0,
        Err(refusal) => refusal.number(),
    }
}

// A batch after the check. The answers are as many places as the queries, three to each of `count` triples.
#[unsafe(no_mangle)]
pub extern "C" fn measured_answers(
    net: &[u8],
    labels: &[u8],
    depths: &[u32; 1024],
    tables: &[u32; 13312],
    queries: &[u32],
    count: usize,
    answers: &mut [u32],
)
    requires prepared { Prepared net.now labels.now depths.now tables.now }
    requires triples { Triples queries.now answers.old count }
    ensures { AnsweredTo net.now queries.now answers.old answers.new count }
{
    let set = LabelSet {
        net,
        labels,
        depths,
        tables,
    };
    answer_all(set, queries, count, answers);
}

// The first route of an unbeaten pair, which bench/ takes from a batch.
#[unsafe(no_mangle)]
pub extern "C" fn measured_route(
    net: &[u8],
    labels: &[u8],
    depths: &[u32; 1024],
    tables: &[u32; 13312],
    s: usize,
    t: usize,
    best: MeasuredPair,
    junctions: &mut [u32; 1024],
) -> usize
    requires prepared { Prepared net.now labels.now depths.now tables.now }
    requires s_bound { (s < junctions_of net.now) × (t < junctions_of net.now) }
    requires skyline { Skyline (network_of net.now) s t (pair best.time best.energy) }
    requires junctions_len { length junctions.old ≡ 1024 }
    ensures { RouteFound net.now s t (pair best.time best.energy) result junctions.new }
{
    let whole = Pair {
        time: Seconds(best.time),
        energy: Energy(best.energy),
    };
    let set = LabelSet {
        net,
        labels,
        depths,
        tables,
    };
    route(set, s, t, whole, junctions)
}

// The whole trade-off list of two junctions, counted and then written.
#[unsafe(no_mangle)]
pub extern "C" fn measured_list(
    net: &[u8],
    labels: &[u8],
    depths: &[u32; 1024],
    tables: &[u32; 13312],
    s: u32,
    t: u32,
    times: &mut [u32],
    energies: &mut [u32],
) -> MeasuredCount
    requires { Prepared net.now labels.now depths.now tables.now }
    ensures { ListAnswered net.now s t times.old energies.old result.number result.count times.new energies.new }
{
    let set = LabelSet {
        net,
        labels,
        depths,
        tables,
    };
    match write_list(set, s, t, times, energies) {
        Ok(count) => MeasuredCount { number: 0, count },
        Err(refusal) => MeasuredCount {
            number: refusal.number(),
            count: 0,
        },
    }
}

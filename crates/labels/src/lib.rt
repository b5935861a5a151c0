// The calls of Bushelvane. Each takes arbitrary bytes and numbers, always ends, and states its number, its values and every lent
// place for all inputs; a refusal carries zeros and changes nothing lent. What the statements mean is said in specs/, one file a
// call, in the words of docs/SCOPE.md. An answer that is an enum is handed on from where it is made: a caller names this crate alone.
#![tactic(auto)]

ghost use Rattle.std.specs.Prelude.{◌+◌, ◌≤◌, ◌≡◌, length};
ghost use Rattle.joins.specs.Answers.{Join, LimitedJoin, join_number_of, join_count_of, sum_number_of, sum_time_of, sum_energy_of};
ghost use Rattle.stored.specs.Stored.{list_place};
ghost use Rattle.files.specs.Shown.{Shown};
ghost use Rattle.accepted.specs.Check.{Checked};
ghost use Rattle.labels.specs.Batch.{BatchDone};
ghost use Rattle.labels.specs.Route.{RouteDone};
ghost use Rattle.labels.specs.List.{ListDone};
ghost use Rattle.labels.specs.Part.{PartShown};

use accepted::accept::accept;
pub use accepted::answers::{CheckRefusal, FoundRoute, ListRefusal, RouteRefusal};
use accepted::batch::answer_all;
use accepted::list::write_list;
use accepted::route::answer_route;
use files::show::{Span, span_of};
pub use joins::{JoinRefusal, SumRefusal};
pub use network::refusal::NetworkRefusal;
pub use paths::energy::Energy;
pub use paths::pair::Pair;
pub use paths::seconds::Seconds;
pub use query::NoAnswer;
pub use stored::refusal::LabelRefusal;
use stored::set::LabelSet;

// A part of lent bytes: where it begins, and how many bytes it has.
#[derive(Clone, Copy)]
pub struct Part {
    pub at: usize,
    pub length: usize,
}

// Check: 0 if the network and the labels are accepted, else the number of the first test that fails (1 to 6, 11 to 18).
pub fn check(net: &[u8], labels: &[u8]) -> u32
    ensures { Checked net.now labels.now result }
{
    let mut depths: [u32; 1024] = [0; 1024];
    let mut tables: [u32; 13312] = [0; 13312];
    match accept(net, labels, &mut depths, &mut tables) {
        Ok(()) => 0,
        Err(refusal) => refusal.number(),
    }
}

// Batch: triples s, t, limit in; for each a triple number, time, energy. A triple's 21, 22 or 23 refuses it alone. The call's own
// number is 0, or 31 or 32 for slices of a wrong length, or the check's; then no answer is written. A number and no Result, as Check's:
// it is what the call for C answers, and what the edit that refuses a batch by a triple's number shows.
pub fn batch(net: &[u8], labels: &[u8], queries: &[u32], answers: &mut [u32]) -> u32
    ensures { BatchDone net.now labels.now queries.now answers.old result answers.new }
{
    let mut depths: [u32; 1024] = [0; 1024];
    let mut tables: [u32; 13312] = [0; 13312];
    let length = queries.len();
    if length % 3 != 0 {
        return 31;
    }
    if length > 3072 {
        return 31;
    }
    if answers.len() != length {
        return 32;
    }
    if let Err(refusal) = accept(net, labels, &mut depths, &mut tables) {
        return refusal.number();
    }
    let set = LabelSet {
        net,
        labels,
        depths: &depths,
        tables: &tables,
    };
    answer_all(set, queries, length / 3, answers);
    0
}

// Route: the best pair under a limit with the first of its routes, whose junctions fill the first of the lent places; the check's
// number, 21, 22, 23, or 24 if the route has more junctions than places.
pub fn route(
    net: &[u8],
    labels: &[u8],
    s: u32,
    t: u32,
    limit: u32,
    junctions: &mut [u32],
) -> Result<FoundRoute, RouteRefusal>
    ensures { RouteDone net.now labels.now s t limit junctions.old result junctions.new }
{
    let mut depths: [u32; 1024] = [0; 1024];
    let mut tables: [u32; 13312] = [0; 13312];
    accept(net, labels, &mut depths, &mut tables)?;
    let set = LabelSet {
        net,
        labels,
        depths: &depths,
        tables: &tables,
    };
    answer_route(set, s, t, limit, junctions)
}

// Trade-off list: every pair of s and t that no path's pair beats, energy rising, into the first places of two lent slices; how many,
// or 21, 22, 24, or the check's number.
pub fn list(
    net: &[u8],
    labels: &[u8],
    s: u32,
    t: u32,
    times: &mut [u32],
    energies: &mut [u32],
) -> Result<u32, ListRefusal>
    ensures { ListDone net.now labels.now s t times.old energies.old result
        times.new energies.new }
{
    let mut depths: [u32; 1024] = [0; 1024];
    let mut tables: [u32; 13312] = [0; 13312];
    accept(net, labels, &mut depths, &mut tables)?;
    let set = LabelSet {
        net,
        labels,
        depths: &depths,
        tables: &tables,
    };
    write_list(set, s, t, times, energies)
}

// Join: the unbeaten sums of two lists, each once, in order, into the first places of two lent slices; how many, or 41, 42, 24.
pub fn join(
    times: &[u32],
    energies: &[u32],
    more_times: &[u32],
    more_energies: &[u32],
    out_times: &mut [u32],
    out_energies: &mut [u32],
) -> Result<u32, JoinRefusal>
    ensures { Join times.now energies.now more_times.now more_energies.now
        out_times.old out_energies.old (join_number_of result) (join_count_of result)
        out_times.new out_energies.new }
{
    unbeaten::join::join(
        times,
        energies,
        more_times,
        more_energies,
        out_times,
        out_energies,
    )
}

// Limited join: the best sum of two lists within a limit, or 41, 42, 23.
pub fn limited_join(
    times: &[u32],
    energies: &[u32],
    more_times: &[u32],
    more_energies: &[u32],
    limit: u32,
) -> Result<Pair, SumRefusal>
    ensures { LimitedJoin times.now energies.now more_times.now more_energies.now
        limit (sum_number_of result) (sum_time_of result) (sum_energy_of result) }
{
    joins::limited::limited_join(times, energies, more_times, more_energies, limit)
}

// Show: the very bytes of the list of v and its proper ancestor u, from its count through its last entry, or the empty part.
pub fn show(labels: &[u8], v: u32, u: u32) -> &[u8]
    ensures shown { Shown labels.now v u result.now }
    ensures ref_ptr_value { 1 ≤ length result.now → result.ref_ptr ≡ (labels.entry.ref_ptr.0, list_place labels.now v u + labels.entry.ref_ptr.1) }
{
    files::show::show(labels, v, u)
}

// Show, for a caller who cannot be handed a part: its place and its length in the labels lent; an empty part is at 0.
pub fn show_part(labels: &[u8], v: u32, u: u32) -> Part
    ensures { PartShown labels.now v u result.at result.length }
{
    let span = span_of(labels, v, u).unwrap_or(Span { start: 0, end: 0 });
    Part {
        at: span.start,
        length: span.end - span.start,
    }
}

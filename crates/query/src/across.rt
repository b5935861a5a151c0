// The best sum of two junctions' lists for the same ancestor, over all common ancestors. Lists are read where they stand, and what is
// known of the best bounds what is read.
ghost use Rattle.std.specs.Prelude.{IsTrue, IsFalse, ◌<◌};
ghost use Rattle.paths.specs.Weights.{energy, Sooner, NotLater};
ghost use Rattle.forest.specs.LabelFile.{count_at};
ghost use Rattle.query.specs.working.Sums.{pair_of, SumIs, Only, Row, RowFits, Improves, Extends, WalkStart, WorthWalking};

use crate::list_pair::ListPair;
use crate::places::{first_quick, fitting, fitting_from, too_long};
use paths::energy::Energy;
use paths::seconds::Seconds;
use stored::place::Place;

// A sum of two entries and where it stands: entry i of the list at byte `near` and entry j of the list at byte `far`.
#[derive(Clone, Copy)]
pub struct Sum {
    pub time: Seconds,
    pub energy: Energy,
    pub near: usize,
    pub far: usize,
    pub i: usize,
    pub j: usize,
}

// What is known of the best: the sum, and whether there is any, be it over the limit.
#[derive(Clone, Copy)]
pub struct Best {
    pub connected: bool,
    pub sum: Sum,
}

// The sum of entry i of the near list and entry j of the far list.
pub fn sum_at(lists: ListPair<'_>, i: usize, j: usize) -> Sum
    requires { (i < count_at lists.labels.now lists.near) × (j < count_at lists.labels.now lists.far) }
    ensures { SumIs lists.entry.labels.now lists.entry.near lists.entry.far i j result }
{
    Sum {
        time: lists.near().time(i) + lists.far().time(j),
        energy: lists.near().energy(i) + lists.far().energy(j),
        near: lists.near,
        far: lists.far,
        i,
        j,
    }
}

// Whether the candidate comes before the best as an answer, field by field: in the walk that is a branch, where `<` on pairs would be a
// choice between whole sums at each step.
fn comes_before(candidate: Sum, best: Sum) -> bool
    ensures before { IsTrue result → Sooner energy (pair_of candidate) (pair_of best) }
    ensures not_before { IsFalse result → NotLater energy (pair_of best) (pair_of candidate) }
{
    candidate.time < best.time || (candidate.time == best.time && candidate.energy < best.energy)
}

// Up the near list from place `start` and down the far list from place `end`: as the near entry's energy rises, fewer far entries fit
// beside it, and the last that fits is the quickest. The walk ends where even the quickest near entry is too slow beside that one.
fn walk_from(lists: ListPair<'_>, start: usize, end: usize, limit: Energy, known: Sum) -> Sum
    requires near_nonzero { 0 < count_at lists.labels.now lists.near }
    requires walk_start { WalkStart lists.labels.now lists.near lists.far limit.0 start end known }
    ensures { Improves lists.entry.labels.now (Only lists.entry.near lists.entry.far) limit.0 known result }
{
    let near = lists.near();
    let far = lists.far();
    let count = near.count();
    let quickest = near.time(count - 1);
    let mut best = known;
    let mut j = end;
    for i in start..count {
        j = fitting_from(far, near.energy(i), limit, j);
        if j == 0 || too_long(quickest + far.time(j - 1), best.time) {
            return best;
        }
        let candidate = sum_at(lists, i, j - 1);
        if comes_before(candidate, best) {
            best = candidate;
        }
    }
    best
}

// The walk from the first near entry that could be quick enough, and the last far entry that fits beside it.
fn walk(lists: ListPair<'_>, limit: Energy, known: Sum) -> Sum
    requires { WorthWalking lists.labels.now lists.near lists.far known }
    ensures { Improves lists.entry.labels.now (Only lists.entry.near lists.entry.far) limit.0 known result }
{
    let near = lists.near();
    let far = lists.far();
    let quickest = far.time(far.count() - 1);
    let start = first_quick(near, quickest, known.time);
    let end = fitting(far, near.energy(start), limit);
    walk_from(lists, start, end, limit, known)
}

// One level, the bound first: no sum is within the limit if that of the least energies is not, and none is better than the known one
// if that of the least times takes longer.
fn at_level(lists: ListPair<'_>, limit: Energy, best: Best) -> Best
    ensures { Extends lists.entry.labels.now (Only lists.entry.near lists.entry.far) limit.0 best result }
{
    let near_count = lists.near().count();
    if near_count == 0 {
        return best;
    }
    let far_count = lists.far().count();
    if far_count == 0 {
        return best;
    }
    // Both lists have an entry, so there is a sum.
    let mut seen = Best {
        connected: true,
        sum: best.sum,
    };
    let cheapest = sum_at(lists, 0, 0);
    if limit < cheapest.energy {
        return seen;
    }
    let quickest = sum_at(lists, near_count - 1, far_count - 1);
    if too_long(quickest.time, seen.sum.time) {
        return seen;
    }
    seen.sum = walk(lists, limit, seen.sum);
    seen
}

// The lists at two bytes and those behind them, so many on each side: what is known of the best is taken further level by level.
pub fn across(
    labels: &[u8],
    near: usize,
    far: usize,
    levels: u32,
    limit: Energy,
    known: Best,
) -> Best
    requires { RowFits labels.now near far levels }
    ensures { Extends labels.now (Row labels.now near far levels) limit.0 known result }
{
    let mut near_place = Place { at: near };
    let mut far_place = Place { at: far };
    let mut best = known;
    for _ in 0..levels {
        let lists = ListPair {
            labels,
            near: near_place.at,
            far: far_place.at,
        };
        best = at_level(lists, limit, best);
        near_place = near_place.next(labels);
        far_place = far_place.next(labels);
    }
    best
}

// Places in a stored list, read where it stands. Energy rises along a list and time falls, so that halving finds where either passes
// a bound.
ghost use Rattle.std.specs.Prelude.{◌≡◌, ℕ, ◌≤◌, ◌<◌, ltb};
ghost use Rattle.forest.specs.LabelFile.{count_at};
ghost use Rattle.stored.specs.ListForm.{most_figure, most_count};
ghost use Rattle.query.specs.working.Sums.{FirstFailing, FittingFrom, SlowBefore};

use paths::energy::Energy;
use paths::seconds::Seconds;
use stored::list::StoredList;

// The first place below `count` that fails a test, or `count`, by halving: no place passes behind one that fails.
fn first_failing<F: Fn(usize) -> bool>(count: usize, passes: F) -> usize
    requires few { count ≤ most_count }
    requires callable { (k : ℕ) → k < count → F.pre passes k }
    ensures { FirstFailing (F.post passes) count result }
{
    let mut low = 0;
    let mut high = count;
    // Two ends that close in on each other: no range goes over them.
    while low < high {
        let middle = (low + high) / 2;
        if passes(middle) {
            low = middle + 1;
        } else {
            high = middle;
        }
    }
    low
}

// How many entries of a list fit beside so much energy, by halving.
pub fn fitting(list: StoredList<'_>, beside: Energy, limit: Energy) -> usize
    requires { beside.0 ≤ most_figure }
    ensures { FittingFrom list.entry.labels.now list.entry.at beside.0 limit.0 (count_at list.entry.labels.now list.entry.at) result }
{
    first_failing(list.count(), |j| beside + list.energy(j) <= limit)
}

// How many of the first `from` entries fit, entry by entry from the last one down.
pub fn fitting_from(list: StoredList<'_>, beside: Energy, limit: Energy, from: usize) -> usize
    requires { (beside.0 ≤ most_figure) × (from ≤ count_at list.labels.now list.at) }
    ensures { FittingFrom list.entry.labels.now list.entry.at beside.0 limit.0 from result }
{
    for j in (0..from).rev() {
        if beside + list.energy(j) <= limit {
            return j + 1;
        }
    }
    0
}

// Whether a time is longer than the most. An equal one is not: its energy may be less.
pub fn too_long(time: Seconds, most: Seconds) -> bool
    ensures { result ≡ ltb most.0 time.0 }
{
    most < time
}

// The first entry of a list that takes no longer than `most` beside so much time, by halving.
pub fn first_quick(list: StoredList<'_>, beside: Seconds, most: Seconds) -> usize
    requires { beside.0 ≤ most_figure }
    ensures { SlowBefore list.entry.labels.now list.entry.at beside.0 most.0 result }
{
    first_failing(list.count(), |j| too_long(list.time(j) + beside, most))
}

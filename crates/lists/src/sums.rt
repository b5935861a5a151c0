// The best sum of two lists within a limit.
ghost use Rattle.std.specs.Prelude.{◌≡◌, IsTrue, IsFalse, ℕ, ◌+◌, ◌-◌, ◌≤◌, ◌<◌, ◌^◌, length, get_or};
ghost use Rattle.paths.specs.Weights.{energy, pair, Sooner, NotLater};
ghost use Rattle.lists.specs.working.Lists.{above_all, IsList};
ghost use Rattle.lists.specs.working.Sums.{sum_at, BestFound};

use paths::energy::Energy;
use paths::pair::Pair;
use paths::seconds::Seconds;

// A sum of an entry of the first list and one of the second: their places, and its time and energy.
#[derive(Clone, Copy)]
pub struct Sum {
    pub first: usize,
    pub second: usize,
    pub pair: Pair,
}

// The sum of entry i of the first list and entry j of the second.
pub fn sum_at(
    times: &[u32],
    energies: &[u32],
    more_times: &[u32],
    more_energies: &[u32],
    i: usize,
    j: usize,
) -> Sum
    requires list { IsList above_all times.now energies.now }
    requires list_2 { IsList above_all more_times.now more_energies.now }
    requires i_in_bounds { i < length times.now }
    requires j_in_bounds { j < length more_times.now }
    ensures first_value { result.first ≡ i }
    ensures second_value { result.second ≡ j }
    ensures energy_value { pair result.pair.time.0 result.pair.energy.0 ≡
        sum_at times.now energies.now more_times.now more_energies.now i j }
{
    Sum {
        first: i,
        second: j,
        pair: Pair {
            time: Seconds(times[i]) + Seconds(more_times[j]),
            energy: Energy(energies[i]) + Energy(more_energies[j]),
        },
    }
}

// Whether the candidate comes before the best as an answer, field by field: `candidate.pair < best.pair` says the same, but LLVM then
// chooses between whole sums at each step of the walk in place of a branch, and the walk takes 1.2 to 2.5 times as long.
fn comes_before(candidate: Sum, best: Sum) -> bool
    ensures before { IsTrue result → Sooner energy (pair candidate.pair.time.0 candidate.pair.energy.0) (pair best.pair.time.0 best.pair.energy.0) }
    ensures not_before { IsFalse result → NotLater energy (pair best.pair.time.0 best.pair.energy.0) (pair candidate.pair.time.0 candidate.pair.energy.0) }
{
    candidate.pair.time < best.pair.time
        || (candidate.pair.time == best.pair.time && candidate.pair.energy < best.pair.energy)
}

// Down from `from`, past the entries of the second list that do not fit beside an energy within the limit. How many are left: a count,
// and so 0 where none fits.
pub fn fitting(more_energies: &[u32], energy: Energy, limit: Energy, from: usize) -> usize
    requires from_in_bounds { from ≤ length more_energies.now }
    requires by_index { (k : ℕ) → k < from → energy.0 + get_or more_energies.now k 0 < 2 ^ 32 }
    ensures upper_bound { result ≤ from }
    ensures by_index_2 { (k : ℕ) → result ≤ k → k < from → limit.0 < energy.0 + get_or more_energies.now k 0 }
    ensures result_bound { 0 < result → energy.0 + get_or more_energies.now (result - 1) 0 ≤ limit.0 }
{
    for j in (0..from).rev() {
        if energy + Energy(more_energies[j]) <= limit {
            return j + 1;
        }
    }
    0
}

// One walk up the first list and down the second: as the first entry's energy rises, fewer entries of the second fit beside it,
// and the last that fits is the quickest.
pub fn best_sum(
    times: &[u32],
    energies: &[u32],
    more_times: &[u32],
    more_energies: &[u32],
    limit: Energy,
) -> Option<(usize, usize)>
    requires list { IsList above_all times.now energies.now }
    requires list_2 { IsList above_all more_times.now more_energies.now }
    ensures { BestFound times.now energies.now more_times.now more_energies.now limit.0 result }
{
    if times.is_empty() {
        return None;
    }
    let mut j = fitting(
        more_energies,
        Energy(energies[0]),
        limit,
        more_energies.len(),
    );
    if j == 0 {
        return None;
    }
    let mut best = sum_at(times, energies, more_times, more_energies, 0, j - 1);
    for i in 1..times.len() {
        j = fitting(more_energies, Energy(energies[i]), limit, j);
        if j == 0 {
            break;
        }
        let candidate = sum_at(times, energies, more_times, more_energies, i, j - 1);
        if comes_before(candidate, best) {
            best = candidate;
        }
    }
    Some((best.first, best.second))
}

// Limited join: the form of both lists, then the best sum of the two within the limit.
ghost use Rattle.joins.specs.Answers.{LimitedJoin, sum_number_of, sum_time_of, sum_energy_of};

use crate::SumRefusal;
use crate::form::check_form;
use lists::sums::{best_sum, sum_at};
use paths::energy::Energy;
use paths::pair::Pair;

// Limited join, for all inputs.
pub fn limited_join(
    times: &[u32],
    energies: &[u32],
    more_times: &[u32],
    more_energies: &[u32],
    limit: u32,
) -> Result<Pair, SumRefusal>
    ensures { LimitedJoin
        times.now
        energies.now
        more_times.now
        more_energies.now
        limit
        (sum_number_of result)
        (sum_time_of result)
        (sum_energy_of result) }
{
    check_form(times, energies, more_times, more_energies)?;
    let Some((i, j)) = best_sum(times, energies, more_times, more_energies, Energy(limit)) else {
        return Err(SumRefusal::OverLimit);
    };
    let sum = sum_at(times, energies, more_times, more_energies, i, j);
    Ok(sum.pair)
}

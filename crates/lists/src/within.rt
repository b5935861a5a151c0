// How many leading entries of a list are within a limit.
ghost use Rattle.lists.specs.working.Sums.{Leading};

use paths::energy::Energy;

pub fn within(energies: &[u32], limit: Energy) -> usize
    ensures { Leading energies.now limit.0 result }
{
    energies
        .iter()
        .take_while(|energy| Energy(**energy) <= limit)
        .count()
}

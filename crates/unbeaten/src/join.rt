// Join: the unbeaten sums of two lists, written to two lent slices. Nothing is written before the room is known, so the sums are gone
// through twice, each time from the fast end: the best sum below a bound, then the best below that one's energy, and so on.
// Where entries stand close, each sum is touched at most once, and each 2,048 seconds cost two walks of both lists; where they stand
// further apart, each entry costs one walk.
ghost use Rattle.joins.specs.Answers.{Join, join_number_of, join_count_of};

use crate::noting::ListSums;
use joins::JoinRefusal;
use joins::form::check_form;
use spans::SECONDS;
use spans::sums::{count_reasoned, fill_reasoned};

// Join: fills the first places of the two lent slices with the join of two lists, or refuses and leaves them as they are.
pub fn join(
    times: &[u32],
    energies: &[u32],
    more_times: &[u32],
    more_energies: &[u32],
    out_times: &mut [u32],
    out_energies: &mut [u32],
) -> Result<u32, JoinRefusal>
    ensures { Join times.now energies.now more_times.now more_energies.now
        out_times.old
        out_energies.old
        (join_number_of result)
        (join_count_of result)
        out_times.new
        out_energies.new }
{
    // Made and used first of all, so that the compiler makes the frame at the start.
    let mut leasts: [u32; SECONDS] = [0; SECONDS];
    check_form(times, energies, more_times, more_energies)?;
    let sums = ListSums {
        times,
        energies,
        more_times,
        more_energies,
    };
    let count = count_reasoned(&sums, &mut leasts);
    let room = out_times.len().min(out_energies.len());
    if room < count as usize {
        return Err(JoinRefusal::NoRoom);
    }
    fill_reasoned(&sums, count, out_times, out_energies, &mut leasts);
    Ok(count)
}

// Sums of two lists noted by their times: one pass over the sums of a span tells of many entries of the join.
ghost use Rattle.std.specs.Prelude.{◌≡◌, ◌≤◌, length, ⊤};
ghost use Rattle.lists.specs.working.Lists.{IsList};
ghost use Rattle.spans.specs.working.Noting.{span_seconds, EntrySum, NoneBefore, Lowered};
ghost use Rattle.joins.specs.Form.{most_number};
ghost use Rattle.unbeaten.specs.working.Noting.{sums_with, ListsSum, TwoLists};
ghost use Rattle.std.proofs.Common.{rules};

use lists::sums::{best_sum, fitting, sum_at};
use paths::energy::Energy;
use paths::pair::Pair;
use paths::seconds::Seconds;
use spans::sums::ReasonedSums;
use spans::{SECONDS, lower, seconds_behind};

// Lists of fewer entries together have too few sums for a span to pay; those of more are all treated alike.
const SHORT: usize = 64;

const LONG: usize = 2048;

// The sums of one entry and the first entries of the second list, from the quickest on. Those behind the span are slower still.
fn note_entry(
    time: Seconds,
    energy: Energy,
    more_times: &[u32],
    more_energies: &[u32],
    end: usize,
    first: Seconds,
    leasts: &mut [u32; SECONDS],
)
    requires list { IsList most_number more_times.now more_energies.now }
    requires time_le_most_number { (time.0 ≤ most_number) × (energy.0 ≤ most_number) × (end ≤ length more_times.now) }
    requires none_before { NoneBefore (EntrySum (sums_with time.0 energy.0 more_times.now more_energies.now) 0 end) first.0 }
    requires leasts_len { length leasts.old ≡ span_seconds }
    ensures { Lowered (EntrySum (sums_with time.0 energy.0 more_times.now more_energies.now) 0 end) first.0
        leasts.old
        leasts.new }
{
    for j in (0..end).rev() {
        let second = seconds_behind(first, time + Seconds(more_times[j]));
        if second >= SECONDS {
            return;
        }
        lower(leasts, second, energy + Energy(more_energies[j]));
    }
}

// The sums of two lists in slices.
#[derive(Clone, Copy)]
pub struct ListSums<'a> {
    pub times: &'a [u32],
    pub energies: &'a [u32],
    pub more_times: &'a [u32],
    pub more_energies: &'a [u32],
}

impl ReasonedSums for ListSums<'_> {
    // Nothing is told: nobody asks why two lists have no sum within a limit.
    type Missing = ();

    ghost has = { λ s. ListsSum s.times.now s.energies.now s.more_times.now s.more_energies.now };

    ghost formed = { λ s. TwoLists s.times.now s.energies.now s.more_times.now s.more_energies.now };

    ghost says = { λ _ _ _. ⊤ };

    fn best(&self, limit: Energy) -> Result<Pair, ()> {
        let Some((i, j)) = best_sum(
            self.times,
            self.energies,
            self.more_times,
            self.more_energies,
            limit,
        ) else {
            return Err(());
        };
        let sum = sum_at(
            self.times,
            self.energies,
            self.more_times,
            self.more_energies,
            i,
            j,
        );
        Ok(sum.pair)
    }

    // As the first entry's energy rises, fewer entries of the second list fit beside it. Kept out of the search for the next sum, whose
    // values would take its registers.
    #[inline(never)]
    fn note(&self, limit: Energy, first: Seconds, leasts: &mut [u32; SECONDS]) {
        let mut j = self.more_energies.len();
        for i in 0..self.times.len() {
            let energy = Energy(self.energies[i]);
            j = fitting(self.more_energies, energy, limit, j);
            if j == 0 {
                return;
            }
            note_entry(
                Seconds(self.times[i]),
                energy,
                self.more_times,
                self.more_energies,
                j,
                first,
                leasts,
            );
        }
    }

    // A span saves a walk of both lists for each entry in it.
    fn close(&self) -> usize {
        let walk = self.times.len() + self.more_times.len();
        if walk < SHORT { 0 } else { walk.min(LONG) / 8 }
    }

    ghost small = { Prim.search rules };
}

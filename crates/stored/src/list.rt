// One stored list where it stands in label bytes that passed their tests.
ghost use Rattle.std.specs.Prelude.{◌≡◌, ◌≤◌, ◌<◌};
ghost use Rattle.forest.specs.LabelFile.{count_at, time_at, energy_at};
ghost use Rattle.stored.specs.ListForm.{most_count, most_figure};
ghost use Rattle.stored.specs.working.Formed.{ListFits};

use crate::stored::{count_at, energy_at, time_at};
use paths::energy::Energy;
use paths::seconds::Seconds;

// The list at a byte.
#[derive(Clone, Copy)]
pub struct StoredList<'a> {
    pub labels: &'a [u8],
    pub at: usize,
    ghost fits: { ListFits labels.now at },
}

impl<'a> StoredList<'a> {
    // How many entries it has.
    #[tactic(auto, using(crate::proofs::InList::count_inside, crate::proofs::InList::count_small))]
    pub fn count(&self) -> usize
        ensures value { result ≡ count_at self.now.labels.now self.now.at }
        ensures small { result ≤ most_count }
    {
        count_at(self.labels, self.at) as usize
    }

    // The time of entry j.
    #[tactic(auto, using(crate::proofs::InList::time_inside, crate::proofs::InList::time_small))]
    pub fn time(&self, j: usize) -> Seconds
        requires { j < count_at self.now.labels.now self.now.at }
        ensures value { result.0 ≡ time_at self.now.labels.now self.now.at j }
        ensures small { result.0 ≤ most_figure }
    {
        time_at(self.labels, self.at, j)
    }

    // Its energy.
    #[tactic(auto, using(crate::proofs::InList::energy_inside, crate::proofs::InList::energy_small))]
    pub fn energy(&self, j: usize) -> Energy
        requires { j < count_at self.now.labels.now self.now.at }
        ensures value { result.0 ≡ energy_at self.now.labels.now self.now.at j }
        ensures small { result.0 ≤ most_figure }
    {
        energy_at(self.labels, self.at, j)
    }
}

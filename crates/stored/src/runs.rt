// Runs of short lists, passed with few tests: lists of one entry each, and lists of at most two. A list that ends a run is left to the whole test.
ghost use Rattle.std.specs.Prelude.{◌≡◌, true, ℕ, ◌≤◌, ◌<◌, length, IfSome};
ghost use Rattle.forest.specs.LabelVersions.{least_entry_energy};
ghost use Rattle.network.specs.NetworkFile.{version_of};
ghost use Rattle.forest.specs.LabelFile.{energy_end};
ghost use Rattle.stored.specs.ListForm.{most_bytes, most_count, entry_number};
ghost use Rattle.stored.specs.working.Scanned.{PassedSome};
ghost use Rattle.stored.specs.working.Runs.{EnergyFollows, Leading, SingleList, ShortList, Quick, OneMore};

use crate::stored::{
    MOST_FIGURE, SHORT_BYTES, count_at, energy_at, energy_fits, entries_end, time_at, time_fits,
};
use paths::energy::Energy;
use paths::seconds::Seconds;

// Lists that are passed one after another, none with a fault: how many, the byte behind them, and the entries counted.
#[derive(Clone, Copy)]
pub struct Run {
    pub lists: u32,
    pub at: usize,
    pub total: usize,
}

impl Run {
    // One list more, of so many entries.
    fn more(self, count: u32) -> Run
        requires at_le_most_bytes { (self.at ≤ most_bytes) × (self.total ≤ most_bytes) }
        requires lists_lt_most_bytes { (self.lists < most_bytes) × (count ≤ most_count) }
        ensures { OneMore self.lists self.at self.total count result.lists result.at result.total }
    {
        Run {
            lists: self.lists + 1,
            at: entries_end(self.at, count as usize),
            total: self.total + count as usize,
        }
    }
}

// An energy in range, and above the one before it.
fn energy_follows(before: Energy, energy: Energy) -> bool
    ensures { result ≡ true → EnergyFollows before.0 energy.0 }
{
    energy <= Energy(MOST_FIGURE) && before < energy
}

// Whether the first entry keeps the rules. Tests that are joined by & have no branch that could be guessed wrong.
#[tactic(auto, using(crate::proofs::ShortLists::first_passes))]
fn first_fits(labels: &[u8], least: Energy, at: usize) -> bool
    requires at_in_bounds { energy_end labels.now at 0 ≤ length labels.now }
    requires least_value { least.0 ≡ least_entry_energy (version_of labels.now) }
    ensures { result ≡ true → entry_number labels.now at 0 ≡ 0 }
{
    let time = time_at(labels, at, 0);
    let energy = energy_at(labels, at, 0);
    time_fits(Seconds(MOST_FIGURE + 1), time) & energy_fits(least, energy)
}

// Whether the second does, provided that the first does: what follows a fit energy is no less than the least.
#[tactic(auto, using(crate::proofs::ShortLists::second_passes))]
fn second_fits(labels: &[u8], at: usize) -> bool
    requires { energy_end labels.now at 1 ≤ length labels.now }
    ensures { result ≡ true → entry_number labels.now at 0 ≡ 0 → entry_number labels.now at 1 ≡ 0 }
{
    let time = time_at(labels, at, 1);
    let energy = energy_at(labels, at, 1);
    time_fits(time_at(labels, at, 0), time) & energy_follows(energy_at(labels, at, 0), energy)
}

// How many of the first two places for entries hold some that keep the rules, up to the first that does not.
#[tactic(auto, using(crate::proofs::ShortLists::product_small, crate::proofs::ShortLists::leading_counted))]
fn leading(labels: &[u8], least: Energy, at: usize) -> u32
    requires at_in_bounds { energy_end labels.now at 1 ≤ length labels.now }
    requires least_value { least.0 ≡ least_entry_energy (version_of labels.now) }
    ensures { Leading labels.now at result }
{
    let first = u32::from(first_fits(labels, least, at));
    let second = u32::from(second_fits(labels, at));
    first + first * second
}

// The count of a list of one entry, which keeps the rules.
#[tactic(auto, using(crate::proofs::ShortLists::single_list, crate::proofs::ShortLists::single_passes))]
fn single_count(labels: &[u8], least: Energy, at: usize) -> Option<u32>
    requires at_in_bounds { energy_end labels.now at 0 ≤ length labels.now }
    requires least_value { least.0 ≡ least_entry_energy (version_of labels.now) }
    ensures single { IfSome result (λ count. SingleList labels.now at) }
    ensures short { IfSome result (ShortList labels.now at) }
{
    (count_at(labels, at) == 1 && first_fits(labels, least, at)).then_some(1)
}

// The count of a list of at most two entries, which keep the rules.
#[tactic(auto, using(crate::proofs::ShortLists::short_told))]
fn short_count(labels: &[u8], least: Energy, at: usize) -> Option<u32>
    requires at_in_bounds { energy_end labels.now at 1 ≤ length labels.now }
    requires least_value { least.0 ≡ least_entry_energy (version_of labels.now) }
    ensures { IfSome result (ShortList labels.now at) }
{
    let count = count_at(labels, at);
    (count <= leading(labels, least, at)).then_some(count)
}

// All of the lists if they stand in so many bytes though each has two entries, or else none.
fn quick_lists(bytes: usize, lists: u32) -> u32
    ensures { Quick bytes lists result }
{
    if bytes < SHORT_BYTES * lists as usize {
        return 0;
    }
    lists
}

// Passes over lists, each as long as it is told, up to the first that is told no count.
fn pass<F: Fn(usize) -> Option<u32>>(
    labels: &[u8],
    at: usize,
    lists: u32,
    total: usize,
    count_of: F,
) -> Run
    requires at_in_bounds { (at ≤ length labels.now) × (length labels.now ≤ most_bytes) }
    requires total_le_at { total ≤ at }
    requires may_be_asked { (here : ℕ) → energy_end labels.now here 1 ≤ length labels.now → F.pre count_of here }
    requires tells { (here : ℕ) (r : _) → F.post count_of here r → IfSome r (ShortList labels.now here) }
    ensures { PassedSome labels.now at lists total result.lists result.at result.total }
{
    let mut run = Run {
        lists: 0,
        at,
        total,
    };
    for _ in 0..quick_lists(labels.len() - at, lists) {
        let Some(count) = count_of(run.at) else {
            return run;
        };
        run = run.more(count);
    }
    run
}

// Passes over lists of one entry each, up to the first that is none. The next place does not wait for a count.
pub fn pass_single(labels: &[u8], least: Energy, at: usize, lists: u32, total: usize) -> Run
    requires at_in_bounds { (at ≤ length labels.now) × (length labels.now ≤ most_bytes) }
    requires total_le_at { total ≤ at }
    requires least_value { least.0 ≡ least_entry_energy (version_of labels.now) }
    ensures { PassedSome labels.now at lists total result.lists result.at result.total }
{
    pass(
        labels,
        at,
        lists,
        total,
        |here| single_count(labels, least, here),
    )
}

// Passes over lists of at most two entries, up to the first that is longer or has a fault.
pub fn pass_short(labels: &[u8], least: Energy, at: usize, lists: u32, total: usize) -> Run
    requires at_in_bounds { (at ≤ length labels.now) × (length labels.now ≤ most_bytes) }
    requires total_le_at { total ≤ at }
    requires least_value { least.0 ≡ least_entry_energy (version_of labels.now) }
    ensures { PassedSome labels.now at lists total result.lists result.at result.total }
{
    pass(
        labels,
        at,
        lists,
        total,
        |here| short_count(labels, least, here),
    )
}

// Join's 41 and 42: what the two slices of a list keep to.
ghost use Rattle.std.specs.Prelude.{◌≡◌, ◌<◌, length};
ghost use Rattle.joins.specs.Form.{follows, entry_fits, well_formed, join_number};
ghost use Rattle.joins.specs.Refusals.{form_refusal_number, form_number_of};

use paths::energy::Energy;
use paths::seconds::Seconds;

// The most entries of a list, and the largest number in it.
const MOST_ENTRIES: usize = 4095;

const MOST_NUMBER: u32 = 1073741823;

// Why two lists in slices are refused: 41 or 42.
#[derive(Clone, Copy, PartialEq, Eq)]
pub enum FormRefusal {
    LengthsDiffer,
    IllFormed,
}

impl FormRefusal {
    // The number by which a call tells it.
    pub fn number(self) -> u32
        ensures { result ≡ form_refusal_number self }
    {
        match self {
            FormRefusal::LengthsDiffer => 41,
            FormRefusal::IllFormed => 42,
        }
    }
}

// Entry i stands above the energy before it and below the time before it.
fn follows(times: &[u32], energies: &[u32], i: usize) -> bool
    requires i_in_bounds { i < length times.now }
    requires times_len { length times.now ≡ length energies.now }
    ensures { result ≡ follows times.now energies.now i }
{
    i == 0
        || (Energy(energies[i - 1]) < Energy(energies[i])
            && Seconds(times[i]) < Seconds(times[i - 1]))
}

// Entry i keeps the rules of 42.
#[tactic(auto, unfolding(crate::specs::Form::entry_fits))]
fn entry_fits(times: &[u32], energies: &[u32], i: usize) -> bool
    requires i_in_bounds { i < length times.now }
    requires times_len { length times.now ≡ length energies.now }
    ensures { result ≡ entry_fits times.now energies.now i }
{
    times[i] <= MOST_NUMBER && energies[i] <= MOST_NUMBER && follows(times, energies, i)
}

// The list keeps the rules of 42.
#[tactic(auto, unfolding(crate::specs::Form::well_formed))]
pub fn well_formed(times: &[u32], energies: &[u32]) -> bool
    requires { length times.now ≡ length energies.now }
    ensures { result ≡ well_formed times.now energies.now }
{
    times.len() <= MOST_ENTRIES && (0..times.len()).all(|i| entry_fits(times, energies, i))
}

// 41, 42, or both lists are formed: the first list before the second at each number.
#[tactic(auto, unfolding(crate::specs::Form::join_number))]
pub fn check_form(
    times: &[u32],
    energies: &[u32],
    more_times: &[u32],
    more_energies: &[u32],
) -> Result<(), FormRefusal>
    ensures { form_number_of result ≡ join_number times.now energies.now more_times.now more_energies.now }
{
    if times.len() != energies.len() || more_times.len() != more_energies.len() {
        return Err(FormRefusal::LengthsDiffer);
    }
    if !well_formed(times, energies) || !well_formed(more_times, more_energies) {
        return Err(FormRefusal::IllFormed);
    }
    Ok(())
}

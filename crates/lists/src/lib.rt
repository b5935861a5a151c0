// Trade-off lists in two slices, times and energies: the best sum under a limit.
// A list has energy strictly rising and time strictly falling.
#![tactic(auto)]

// More than the energy of any sum that is asked for; a list with numbers up to it has sums of 32 bits.
pub const ABOVE_ALL: u32 = 2147483647;

pub mod sums;
pub mod within;

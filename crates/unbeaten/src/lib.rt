// Join: the unbeaten sums of two trade-off lists, counted and written second by second.
#![tactic(auto)]

pub mod join;
pub mod noting;
#[cfg(test)]
mod tests;

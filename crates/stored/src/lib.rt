// The stored lists of a label file: where each stands, and what it holds.
#![tactic(auto)]

pub mod list;
pub mod place;
pub mod refusal;
pub mod runs;
pub mod set;
pub mod stored;

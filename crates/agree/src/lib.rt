// The test of one stored list by the lists one road further.
#![tactic(auto)]

pub mod agree;
pub mod cover;

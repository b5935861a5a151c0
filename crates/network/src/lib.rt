// The network file: every byte has one reading.
#![tactic(auto)]

pub mod header;
pub mod network;
pub mod refusal;
pub mod roads;
pub mod versions;

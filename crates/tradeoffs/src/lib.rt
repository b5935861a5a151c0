// The whole trade-off list of two junctions on an accepted label set, with the tables of one call at hand.
#![tactic(auto)]

pub mod list;
pub mod noting;

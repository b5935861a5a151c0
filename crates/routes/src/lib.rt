// The first route of an unbeaten pair on an accepted label set, with the tables of one call at hand.
#![tactic(auto)]

pub mod route;

// Whether a path takes no more than a pair, on an accepted label set with the tables of one call at hand.
#![tactic(auto)]

pub mod reach;

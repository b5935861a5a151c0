// The junctions numbered so that the descendants of each stand right behind it.
#![tactic(auto)]

pub mod number;

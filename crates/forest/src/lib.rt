// The forest of a label file: its parents, read once, and their depths.
#![tactic(auto)]

pub mod feet;
pub mod parents;
pub mod versions;

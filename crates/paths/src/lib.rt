// Seconds and energy: the two units of a road, which never meet in one sum or comparison, and the pair of both. What a path, a
// trade-off list and a best answer are is said in specs/, and their theory in proofs/.
#![tactic(auto)]

pub mod energy;
pub mod pair;
pub mod seconds;

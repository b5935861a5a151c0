// What every call shares: refusal numbers are given in a fixed order of tests, and a lent slice is filled from its first place.
// Definitions in specs/, laws in proofs/.
#![tactic(auto)]

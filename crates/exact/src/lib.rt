// Is every stored list the trade-off list of its two junctions? Labels are their own certificate.
#![tactic(auto)]

pub mod sweep;

// The label file: every byte has one reading.
#![tactic(auto)]

pub mod form;
pub mod show;

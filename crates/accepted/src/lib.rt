// The check with its tables left filled, and Batch, Route and Trade-off list on a set that it accepts. A call of `labels` is the
// check, then one of these.
#![tactic(auto)]

pub mod accept;
pub mod answers;
pub mod batch;
pub mod filling;
pub mod list;
pub mod route;

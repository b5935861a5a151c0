// Decimal numbers, spaces and lines, as query lines and printed lines have them.
#![tactic(auto)]

// The three numbers of a query line.
#[derive(Clone, Copy)]
pub struct Query {
    pub start: u32,
    pub finish: u32,
    pub limit: u32,
}

pub mod read;
pub mod write;

// What the program `answer` prints: one reply for each query line, on files that were checked once.
#![tactic(auto)]

// The check's number, and how many bytes of the buffer the first line takes. No Result: a refusal has a line, and so a length, too.
#[derive(Clone, Copy)]
pub struct Begun {
    pub number: u32,
    pub used: usize,
}

// Where the next line starts, and how many bytes of the buffer are used.
#[derive(Clone, Copy)]
pub struct Filled {
    pub next: usize,
    pub used: usize,
}

// How many bytes of the input were read, and how many bytes were handed on in all.
#[derive(Clone, Copy)]
pub struct HandedOn {
    pub read: usize,
    pub total: usize,
}

pub mod begin;
pub mod fill;
pub mod lines;
pub mod program;
pub mod reply;

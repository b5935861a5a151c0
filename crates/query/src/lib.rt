// Queries on an accepted label set, with the tables of one call at hand: the best answer under a limit. Every function here stands on
// an accepted set, so that ten thousand queries cost one check.
#![tactic(auto)]

ghost use Rattle.std.specs.Prelude.{◌≡◌};
ghost use Rattle.query.specs.NoAnswers.{number_without};

// Why a limited query has no best pair.
#[derive(Clone, Copy, PartialEq, Eq)]
pub enum NoAnswer {
    OffMap,
    NotConnected,
    OverLimit,
}

impl NoAnswer {
    // The number that callers know it by.
    pub fn number(self) -> u32
        ensures { result ≡ number_without self }
    {
        match self {
            NoAnswer::OffMap => 21,
            NoAnswer::NotConnected => 22,
            NoAnswer::OverLimit => 23,
        }
    }
}

// The lists that tell of the paths between two junctions: none; that of one junction for the other above it, at a byte; or those of
// both for their common ancestors, from two bytes on, so many on each side, and the deepest of these ancestors, where the ways meet.
#[derive(Clone, Copy)]
pub enum Between {
    Nothing,
    List(usize),
    Lists {
        near: usize,
        far: usize,
        levels: u32,
        meeting: usize,
    },
}

pub mod above;
pub mod across;
pub mod climbing;
pub mod direct;
pub mod limited;
pub mod list_pair;
pub mod passing;
pub mod places;

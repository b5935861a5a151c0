// The two joins of trade-off lists as they are called: what they ask of their lists, why they refuse, and Limited join. Join's code, which
// goes through the sums second by second, is the crate `unbeaten`.
#![tactic(auto)]

ghost use Rattle.std.specs.Prelude.{◌≡◌};
ghost use Rattle.joins.specs.Refusals.{join_refusal_number, sum_refusal_number, join_refusal_of, sum_refusal_of};

use crate::form::FormRefusal;

// Why Join refuses.
#[derive(Clone, Copy, PartialEq, Eq)]
pub enum JoinRefusal {
    LengthsDiffer,
    IllFormed,
    NoRoom,
}

impl JoinRefusal {
    // The number by which a call tells it.
    pub fn number(self) -> u32
        ensures { result ≡ join_refusal_number self }
    {
        match self {
            JoinRefusal::LengthsDiffer => 41,
            JoinRefusal::IllFormed => 42,
            JoinRefusal::NoRoom => 24,
        }
    }
}

impl From<FormRefusal> for JoinRefusal {
    ghost from_gives = { λ form refusal. refusal ≡ join_refusal_of form };

    fn from(form: FormRefusal) -> JoinRefusal {
        match form {
            FormRefusal::LengthsDiffer => JoinRefusal::LengthsDiffer,
            FormRefusal::IllFormed => JoinRefusal::IllFormed,
        }
    }
}

// Why Limited join refuses.
#[derive(Clone, Copy, PartialEq, Eq)]
pub enum SumRefusal {
    LengthsDiffer,
    IllFormed,
    OverLimit,
}

impl SumRefusal {
    // The number by which a call tells it.
    pub fn number(self) -> u32
        ensures { result ≡ sum_refusal_number self }
    {
        match self {
            SumRefusal::LengthsDiffer => 41,
            SumRefusal::IllFormed => 42,
            SumRefusal::OverLimit => 23,
        }
    }
}

impl From<FormRefusal> for SumRefusal {
    ghost from_gives = { λ form refusal. refusal ≡ sum_refusal_of form };

    fn from(form: FormRefusal) -> SumRefusal {
        match form {
            FormRefusal::LengthsDiffer => SumRefusal::LengthsDiffer,
            FormRefusal::IllFormed => SumRefusal::IllFormed,
        }
    }
}

pub mod form;
pub mod limited;

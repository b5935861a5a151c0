// What the check, Route and Trade-off list answer, and why they refuse.
ghost use Rattle.std.specs.Prelude.{◌≡◌};
ghost use Rattle.accepted.specs.CheckRefusals.{check_refusal_number};
ghost use Rattle.accepted.specs.RouteAnswers.{route_refusal_number};
ghost use Rattle.accepted.specs.ListAnswers.{list_refusal_number};
ghost use Rattle.accepted.specs.declared.answers.CheckRefusal.TheVariants as check;
ghost use Rattle.accepted.specs.declared.answers.RouteRefusal.TheVariants as route;
ghost use Rattle.accepted.specs.declared.answers.ListRefusal.TheVariants as list;

use network::refusal::NetworkRefusal;
use paths::pair::Pair;
use query::NoAnswer;
use stored::refusal::LabelRefusal;

// Why the check refuses.
#[derive(Clone, Copy, PartialEq, Eq)]
pub enum CheckRefusal {
    Network(NetworkRefusal),
    Labels(LabelRefusal),
    // A stored list is not the trade-off list of its two junctions.
    WrongList,
}

impl CheckRefusal {
    pub fn number(self) -> u32
        ensures { result ≡ check_refusal_number self }
    {
        match self {
            CheckRefusal::Network(refusal) => refusal.number(),
            CheckRefusal::Labels(refusal) => refusal.number(),
            CheckRefusal::WrongList => 18,
        }
    }
}

impl From<NetworkRefusal> for CheckRefusal {
    ghost from_gives = { λ refusal given. given ≡ check.Network refusal };

    fn from(refusal: NetworkRefusal) -> CheckRefusal {
        CheckRefusal::Network(refusal)
    }
}

impl From<LabelRefusal> for CheckRefusal {
    ghost from_gives = { λ refusal given. given ≡ check.Labels refusal };

    fn from(refusal: LabelRefusal) -> CheckRefusal {
        CheckRefusal::Labels(refusal)
    }
}

// A best pair, and how many junctions its first route has.
#[derive(Clone, Copy, PartialEq, Eq)]
pub struct FoundRoute {
    pub pair: Pair,
    pub count: u32,
}

// Why Route gives none.
#[derive(Clone, Copy, PartialEq, Eq)]
pub enum RouteRefusal {
    NotAccepted(CheckRefusal),
    NoAnswer(NoAnswer),
    NoRoom,
}

impl RouteRefusal {
    pub fn number(self) -> u32
        ensures { result ≡ route_refusal_number self }
    {
        match self {
            RouteRefusal::NotAccepted(refusal) => refusal.number(),
            RouteRefusal::NoAnswer(why) => why.number(),
            RouteRefusal::NoRoom => 24,
        }
    }
}

impl From<CheckRefusal> for RouteRefusal {
    ghost from_gives = { λ refusal given. given ≡ route.NotAccepted refusal };

    fn from(refusal: CheckRefusal) -> RouteRefusal {
        RouteRefusal::NotAccepted(refusal)
    }
}

impl From<NoAnswer> for RouteRefusal {
    ghost from_gives = { λ why given. given ≡ route.NoAnswer why };

    fn from(why: NoAnswer) -> RouteRefusal {
        RouteRefusal::NoAnswer(why)
    }
}

// Why Trade-off list gives none.
#[derive(Clone, Copy, PartialEq, Eq)]
pub enum ListRefusal {
    NotAccepted(CheckRefusal),
    OffMap,
    NotConnected,
    NoRoom,
}

impl ListRefusal {
    pub fn number(self) -> u32
        ensures { result ≡ list_refusal_number self }
    {
        match self {
            ListRefusal::NotAccepted(refusal) => refusal.number(),
            ListRefusal::OffMap => 21,
            ListRefusal::NotConnected => 22,
            ListRefusal::NoRoom => 24,
        }
    }
}

impl From<CheckRefusal> for ListRefusal {
    ghost from_gives = { λ refusal given. given ≡ list.NotAccepted refusal };

    fn from(refusal: CheckRefusal) -> ListRefusal {
        ListRefusal::NotAccepted(refusal)
    }
}

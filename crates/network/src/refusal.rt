// Why a network file is refused.
ghost use Rattle.std.specs.Prelude.{◌≡◌};
ghost use Rattle.network.specs.NetworkRefusal.{refusal_number};

#[derive(Clone, Copy, PartialEq, Eq)]
pub enum NetworkRefusal {
    // Too few or too many bytes.
    Length,
    Mark,
    Version,
    // How many junctions or roads there are.
    Counts,
    // The ends of a record, or its place behind the one before.
    Ends,
    // The time or the energy of a record.
    Figures,
}

impl NetworkRefusal {
    // The number that a call gives for it.
    pub fn number(self) -> u32
        ensures { result ≡ refusal_number self }
    {
        match self {
            NetworkRefusal::Length => 1,
            NetworkRefusal::Mark => 2,
            NetworkRefusal::Version => 3,
            NetworkRefusal::Counts => 4,
            NetworkRefusal::Ends => 5,
            NetworkRefusal::Figures => 6,
        }
    }
}

// What labels are refused for, and the number of each refusal.
ghost use Rattle.std.specs.Prelude.{◌≡◌};
ghost use Rattle.stored.specs.Refusal.{refusal_number};

// What is wrong with labels.
#[derive(Clone, Copy, PartialEq, Eq)]
pub enum LabelRefusal {
    // Too few or too many bytes.
    Bytes,
    Mark,
    // A version that is not served.
    Version,
    // Another network's, or a count of junctions out of range.
    Network,
    Parents,
    // A road joins no ancestor and descendant.
    Road,
    Lists,
}

impl LabelRefusal {
    pub fn number(self) -> u32
        ensures { result ≡ refusal_number self }
    {
        match self {
            LabelRefusal::Bytes => 11,
            LabelRefusal::Mark => 12,
            LabelRefusal::Version => 13,
            LabelRefusal::Network => 14,
            LabelRefusal::Parents => 15,
            LabelRefusal::Road => 16,
            LabelRefusal::Lists => 17,
        }
    }
}

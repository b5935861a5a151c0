ghost use Rattle.std.specs.Prelude.{◌≡◌, ◌-◌, ◌≤◌};

use crate::energy::Energy;
use crate::seconds::Seconds;
use std::ops::Sub;

// A time beside an energy. Pairs are in the order of answers: the less time comes first, and at equal times the less energy.
#[derive(Clone, Copy, PartialEq, Eq, PartialOrd, Ord)]
pub struct Pair {
    pub time: Seconds,
    pub energy: Energy,
}

// What is left of the whole behind a part, which the caller keeps no larger in either figure.
impl Sub for Pair {
    type Output = Pair;

    ghost can_sub = { λ whole part. (part.time.0 ≤ whole.time.0) × (part.energy.0 ≤ whole.energy.0) };

    ghost sub_gives = { λ whole part left. (left.time.0 ≡ whole.time.0 - part.time.0) × (left.energy.0 ≡ whole.energy.0 - part.energy.0) };

    fn sub(self, part: Pair) -> Pair {
        Pair {
            time: Seconds(self.time.0 - part.time.0),
            energy: Energy(self.energy.0 - part.energy.0),
        }
    }
}

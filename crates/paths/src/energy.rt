ghost use Rattle.std.specs.Prelude.{◌≡◌, ◌+◌, ◌<◌, ◌^◌};

use std::ops::Add;

// An energy in units of 10 Wh.
#[derive(Clone, Copy, PartialEq, Eq, PartialOrd, Ord)]
pub struct Energy(pub u32);

// The sum, which the caller keeps within 32 bits.
impl Add for Energy {
    type Output = Energy;

    ghost can_add = { λ a b. a.0 + b.0 < 2 ^ 32 };

    ghost add_gives = { λ a b sum. sum.0 ≡ a.0 + b.0 };

    fn add(self, other: Energy) -> Energy {
        Energy(self.0 + other.0)
    }
}

ghost use Rattle.std.specs.Prelude.{◌≡◌, ◌+◌, ◌<◌, ◌^◌};

use std::ops::Add;

// A time in seconds.
#[derive(Clone, Copy, PartialEq, Eq, PartialOrd, Ord)]
pub struct Seconds(pub u32);

// The sum, which the caller keeps within 32 bits.
impl Add for Seconds {
    type Output = Seconds;

    ghost can_add = { λ a b. a.0 + b.0 < 2 ^ 32 };

    ghost add_gives = { λ a b sum. sum.0 ≡ a.0 + b.0 };

    fn add(self, other: Seconds) -> Seconds {
        Seconds(self.0 + other.0)
    }
}

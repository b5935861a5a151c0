// The next sum below a bound, and the list of all sums, for a caller whose sums give no reason.
ghost use Rattle.std.specs.Prelude.{◌≡◌};
ghost use Rattle.paths.specs.Weights.{pair};
ghost use Rattle.spans.specs.working.Below.{FiguresFit};

use crate::sums::{Sums, count_below, fill_below, next_below};
use crate::{SECONDS, lower, no_span, seconds_behind};
use paths::energy::Energy;
use paths::pair::Pair;
use paths::seconds::Seconds;

// A set of one sum.
#[derive(Drop)]
struct OneSum(Pair);

impl Sums for OneSum {
    ghost has = { λ s p. p ≡ pair s.0.time.0 s.0.energy.0 };

    ghost formed = { λ s. FiguresFit (pair s.0.time.0 s.0.energy.0) };

    fn best(&self, limit: Energy) -> Option<Pair> {
        if self.0.energy <= limit {
            Some(self.0)
        } else {
            None
        }
    }

    fn note(&self, limit: Energy, first: Seconds, leasts: &mut [u32; SECONDS]) {
        if limit < self.0.energy {
            return;
        }
        let second = seconds_behind(first, self.0.time);
        if second < SECONDS {
            lower(leasts, second, self.0.energy);
        }
    }

    fn close(&self) -> usize {
        256
    }

    ghost small = { λ s p f e. rw e f };
}

#[test]
fn next_below_of_one_sum(rt: HostRuntime) {
    let sum = Pair {
        time: Seconds(300),
        energy: Energy(7),
    };
    let mut leasts = [0; SECONDS];
    let mut span = no_span();
    let over = next_below(&OneSum(sum), Energy(7), &mut span, &mut leasts);
    assert!(rt; over.is_none(), "its own energy is not below the bound");
    // What was lent stands as it did, so the search goes on with it.
    let found = next_below(&OneSum(sum), Energy(8), &mut span, &mut leasts);
    assert!(rt; found == Some(sum), "it is below the next bound");
}

#[test]
fn list_of_one_sum(rt: HostRuntime) {
    let sums = OneSum(Pair {
        time: Seconds(300),
        energy: Energy(7),
    });
    let mut leasts = [0; SECONDS];
    let (mut times, mut energies) = ([1, 2], [3, 4]);
    let count = count_below(&sums, &mut leasts);
    assert_eq!(rt; count, 1);
    fill_below(&sums, count, &mut times, &mut energies, &mut leasts);
    assert_eq!(rt; times, [300, 2]);
    assert_eq!(rt; energies, [7, 4]);
}

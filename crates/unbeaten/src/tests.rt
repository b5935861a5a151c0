// The sums of two lists, for a caller that wants no reason.
use crate::noting::ListSums;
use paths::energy::Energy;
use paths::pair::Pair;
use paths::seconds::Seconds;
use spans::sums::{Sums, next_below};
use spans::{SECONDS, no_span};

#[test]
fn next_below_of_two_lists(rt: HostRuntime) {
    let sums = ListSums {
        times: &[30, 20],
        energies: &[1, 5],
        more_times: &[10],
        more_energies: &[2],
    };
    assert!(rt; sums.best(Energy(2)).is_none(), "the least energy is 3");
    let (quick, frugal) = (
        Pair {
            time: Seconds(30),
            energy: Energy(7),
        },
        Pair {
            time: Seconds(40),
            energy: Energy(3),
        },
    );
    let mut leasts = [0; SECONDS];
    let mut span = no_span();
    let first = next_below(&sums, Energy(100), &mut span, &mut leasts);
    assert!(rt; first == Some(quick), "the quickest is first");
    let second = next_below(&sums, Energy(7), &mut span, &mut leasts);
    assert!(rt; second == Some(frugal), "then the one of less energy");
    let third = next_below(&sums, Energy(3), &mut span, &mut leasts);
    assert!(rt; third.is_none(), "and no more");
}

// Sums noted by their times: for each second of a span the least energy of a sum that takes so long. One pass over the sums then tells
// of many entries of a trade-off list, and no sum is compared with another. Whose sums they are is the caller's affair.
#![tactic(auto)]

pub mod sums;
#[cfg(test)]
mod tests;

ghost use Rattle.std.specs.Prelude.{◌≡◌, ◌+◌, ◌-◌, ◌≤◌, ◌<◌, ◌^◌, length};
ghost use Rattle.spans.specs.working.Noting.{span_seconds, LoweredAt, Cleared, Sought};
ghost use Rattle.spans.specs.working.Waiting.{NoSpan};

use paths::energy::Energy;
use paths::seconds::Seconds;

// How many seconds are noted at once.
pub const SECONDS: usize = 2048;

// More than any energy: no sum takes so long. A number and no Option, so that the table stays small and the lesser of two is one test.
const NO_ENERGY: u32 = 4294967295;

// The seconds that are noted, from the first on, and how many of them are passed.
#[derive(Clone, Copy)]
pub struct Span {
    pub first: Seconds,
    pub noted: usize,
    pub passed: usize,
}

// Before the first entry nothing is noted.
pub fn no_span() -> Span
    ensures { NoSpan result }
{
    Span {
        first: Seconds(0),
        noted: 0,
        passed: 0,
    }
}

// How many seconds behind the first.
pub fn seconds_behind(first: Seconds, time: Seconds) -> usize
    requires { first.0 ≤ time.0 }
    ensures { result ≡ time.0 - first.0 }
{
    (time.0 - first.0) as usize
}

// The time so many seconds behind the first.
pub fn time_behind(first: Seconds, seconds: usize) -> Seconds
    requires { first.0 + seconds < 2 ^ 32 }
    ensures { result.0 ≡ first.0 + seconds }
{
    Seconds(first.0 + seconds as u32)
}

// Notes an energy for a second if it is less than what is noted there.
pub fn lower(leasts: &mut [u32; SECONDS], second: usize, energy: Energy)
    requires { (length leasts.old ≡ span_seconds) × (second < span_seconds) }
    ensures { LoweredAt second energy.0 leasts.old leasts.new }
{
    if energy < Energy(leasts[second]) {
        leasts[second] = energy.0;
    }
}

// Nothing is noted for any second.
pub fn clear(leasts: &mut [u32; SECONDS])
    requires { length leasts.old ≡ span_seconds }
    ensures { Cleared span_seconds leasts.new }
{
    leasts.fill(NO_ENERGY);
}

// The first second from one on for which an energy below the bound is noted, or the end, from where callers go on.
pub fn first_below(leasts: &[u32; SECONDS], from: usize, end: usize, bound: Energy) -> usize
    requires { (length leasts.now ≡ span_seconds) × (end ≤ span_seconds) }
    ensures { Sought leasts.now from end bound.0 result }
{
    for second in from..end {
        if Energy(leasts[second]) < bound {
            return second;
        }
    }
    from.max(end)
}

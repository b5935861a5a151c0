// The sums of two or more lists, gone through from the fast end: the best sum below a bound, then the best below that one's energy, and
// so on. Where they stand close, each 2,048 seconds are noted at once.
ghost use Rattle.std.specs.Prelude.{◌≡◌, ℕ, ◌-◌, ◌≤◌, ◌<◌, length, ⊤, IsErr, IsNone};
ghost use Rattle.lists.specs.Entries.{Weight};
ghost use Rattle.spans.specs.working.Noting.{span_seconds, PairWithin, NoneBefore, Lowered};
ghost use Rattle.spans.specs.working.Waiting.{most_time, Waiting};
ghost use Rattle.spans.specs.working.Below.{BestIs, BestOrWhy, FiguresFit, NextBelow, NextOrWhy, ListOf};
ghost use Rattle.spans.specs.working.Written.{SomeList, Counted, ListWritten};

use crate::{SECONDS, Span, clear, first_below, no_span, seconds_behind, time_behind};
use lists::ABOVE_ALL;
use paths::energy::Energy;
use paths::pair::Pair;
use paths::seconds::Seconds;

// A set of sums: how the best of it is found, and how many are noted at once.
pub trait Sums {
    // Which weights are sums.
    ghost has: { Self → Weight → Type 0 };

    // What the lists keep to.
    ghost formed: { Self → Type 0 };

    // The best sum within the limit, or none.
    fn best(&self, limit: Energy) -> Option<Pair>
        requires is_formed { formed self.now }
        ensures { BestIs (has self.now) limit.0 result };

    // All sums within the limit, noted by their seconds.
    fn note(&self, limit: Energy, first: Seconds, leasts: &mut [u32; SECONDS])
        requires is_formed { formed self.now }
        requires none_before { NoneBefore (PairWithin (has self.now) limit.0) first.0 }
        requires leasts_len { length leasts.old ≡ span_seconds }
        ensures { Lowered (PairWithin (has self.now) limit.0) first.0 leasts.old leasts.new };

    // How many seconds apart entries may stand for a span to pay.
    fn close(&self) -> usize
        ensures { result ≤ span_seconds };

    // No sum has a figure as large as the first bound.
    ghost small: { (s : Self) (p : Weight) → formed s → has s p → FiguresFit p };
}

// Sums that also say why none is within a limit.
pub trait ReasonedSums {
    // Why no sum is within a limit, for callers that tell the reasons apart.
    type Missing: Copy;

    // Which weights are sums.
    ghost has: { Self → Weight → Type 0 };

    // What the lists keep to.
    ghost formed: { Self → Type 0 };

    // What such a reason says of the limit.
    ghost says: { Self → ℕ → Self.Missing → Type 0 };

    // The best sum within the limit, or why there is none.
    fn best(&self, limit: Energy) -> Result<Pair, Self::Missing>
        requires is_formed { formed self.now }
        ensures { BestOrWhy (has self.now) (says self.now) limit.0 result };

    // All sums within the limit, noted by their seconds.
    fn note(&self, limit: Energy, first: Seconds, leasts: &mut [u32; SECONDS])
        requires is_formed { formed self.now }
        requires none_before { NoneBefore (PairWithin (has self.now) limit.0) first.0 }
        requires leasts_len { length leasts.old ≡ span_seconds }
        ensures { Lowered (PairWithin (has self.now) limit.0) first.0 leasts.old leasts.new };

    // How many seconds apart entries may stand for a span to pay.
    fn close(&self) -> usize
        ensures { result ≤ span_seconds };

    // No sum has a figure as large as the first bound.
    ghost small: { (s : Self) (p : Weight) → formed s → has s p → FiguresFit p };
}

// Sums that give reasons are sums also for callers that want no reason.
impl<S: ReasonedSums> Sums for S {
    ghost has = { λ s. S.has s };

    ghost formed = { λ s. S.formed s };

    fn best(&self, limit: Energy) -> Option<Pair> {
        ReasonedSums::best(self, limit).ok()
    }

    fn note(&self, limit: Energy, first: Seconds, leasts: &mut [u32; SECONDS]) {
        ReasonedSums::note(self, limit, first, leasts);
    }

    fn close(&self) -> usize {
        ReasonedSums::close(self)
    }

    ghost small = { λ s. S.small s };
}

// Sums without reasons, as sums whose reason says nothing, so that both kinds go the same way.
#[derive(Drop)]
struct Unasked<'a, S>(&'a S);

impl<S: Sums> ReasonedSums for Unasked<'_, S> {
    type Missing = ();

    ghost has = { λ s. S.has s.0.now };

    ghost formed = { λ s. S.formed s.0.now };

    ghost says = { λ _ _ _. ⊤ };

    fn best(&self, limit: Energy) -> Result<Pair, ()> {
        self.0.best(limit).ok_or(())
    }

    fn note(&self, limit: Energy, first: Seconds, leasts: &mut [u32; SECONDS]) {
        self.0.note(limit, first, leasts);
    }

    fn close(&self) -> usize {
        self.0.close()
    }

    ghost small = { λ s. S.small s.0.now };
}

// The span from the best sum's time on: its sums are noted if it is close behind what was noted last, else none are.
fn span_from<S: ReasonedSums>(
    sums: &S,
    bound: Energy,
    last: Span,
    first: Seconds,
    leasts: &mut [u32; SECONDS],
) -> Span
    requires is_formed { S.formed sums.now }
    requires bound_nonzero { 0 < bound.0 }
    requires none_before { NoneBefore (PairWithin (S.has sums.now) (bound.0 - 1)) first.0 }
    requires first_le_most_time { first.0 ≤ most_time }
    requires leasts_len { (length leasts.old ≡ span_seconds) × (last.noted ≤ span_seconds) × (last.first.0 ≤ first.0) }
    ensures { Waiting (S.has sums.now) bound.0 result leasts.new }
{
    if seconds_behind(last.first, first) >= last.noted + sums.close() {
        return Span {
            first,
            noted: 0,
            passed: 0,
        };
    }
    clear(leasts);
    sums.note(Energy(bound.0 - 1), first, leasts);
    Span {
        first,
        noted: SECONDS,
        passed: 0,
    }
}

// The best sum below a bound: the next one noted, or one walk finds it, and the seconds from there on are noted if it is close behind
// what was noted last. Where there is none, the walk says why, and what was lent stays as it was.
pub fn next_or_why<S: ReasonedSums>(
    sums: &S,
    bound: Energy,
    span: &mut Span,
    leasts: &mut [u32; SECONDS],
) -> Result<Pair, S::Missing>
    requires is_formed { S.formed sums.now }
    requires bound_nonzero { 0 < bound.0 }
    requires waiting { Waiting (S.has sums.now) bound.0 span.old leasts.old }
    ensures told { NextOrWhy (S.has sums.now) (S.says sums.now) bound.0 result span.old span.new leasts.new }
    ensures noted_stay { IsErr result → leasts.new ≡ leasts.old }
{
    let second = first_below(leasts, span.passed, span.noted, bound);
    if second < span.noted {
        span.passed = second + 1;
        return Ok(Pair {
            time: time_behind(span.first, second),
            energy: Energy(leasts[second]),
        });
    }
    let best = sums.best(Energy(bound.0 - 1))?;
    *span = span_from(sums, bound, *span, best.time, leasts);
    Ok(best)
}

// How many entries the list of the sums has.
pub fn count_reasoned<S: ReasonedSums>(sums: &S, leasts: &mut [u32; SECONDS]) -> u32
    requires is_formed { S.formed sums.now }
    requires some_list { SomeList (ListOf (S.has sums.now)) }
    requires leasts_len { length leasts.old ≡ span_seconds }
    ensures value { Counted (ListOf (S.has sums.now)) result }
    ensures leasts_len_2 { length leasts.new ≡ span_seconds }
{
    let mut span = no_span();
    let mut count: u32 = 0;
    let mut bound = Energy(ABOVE_ALL);
    while bound.0 > 0 {
        let Ok(sum) = next_or_why(sums, bound, &mut span, leasts) else {
            return count;
        };
        count += 1;
        bound = sum.energy;
    }
    count
}

// Fills the first places with that list, whose length is `count`, from the last place to the first. A loop of its own: one walk for
// both, with a closure, would search all lists once more behind the first entry.
pub fn fill_reasoned<S: ReasonedSums>(
    sums: &S,
    count: u32,
    times: &mut [u32],
    energies: &mut [u32],
    leasts: &mut [u32; SECONDS],
)
    requires is_formed { S.formed sums.now }
    requires counted { Counted (ListOf (S.has sums.now)) count }
    requires count_in_bounds { (count ≤ length times.old) × (count ≤ length energies.old) }
    requires leasts_len { length leasts.old ≡ span_seconds }
    ensures { ListWritten (ListOf (S.has sums.now)) times.old energies.old count times.new energies.new }
{
    let mut span = no_span();
    let mut below = Energy(ABOVE_ALL);
    for place in (0..count as usize).rev() {
        let sum = next_or_why(sums, below, &mut span, leasts).unwrap();
        times[place] = sum.time.0;
        energies[place] = sum.energy.0;
        below = sum.energy;
    }
}

// The three again, for sums that give no reason and callers that want none. First the best sum below a bound, if there is one; if not,
// what was lent stays as it was.
pub fn next_below<S: Sums>(
    sums: &S,
    bound: Energy,
    span: &mut Span,
    leasts: &mut [u32; SECONDS],
) -> Option<Pair>
    requires is_formed { S.formed sums.now }
    requires bound_nonzero { 0 < bound.0 }
    requires waiting { Waiting (S.has sums.now) bound.0 span.old leasts.old }
    ensures told { NextBelow (S.has sums.now) bound.0 result span.new leasts.new }
    ensures lent_stay { IsNone result → (span.new ≡ span.old) × (leasts.new ≡ leasts.old) }
{
    next_or_why(&Unasked(sums), bound, span, leasts).ok()
}

// How many entries their list has.
pub fn count_below<S: Sums>(sums: &S, leasts: &mut [u32; SECONDS]) -> u32
    requires is_formed { S.formed sums.now }
    requires some_list { SomeList (ListOf (S.has sums.now)) }
    requires leasts_len { length leasts.old ≡ span_seconds }
    ensures value { Counted (ListOf (S.has sums.now)) result }
    ensures leasts_len_2 { length leasts.new ≡ span_seconds }
{
    count_reasoned(&Unasked(sums), leasts)
}

// Fills the first places with that list, whose length is `count`.
pub fn fill_below<S: Sums>(
    sums: &S,
    count: u32,
    times: &mut [u32],
    energies: &mut [u32],
    leasts: &mut [u32; SECONDS],
)
    requires is_formed { S.formed sums.now }
    requires counted { Counted (ListOf (S.has sums.now)) count }
    requires count_in_bounds { (count ≤ length times.old) × (count ≤ length energies.old) }
    requires leasts_len { length leasts.old ≡ span_seconds }
    ensures { ListWritten (ListOf (S.has sums.now)) times.old energies.old count times.new energies.new }
{
    fill_reasoned(&Unasked(sums), count, times, energies, leasts);
}

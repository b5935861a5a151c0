// Sums of two junctions' lists noted by their times, level by level, where the lists stand in the label bytes.
ghost use Rattle.std.specs.Prelude.{◌≡◌, ◌≤◌, ◌<◌, length};
ghost use Rattle.spans.specs.working.Noting.{span_seconds, EntrySum, PairWithin, NoneBefore, Lowered};
ghost use Rattle.forest.specs.LabelFile.{count_at};
ghost use Rattle.stored.specs.working.Formed.{ListFits};
ghost use Rattle.query.specs.working.Sums.{sum_of, SumIn, Only, Row, RowFits};
ghost use Rattle.tradeoffs.specs.working.Noting.{NoneFrom, row_figures};

use paths::energy::Energy;
use paths::pair::Pair;
use paths::seconds::Seconds;
use query::NoAnswer;
use query::across::sum_at;
use query::limited::from_lists;
use query::list_pair::ListPair;
use query::places::fitting_from;
use spans::sums::ReasonedSums;
use spans::{SECONDS, lower, seconds_behind};
use stored::list::StoredList;
use stored::place::Place;

// A span pays where entries stand no further apart than so many seconds.
const CLOSE: usize = 256;

// The sums of entry i of the near list and the first far entries, from the quickest on. Those behind the span are slower still.
fn note_entry(
    labels: &[u8],
    near: usize,
    far: usize,
    i: usize,
    end: usize,
    first: Seconds,
    leasts: &mut [u32; 2048],
)
    requires list_fits { ListFits labels.now near × ListFits labels.now far }
    requires i_bound { (i < count_at labels.now near) × (end ≤ count_at labels.now far) }
    requires none_before { NoneBefore (EntrySum (sum_of labels.now near far i) 0 end) first.0 }
    requires leasts_len { length leasts.old ≡ span_seconds }
    ensures { Lowered (EntrySum (sum_of labels.now near far i) 0 end) first.0 leasts.old leasts.new }
{
    let lists = ListPair { labels, near, far };
    for j in (0..end).rev() {
        let sum = sum_at(lists, i, j);
        let second = seconds_behind(first, sum.time);
        if second >= SECONDS {
            return;
        }
        lower(leasts, second, sum.energy);
    }
}

// One level: as the near entry's energy rises, fewer far entries fit beside it.
fn note_level(
    labels: &[u8],
    near: usize,
    far: usize,
    limit: Energy,
    first: Seconds,
    leasts: &mut [u32; 2048],
)
    requires list_fits { ListFits labels.now near × ListFits labels.now far }
    requires none_before { NoneBefore (PairWithin (SumIn labels.now (Only near far)) limit.0) first.0 }
    requires leasts_len { length leasts.old ≡ span_seconds }
    ensures { Lowered (PairWithin (SumIn labels.now (Only near far)) limit.0) first.0 leasts.old leasts.new }
{
    let near_list = StoredList { labels, at: near };
    let far_list = StoredList { labels, at: far };
    let mut j = far_list.count();
    for i in 0..near_list.count() {
        j = fitting_from(far_list, near_list.energy(i), limit, j);
        if j == 0 {
            return;
        }
        note_entry(labels, near, far, i, j, first, leasts);
    }
}

// The sums of the lists at two bytes and of those behind them, so many on each side.
#[derive(Clone, Copy)]
pub struct RowSums<'a> {
    pub labels: &'a [u8],
    pub near: usize,
    pub far: usize,
    pub levels: u32,
}

impl ReasonedSums for RowSums<'_> {
    type Missing = NoAnswer;

    ghost has = { λ s. SumIn s.labels.now (Row s.labels.now s.near s.far s.levels) };

    ghost formed = { λ s. RowFits s.labels.now s.near s.far s.levels };

    ghost says = { λ s. NoneFrom (SumIn s.labels.now (Row s.labels.now s.near s.far s.levels)) };

    #[tactic(auto, using(crate::proofs::NotingLaws::answer_or_why))]
    fn best(&self, limit: Energy) -> Result<Pair, NoAnswer> {
        from_lists(self.labels, self.near, self.far, self.levels, limit)
    }

    fn note(&self, limit: Energy, first: Seconds, leasts: &mut [u32; SECONDS]) {
        let mut near = Place { at: self.near };
        let mut far = Place { at: self.far };
        for _ in 0..self.levels {
            note_level(self.labels, near.at, far.at, limit, first, leasts);
            near = near.next(self.labels);
            far = far.next(self.labels);
        }
    }

    fn close(&self) -> usize {
        CLOSE
    }

    ghost small = { λ s. row_figures s.labels.now s.near s.far s.levels };
}

// The covering half of the test: is each sum of a road and an entry of one stored list covered by another? Both lists are read
// where they stand in the label file; `own` is the byte of the list that covers.
ghost use Rattle.std.specs.Prelude.{◌≡◌, cond, [], ◌∷◌, ◌+◌, ◌-◌, ◌≤◌, ◌<◌, length};
ghost use Rattle.paths.specs.Weights.{pair};
ghost use Rattle.forest.specs.LabelFile.{count_at, time_at, energy_at};
ghost use Rattle.stored.specs.Stored.{list_at};
ghost use Rattle.stored.specs.working.Formed.{ListFits};
ghost use Rattle.agree.specs.working.Covering.{QuickFrom, EntryCompared, Behind, SumCompared, Covering};

use paths::pair::Pair;
use paths::seconds::Seconds;
use stored::list::StoredList;

// The list that covers, and how many entries it has, which is read once.
#[derive(Clone, Copy)]
pub struct OwnList<'a> {
    pub list: StoredList<'a>,
    pub count: usize,
    ghost counted: { count ≡ count_at list.labels.now list.at },
}

// The first own entry from the hint on that is no slower than a time.
fn quick_from(own: OwnList<'_>, time: Seconds, hint: usize) -> Option<usize>
    ensures { QuickFrom own.entry.list.labels.now own.entry.list.at time.0 hint result }
{
    for i in hint..own.count {
        if own.list.time(i) <= time {
            return Some(i);
        }
    }
    None
}

// The mark of an entry after it was compared: 1 where it equals the sum, else as it was. A value, so that no branch guards the store.
fn mark_after(mark: u8, same: bool) -> u8
    ensures { result ≡ cond same 1 mark }
{
    if same { 1 } else { mark }
}

// Whether own entry i covers the sum; it is marked where it equals the sum.
fn covers_at(own: OwnList<'_>, i: usize, sum: Pair, marks: &mut [u8; 4096]) -> bool
    requires { length marks.old ≡ 4096 }
    ensures { EntryCompared own.entry.list.labels.now own.entry.list.at (pair sum.time.0 sum.energy.0) i marks.old marks.new result }
{
    if i >= own.count {
        return false;
    }
    let time = own.list.time(i);
    if sum.time < time {
        return false;
    }
    let energy = own.list.energy(i);
    if sum.energy < energy {
        return false;
    }
    marks[i] = mark_after(marks[i], sum == Pair { time, energy });
    true
}

// The own entry that covers the sum, if one does; the entry that equals the sum is marked. Often it is the next entry; else the
// first that is no slower decides: earlier ones are too slow, and later ones cost more.
fn cover_sum(own: OwnList<'_>, next: usize, sum: Pair, marks: &mut [u8; 4096]) -> Option<usize>
    requires behind { Behind own.list.labels.now own.list.at next sum.energy.0 }
    requires marks_len { length marks.old ≡ 4096 }
    ensures { SumCompared own.entry.list.labels.now own.entry.list.at (pair sum.time.0 sum.energy.0) marks.old marks.new result }
{
    if covers_at(own, next, sum, marks) {
        return Some(next);
    }
    let quick = quick_from(own, sum.time, next.saturating_sub(1))?;
    if covers_at(own, quick, sum, marks) {
        Some(quick)
    } else {
        None
    }
}

// Whether the one sum of a road that ends at the ancestor, the road itself, is covered; the entry that equals it is marked.
pub fn cover_road(own: OwnList<'_>, road: Pair, marks: &mut [u8; 4096]) -> bool
    requires { length marks.old ≡ 4096 }
    ensures { Covering own.entry.list.labels.now own.entry.list.at (pair road.time.0 road.energy.0) (pair 0 0 ∷ []) marks.old marks.new result }
{
    cover_sum(own, 0, road, marks).is_some()
}

// The sum of a road and entry j of a list.
fn sum_at(list: StoredList<'_>, road: Pair, j: usize) -> Pair
    requires { (j < count_at list.labels.now list.at) × (road.time.0 ≤ 65535) × (road.energy.0 ≤ 65535) }
    ensures { (result.time.0 ≡ road.time.0 + time_at list.entry.labels.now list.entry.at j) × (result.energy.0 ≡ road.energy.0 + energy_at list.entry.labels.now list.entry.at j) }
{
    Pair {
        time: road.time + list.time(j),
        energy: road.energy + list.energy(j),
    }
}

// Whether each sum of a road and an entry of the list at a byte is covered; own entries that a sum equals are marked. The sums'
// energies rise, so neither place goes back, and an own entry no slower than the last sum covers all that follow.
pub fn cover_stored(at: usize, own: OwnList<'_>, road: Pair, marks: &mut [u8; 4096]) -> bool
    requires list_fits { ListFits own.list.labels.now at }
    requires road_bound { (road.time.0 ≤ 65535) × (road.energy.0 ≤ 65535) }
    requires marks_len { length marks.old ≡ 4096 }
    ensures { Covering own.entry.list.labels.now own.entry.list.at (pair road.time.0 road.energy.0) (list_at own.entry.list.labels.now at) marks.old marks.new result }
{
    let rest = StoredList {
        labels: own.list.labels,
        at,
    };
    let rest_count = rest.count();
    if rest_count == 0 {
        return true;
    }
    let last = sum_at(rest, road, rest_count - 1);
    let mut next = 0;
    for j in 0..rest_count {
        let sum = sum_at(rest, road, j);
        let Some(i) = cover_sum(own, next, sum, marks) else {
            return false;
        };
        if own.list.time(i) <= last.time {
            return true;
        }
        next = i + 1;
    }
    true
}

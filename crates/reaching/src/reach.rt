// Whether a path takes no more than a pair in either figure: what the route's step asks. Stored lists are read where they stand.
ghost use Rattle.std.specs.Prelude.{◌≡◌, false, List, ℕ, ◌≤◌, ◌<◌};
ghost use Rattle.network.specs.NetworkFile.{junctions_of};
ghost use Rattle.refusals.specs.working.Decides.{Decides};
ghost use Rattle.forest.specs.LabelFile.{count_at};
ghost use Rattle.stored.specs.Stored.{list_at};
ghost use Rattle.forest.specs.working.Fits.{DepthsFilled};
ghost use Rattle.stored.specs.working.Formed.{FilesFit};
ghost use Rattle.hoplinks.specs.working.Meeting.{HopMarks};
ghost use Rattle.query.specs.working.PreparedSet.{IsPrepared};
ghost use Rattle.query.specs.working.AnswerFrom.{EntryOf};
ghost use Rattle.query.specs.working.Levels.{LevelSum};
ghost use Rattle.query.specs.working.Sums.{RowFits};
ghost use Rattle.reaching.specs.working.Reach.{PathWithin, weight_of};
ghost use Rattle.reaching.specs.working.Searched.{HasWithin, SumUp, CoversAt, NoSum, Tried, Held};

use hoplinks::hoplinks::mark_hoplinks;
use paths::energy::Energy;
use paths::pair::Pair;
use paths::seconds::Seconds;
use query::Between;
use query::across::sum_at;
use query::climbing::between;
use query::list_pair::ListPair;
use query::places::{fitting, fitting_from};
use stored::list::StoredList;
use stored::place::Place;
use stored::set::LabelSet;

// The marks of one junction's hoplinks, and which junction that is: none at first.
#[derive(Clone, Copy)]
pub struct Hoplinks {
    pub held: Option<usize>,
    pub marks: [u8; 1024],
}

impl Hoplinks {
    pub fn new() -> Hoplinks
        ensures { (net labels : List ℕ) → Held net labels result }
    {
        Hoplinks {
            held: None,
            marks: [0; 1024],
        }
    }

    // Marks the hoplinks of l, unless they are the ones that are marked.
    fn hold(&mut self, net: &[u8], labels: &[u8], depths: &[u32; 1024], l: usize)
        requires files_fit { FilesFit net.now labels.now × DepthsFilled labels.now depths.now × (l < junctions_of labels.now) }
        requires held { Held net.now labels.now self.old }
        ensures hop_marks { HopMarks net.now labels.now l self.new.marks }
        ensures held_2 { Held net.now labels.now self.new }
    {
        if self.held != Some(l) {
            mark_hoplinks(net, labels, depths, l, &mut self.marks);
            self.held = Some(l);
        }
    }
}

// Two junctions, of which paths lead from the first to the second.
#[derive(Clone, Copy)]
pub struct Ends {
    pub from: usize,
    pub to: usize,
}

// Whether an entry of a list takes no more than the pair: of those that fit the last is the quickest.
fn list_reaches(list: StoredList<'_>, most: Pair) -> bool
    ensures { Decides (HasWithin (EntryOf (list_at list.entry.labels.now list.entry.at)) (weight_of most)) result }
{
    let j = fitting(list, Energy(0), most.energy);
    j > 0 && list.time(j - 1) <= most.time
}

// Whether a sum of entries of two lists may take no more than the pair: their least energies do, and their least times do.
fn may_cover(lists: ListPair<'_>, most: Pair) -> bool
    ensures { result ≡ false → NoSum lists.entry.labels.now lists.entry.near lists.entry.far most.time.0 most.energy.0 }
{
    let near_count = lists.near().count();
    let far_count = lists.far().count();
    near_count > 0
        && far_count > 0
        && sum_at(lists, 0, 0).energy <= most.energy
        && sum_at(lists, near_count - 1, far_count - 1).time <= most.time
}

// Whether entry i of the near list and the last of the far list's first j entries take no more than the time.
fn covers(lists: ListPair<'_>, i: usize, j: usize, time: Seconds) -> bool
    requires { (i < count_at lists.labels.now lists.near) × (j ≤ count_at lists.labels.now lists.far) }
    ensures { Decides (CoversAt lists.entry.labels.now lists.entry.near i lists.entry.far j time.0) result }
{
    j > 0 && sum_at(lists, i, j - 1).time <= time
}

// How many entries of the near list are tried at a level: all where it is marked and its lists may cover the pair, else none.
fn entries_tried(lists: ListPair<'_>, marks: &[u8; 1024], level: usize, most: Pair) -> usize
    requires { level < 1024 }
    ensures { Tried lists.entry.labels.now marks.now level lists.entry.near lists.entry.far (weight_of most) result }
{
    if marks[level] != 1 || !may_cover(lists, most) {
        return 0;
    }
    lists.near().count()
}

// Whether a sum at a marked level takes no more than the pair: the lists at two bytes are those for the deepest level, and behind them
// stand those for the levels above it. The search stops at the first entry that covers the pair, out of both loops.
fn search_levels(
    labels: &[u8],
    marks: &[u8; 1024],
    near: usize,
    far: usize,
    levels: u32,
    most: Pair,
) -> bool
    requires row_fits { RowFits labels.now near far levels }
    requires levels_bound { levels ≤ 1024 }
    ensures { Decides (HasWithin (SumUp labels.now marks.now near far levels levels) (weight_of most)) result }
{
    let mut near_place = Place { at: near };
    let mut far_place = Place { at: far };
    let mut found = false;
    'search: for level in (0..levels).rev() {
        let lists = ListPair {
            labels,
            near: near_place.at,
            far: far_place.at,
        };
        let mut j = lists.far().count();
        for i in 0..entries_tried(lists, marks, level as usize, most) {
            j = fitting_from(lists.far(), lists.near().energy(i), most.energy, j);
            if covers(lists, i, j, most.time) {
                found = true;
                break 'search;
            }
        }
        near_place = near_place.next(labels);
        far_place = far_place.next(labels);
    }
    found
}

// Whether a path between two junctions takes no more than the pair.
pub fn reaches(set: LabelSet<'_>, ends: Ends, most: Pair, hoplinks: &mut Hoplinks) -> bool
    requires prepared { IsPrepared set }
    requires from_bound { (ends.from < junctions_of set.net.now) × (ends.to < junctions_of set.net.now) }
    requires held { Held set.net.now set.labels.now hoplinks.old }
    ensures decides { Decides (PathWithin set.entry.net.now ends.from ends.to (weight_of most)) result }
    ensures held_2 { Held set.entry.net.now set.entry.labels.now hoplinks.new }
{
    if ends.from == ends.to {
        return true;
    }
    match between(set.labels, set.depths, set.tables, ends.from, ends.to) {
        Between::Nothing => false,
        Between::List(at) => list_reaches(
            StoredList {
                labels: set.labels,
                at,
            },
            most,
        ),
        Between::Lists {
            near,
            far,
            levels,
            meeting,
        } => {
            hoplinks.hold(set.net, set.labels, set.depths, meeting);
            search_levels(set.labels, &hoplinks.marks, near, far, levels, most)
        }
    }
}

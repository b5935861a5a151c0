// The sweep over the labels. The junctions are taken from the last to the first of an order in which each one's descendants stand
// right behind it. No list is searched for: each junction has a reading place, which moves on by one list for each ancestor swept.
ghost use Rattle.std.specs.Prelude.{◌≡◌, true, ◌+◌, ◌≤◌, ◌<◌, length};
ghost use Rattle.paths.specs.LocalTest.{ListAgrees};
ghost use Rattle.network.specs.NetworkFile.{junctions_of, network_of};
ghost use Rattle.network.specs.working.Roads.{Grouped};
ghost use Rattle.refusals.specs.working.Decides.{Decides};
ghost use Rattle.forest.specs.LabelFile.{parents_of};
ghost use Rattle.forest.specs.working.Fits.{ParentsFit, DepthsFilled};
ghost use Rattle.stored.specs.Stored.{stored};
ghost use Rattle.stored.specs.working.Formed.{Formed, StartsFilled, FilesFit, ListFits};
ghost use Rattle.stored.specs.Right.{EveryListRight};
ghost use Rattle.preorder.specs.working.Numbered.{junction_at};
ghost use Rattle.agree.specs.working.Agreeing.{PlacesFor, Unmarked};
ghost use Rattle.exact.specs.working.TabledSet.{IsTabled};
ghost use Rattle.exact.specs.working.Sweep.{AgreesBelow, Swept, Noted, MovedOn, BlockOf};

use agree::agree::list_agrees;
use forest::parents::parent_at;
use network::header::junctions_of;
use stored::place::Place;
use stored::set::LabelSet;
use tables::{ORDER, SIZES, STARTS};

// Notes where the lists of u stand, each at the place of its ancestor. These are swept later, so nothing is lost.
fn note_above(set: LabelSet<'_>, u: usize, places: &mut [u32; 1024])
    requires formed { Formed set.labels.now }
    requires depths_filled { DepthsFilled set.labels.now set.depths.now }
    requires starts_filled { StartsFilled set.labels.now set.tables.now }
    requires u_bound { u < junctions_of set.labels.now }
    requires places_len { length places.old ≡ 1024 }
    ensures { Noted set.entry.labels.now u places.old places.new }
{
    let mut w = u;
    let mut place = Place {
        at: set.tables[STARTS + u] as usize,
    };
    for _ in 0..set.depths[u] {
        w = parent_at(set.labels, w) as usize;
        places[w] = place.at as u32;
        place = place.next(set.labels);
    }
}

// The junctions below u move on by one list, past those for u.
#[tactic(auto, using(crate::proofs::Moving::here_on_map, crate::proofs::Moving::place_inside, crate::proofs::Moving::next_inside))]
fn move_on(labels: &[u8], u: usize, below: &[u32], places: &mut [u32; 1024])
    requires formed { Formed labels.now }
    requires block_of { BlockOf labels.now u below.now }
    requires places_for { PlacesFor labels.now u places.old }
    ensures { MovedOn labels.now u places.old places.new }
{
    for &v in below {
        let v = v as usize;
        let place = Place {
            at: places[v] as usize,
        };
        places[v] = place.next(labels).at as u32;
    }
}

// Does every list for u agree?
#[tactic(auto, using(crate::proofs::Verdicts::may_test, crate::proofs::Verdicts::agreed_more))]
fn lists_agree(
    set: LabelSet<'_>,
    places: &[u32; 1024],
    u: usize,
    below: &[u32],
    marks: &mut [u8; 4096],
) -> bool
    requires files_fit { FilesFit set.net.now set.labels.now × Grouped set.net.now set.tables.now }
    requires block_of { BlockOf set.labels.now u below.now }
    requires places_for { PlacesFor set.labels.now u places.now }
    requires unmarked { Unmarked marks.old }
    ensures decides { Decides (AgreesBelow set.entry.net.now set.entry.labels.now u) result }
    ensures unmarked_2 { result ≡ true → Unmarked marks.new }
{
    for v in below {
        if !list_agrees(
            set.net,
            set.labels,
            set.tables,
            places,
            *v as usize,
            u,
            marks,
        ) {
            return false;
        }
    }
    true
}

// Sweeps the junction at spot i: does every list for it agree? If so, it and the junctions below it wait for its parent's turn.
#[tactic(auto, using(crate::proofs::Sweeping::some, crate::proofs::Sweeping::block_of))]
fn junction_agrees(
    set: LabelSet<'_>,
    i: usize,
    places: &mut [u32; 1024],
    marks: &mut [u8; 4096],
) -> bool
    requires files_fit { IsTabled set }
    requires i_bound { i < junctions_of set.labels.now }
    requires swept { Swept set.labels.now set.tables.now (i + 1) places.old }
    requires unmarked { Unmarked marks.old }
    ensures decides { Decides (AgreesBelow set.entry.net.now set.entry.labels.now (junction_at set.entry.tables.now i)) result }
    ensures swept_2 { result ≡ true → Swept set.entry.labels.now set.entry.tables.now i places.new × Unmarked marks.new }
{
    // The borrow checker takes a part of a reference alone, not of one in a field.
    let tables = set.tables;
    let u = tables[ORDER + i] as usize;
    let size = tables[SIZES + u] as usize;
    let below = &tables[ORDER + i + 1..ORDER + i + size];
    places[u] = tables[STARTS + u];
    if below.is_empty() {
        return true;
    }
    note_above(set, u, places);
    if !lists_agree(set, places, u, below, marks) {
        return false;
    }
    move_on(set.labels, u, below, places);
    true
}

// Is every stored list the trade-off list of its two junctions? The junctions from the last spot to the first. Reading places and marks are lent
// by the caller.
#[tactic(auto, using(crate::proofs::Verdicts::from_more, crate::proofs::Verdicts::from_fails))]
pub fn exact(set: LabelSet<'_>, places: &mut [u32; 1024], marks: &mut [u8; 4096]) -> bool
    requires files_fit { IsTabled set }
    requires places_len { length places.old ≡ 1024 }
    requires unmarked { Unmarked marks.old }
    ensures { Decides (EveryListRight set.entry.net.now set.entry.labels.now) result }
{
    for i in (0..junctions_of(set.labels) as usize).rev() {
        if !junction_agrees(set, i, places, marks) {
            return false;
        }
    }
    true
}

// The test of one stored list: does it agree with the lists one road further?
ghost use Rattle.std.specs.Prelude.{◌≡◌, true, ◌≤◌, length};
ghost use Rattle.paths.specs.LocalTest.{ListAgrees};
ghost use Rattle.refusals.specs.working.Decides.{Decides};
ghost use Rattle.network.specs.NetworkFile.{network_of};
ghost use Rattle.forest.specs.LabelFile.{parents_of};
ghost use Rattle.stored.specs.Stored.{stored};
ghost use Rattle.agree.specs.working.Agreeing.{AgreeInput, Unmarked, RoadInput, RoadTested, MarksRead};

use crate::cover::{OwnList, cover_road, cover_stored};
use network::header::roads_of;
use network::roads::{first_road, next_road, other_end, road_energy, road_time};
use paths::pair::Pair;
use stored::list::StoredList;
use stored::place::number_of;

// Whether every sum that starts with road k is covered by the own list, of v and u; the entries that a sum equals are marked.
fn road_agrees(
    net: &[u8],
    places: &[u32; 1024],
    v: usize,
    u: usize,
    k: usize,
    own: OwnList<'_>,
    marks: &mut [u8; 4096],
) -> bool
    requires road_input { RoadInput net.now own.list.labels.now places.now v u k }
    requires marks_len { length marks.old ≡ 4096 }
    ensures { RoadTested net.now own.entry.list.labels.now v u own.entry.list.at k marks.old marks.new result }
{
    let w = other_end(net, v, k);
    let road = Pair {
        time: road_time(net, k),
        energy: road_energy(net, k),
    };
    if w == u {
        cover_road(own, road, marks)
    } else {
        cover_stored(number_of(places, w), own, road, marks)
    }
}

// Whether every entry is marked. They are unmarked for the next list.
fn all_marked(marks: &mut [u8; 4096], count: usize) -> bool
    requires { (length marks.old ≡ 4096) × (count ≤ 4096) }
    ensures { MarksRead marks.old marks.new count result }
{
    let own = &mut marks[..count];
    let marked = own.iter().all(|mark| *mark == 1);
    own.fill(0);
    marked
}

// Whether the stored list of v and its proper ancestor u agrees with the lists one road further: each road of v plus each entry
// of what is left is covered, and each entry is met by such a sum.
pub fn list_agrees(
    net: &[u8],
    labels: &[u8],
    tables: &[u32; 13312],
    places: &[u32; 1024],
    v: usize,
    u: usize,
    marks: &mut [u8; 4096],
) -> bool
    requires agree_input { AgreeInput net.now labels.now tables.now places.now v u }
    requires unmarked { Unmarked marks.old }
    ensures decides { Decides (ListAgrees (network_of net.now) (parents_of labels.now) (stored labels.now) v u) result }
    ensures unmarked_2 { result ≡ true → Unmarked marks.new }
{
    let at = number_of(places, v);
    let list = StoredList { labels, at };
    let own = OwnList {
        list,
        count: list.count(),
    };
    let roads = roads_of(net) as usize;
    let mut k = first_road(tables, v);
    // A chain: each road of v leads to the next.
    while k < roads {
        if !road_agrees(net, places, v, u, k, own, marks) {
            return false; // the list leaves a sum uncovered
        }
        k = next_road(net, tables, v, k);
    }
    all_marked(marks, own.count)
}

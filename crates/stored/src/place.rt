// A reading place in the label file: it moves from list to list, and each move yields the next place.
ghost use Rattle.std.specs.Prelude.{◌≡◌, ◌+◌, ◌≤◌, ◌<◌, length, get_or};
ghost use Rattle.file_bytes.specs.working.Reads.{ReadU16};
ghost use Rattle.network.specs.NetworkFile.{junctions_of};
ghost use Rattle.forest.specs.LabelFile.{count_end, list_end};
ghost use Rattle.forest.specs.Forest.{depth_of};
ghost use Rattle.stored.specs.ListForm.{most_bytes};
ghost use Rattle.forest.specs.working.Fits.{DepthsFilled};
ghost use Rattle.stored.specs.working.Formed.{Formed, StartsFilled};
ghost use Rattle.stored.specs.working.Scanned.{further, FoundList};

use crate::stored::{count_at, entries_end};
use tables::{STARTS, entry_at};

// The byte where a list starts.
#[derive(Clone, Copy)]
pub struct Place {
    pub at: usize,
}

impl Place {
    // How many entries the list here has.
    pub fn count(self, labels: &[u8]) -> u32
        requires { count_end self.at ≤ length labels.now }
        ensures { ReadU16 labels.now self.at result }
    {
        count_at(labels, self.at)
    }

    // The place of the next list.
    pub fn next(self, labels: &[u8]) -> Place
        requires at_in_bounds { count_end self.at ≤ length labels.now }
        requires labels_len_bound { length labels.now ≤ most_bytes }
        ensures { result.at ≡ list_end labels.now self.at }
    {
        Place {
            at: entries_end(self.at, self.count(labels) as usize),
        }
    }
}

// The place k lists further; all of them stand in the file.
pub fn skip(labels: &[u8], from: Place, k: usize) -> Place
    requires k_in_bounds { further labels.now from.at k ≤ length labels.now }
    requires labels_len_bound { length labels.now ≤ most_bytes }
    ensures { result.at ≡ further labels.now from.at k }
{
    let mut place = from;
    for _ in 0..k {
        place = place.next(labels);
    }
    place
}

// The number that a table of all junctions has for v.
pub fn number_of(table: &[u32; 1024], v: usize) -> usize
    requires { v < 1024 }
    ensures { result ≡ get_or table.now v 0 }
{
    table[v] as usize
}

// The list of v and its proper ancestor u: as many lists behind v's first as there are ancestors between.
pub fn find_list(
    labels: &[u8],
    depths: &[u32; 1024],
    tables: &[u32; 13312],
    v: usize,
    u: usize,
) -> Place
    requires formed { Formed labels.now }
    requires depths_filled { DepthsFilled labels.now depths.now }
    requires starts_filled { StartsFilled labels.now tables.now }
    requires v_bound { (v < junctions_of labels.now) × (u < junctions_of labels.now) }
    requires u_bound { depth_of labels.now u < depth_of labels.now v }
    ensures { FoundList labels.now v u result.at }
{
    let between = number_of(depths, v) - number_of(depths, u) - 1;
    let start = entry_at(tables, STARTS + v);
    skip(labels, Place { at: start }, between)
}

// What is worked out once per call travels in one lent array: where each junction's lists start, the roads at each junction, the
// junctions' numbering. Each part begins at its own place.
#![tactic(auto)]

ghost use Rattle.std.specs.Prelude.{◌≡◌, ◌<◌, length, get_or};
ghost use Rattle.tables.specs.working.Layout.{table_places};

// The byte where a junction's lists start, at the junction's number.
pub const STARTS: usize = 0;

// A junction's first road.
pub const FIRSTS: usize = 1024;

// The roads that follow road k at its lower and at its higher end, at 2k and 2k + 1.
pub const NEXTS: usize = 2048;

// The junctions in order.
pub const ORDER: usize = 10240;

// A junction's place in that order.
pub const SPOTS: usize = 11264;

// How many junctions stand in a junction's block, itself among them.
pub const SIZES: usize = 12288;

// The number at a place of the table, as a place of its own.
pub fn entry_at(tables: &[u32; 13312], place: usize) -> usize
    requires { (length tables.now ≡ table_places) × (place < table_places) }
    ensures { result ≡ get_or tables.now place 0 }
{
    tables[place] as usize
}

// The roads of a network that passed, and the roads at each junction in file order.
ghost use Rattle.std.specs.Prelude.{◌≡◌, true, suc, ◌+◌, ◌*◌, ◌≤◌, ◌<◌, length, get_or};
ghost use Rattle.tables.specs.working.Layout.{firsts_from, table_places, StaysBelow};
ghost use Rattle.file_bytes.specs.working.Reads.{ReadU16};
ghost use Rattle.network.specs.NetworkFile.{roads_of, version_of, record_at, record_end};
ghost use Rattle.network.specs.Versions.{record_bytes};
ghost use Rattle.network.specs.working.Roads.{touches, next_road, Grouped};
ghost use Rattle.network.specs.working.RoadsRead.{ReadOther, FirstsFilled, GroupedFrom};
ghost use Rattle.network.specs.working.Fits.{NetworkFits};

use crate::header::{HEADER_BYTES, roads_of};
use crate::versions::RECORD_BYTES;
use file_bytes::u16_at;
use paths::energy::Energy;
use paths::seconds::Seconds;
use tables::{FIRSTS, NEXTS, entry_at};

// The number of 16 bits at a byte of road k's record.
fn record_u16(net: &[u8], k: usize, byte: usize) -> u32
    requires record { record_end net.now k ≤ length net.now }
    requires inside { byte + 2 ≤ record_bytes (version_of net.now) }
    ensures { ReadU16 net.now (record_at net.now k byte) result }
{
    u16_at(net, HEADER_BYTES + byte + RECORD_BYTES * k)
}

// The lower end of road k.
pub fn road_low(net: &[u8], k: usize) -> usize
    requires { record_end net.now k ≤ length net.now }
    ensures { ReadU16 net.now (record_at net.now k 0) result }
{
    record_u16(net, k, 0) as usize
}

// The higher end of road k.
pub fn road_high(net: &[u8], k: usize) -> usize
    requires { record_end net.now k ≤ length net.now }
    ensures { ReadU16 net.now (record_at net.now k 2) result }
{
    record_u16(net, k, 2) as usize
}

// The time of road k.
pub fn road_time(net: &[u8], k: usize) -> Seconds
    requires { record_end net.now k ≤ length net.now }
    ensures { ReadU16 net.now (record_at net.now k 4) result.0 }
{
    Seconds(record_u16(net, k, 4))
}

// The energy of road k.
pub fn road_energy(net: &[u8], k: usize) -> Energy
    requires { record_end net.now k ≤ length net.now }
    ensures { ReadU16 net.now (record_at net.now k 6) result.0 }
{
    Energy(record_u16(net, k, 6))
}

// The end of road k that is not v.
#[tactic(auto, unfolding(crate::specs::working::Roads::other_end))]
pub fn other_end(net: &[u8], v: usize, k: usize) -> usize
    requires { record_end net.now k ≤ length net.now }
    ensures { ReadOther net.now v k result }
{
    let low = road_low(net, k);
    if low == v { road_high(net, k) } else { low }
}

// Every junction's first road is the one behind the last: none.
fn clear_firsts(none: u32, tables: &mut [u32; 13312])
    requires { length tables.old ≡ table_places }
    ensures { FirstsFilled tables.old tables.new none 1024 }
{
    tables[FIRSTS..NEXTS].fill(none);
}

// Puts road k before the roads of its two ends.
#[tactic(auto, using(crate::proofs::GroupedRoads::places_of_ends))]
fn put_road(net: &[u8], k: usize, tables: &mut [u32; 13312])
    requires { NetworkFits net.now × (k < roads_of net.now) × GroupedFrom net.now tables.old (k + 1) }
    ensures { GroupedFrom net.now tables.new k × StaysBelow firsts_from tables.old tables.new }
{
    let low = road_low(net, k);
    let high = road_high(net, k);
    tables[NEXTS + 2 * k] = tables[FIRSTS + low];
    tables[NEXTS + 2 * k + 1] = tables[FIRSTS + high];
    tables[FIRSTS + low] = k as u32;
    tables[FIRSTS + high] = k as u32;
}

// Groups the roads by junction: from the last road to the first, so that each junction's roads come in file order.
pub fn group_roads(net: &[u8], tables: &mut [u32; 13312])
    requires { NetworkFits net.now × (length tables.old ≡ table_places) }
    ensures { Grouped net.now tables.new × StaysBelow firsts_from tables.old tables.new }
{
    let roads = roads_of(net);
    clear_firsts(roads, tables);
    for k in (0..roads as usize).rev() {
        put_road(net, k, tables);
    }
}

// The first road of v: what stands in the lent table, where the count of roads is behind the last of them.
pub fn first_road(tables: &[u32; 13312], v: usize) -> usize
    requires { (length tables.now ≡ table_places) × (v < 1024) }
    ensures { result ≡ get_or tables.now (firsts_from + v) 0 }
{
    entry_at(tables, FIRSTS + v)
}

// The road of v that follows road k.
pub fn next_road(net: &[u8], tables: &[u32; 13312], v: usize, k: usize) -> usize
    requires { NetworkFits net.now × Grouped net.now tables.now × (k < roads_of net.now) × (touches net.now v k ≡ true) }
    ensures { result ≡ next_road net.now v (suc k) }
{
    if road_low(net, k) == v {
        entry_at(tables, NEXTS + 2 * k)
    } else {
        entry_at(tables, NEXTS + 2 * k + 1)
    }
}

// Stored lists: testing one, one pass over all of them, and loading one into lent slices.
ghost use Rattle.std.specs.Prelude.{◌≡◌, ◌≤◌, ◌<◌, length};
ghost use Rattle.tables.specs.working.Layout.{table_places};
ghost use Rattle.refusals.specs.Order.{first_fault};
ghost use Rattle.file_bytes.specs.working.Reads.{Read16};
ghost use Rattle.forest.specs.LabelVersions.{least_entry_energy};
ghost use Rattle.network.specs.NetworkFile.{version_of};
ghost use Rattle.forest.specs.LabelFile.{count_at, time_at, energy_at, count_end, entries_end, time_end, energy_end, list_end};
ghost use Rattle.stored.specs.Refusal.{refusal_number, number_of};
ghost use Rattle.stored.specs.ListForm.{most_bytes, most_count, entry_number, list_number};
ghost use Rattle.forest.specs.working.Fits.{ParentsFit, DepthsFilled};
ghost use Rattle.stored.specs.working.Scanned.{BehindEntries, time_ceiling, time_below, energy_from, Inside, ScannedSome, ScannedAll, Loaded};

use crate::place::Place;
use crate::refusal::LabelRefusal;
use crate::runs::{pass_short, pass_single};
use file_bytes::{u16_at, u32_at};
use forest::parents::lists_from;
use forest::versions::{
    COUNT_BYTES, ENTRY_BYTES, FIRST_ENERGY, FIRST_TIME, STRIDE, TIME_END, least_entry_energy,
};
use network::header::{junctions_of, version_of};
use paths::energy::Energy;
use paths::seconds::Seconds;
use tables::STARTS;

const MOST_COUNT: usize = 4095;

// The least time, and the most of either figure; the least energy is the version's
const LEAST_TIME: u32 = 1;

pub const MOST_FIGURE: u32 = 67042305;

// A count and two entries.
pub const SHORT_BYTES: usize = 18;

// How many entries the list at a byte has.
pub fn count_at(labels: &[u8], at: usize) -> u32
    requires { count_end at ≤ length labels.now }
    ensures { Read16 (count_at labels.now at) result }
{
    u16_at(labels, at)
}

// The byte behind so many entries of it.
pub fn entries_end(at: usize, count: usize) -> usize
    requires { (at ≤ most_bytes) × (count < 65536) }
    ensures { BehindEntries at count result }
{
    at + COUNT_BYTES + ENTRY_BYTES * count
}

// The time of entry j.
pub fn time_at(labels: &[u8], at: usize, j: usize) -> Seconds
    requires { time_end labels.now at j ≤ length labels.now }
    ensures { result.0 ≡ time_at labels.now at j }
{
    Seconds(u32_at(labels, at + FIRST_TIME + STRIDE * j))
}

// Its energy.
pub fn energy_at(labels: &[u8], at: usize, j: usize) -> Energy
    requires { energy_end labels.now at j ≤ length labels.now }
    ensures { result.0 ≡ energy_at labels.now at j }
{
    Energy(u32_at(labels, at + FIRST_ENERGY + STRIDE * j))
}

// A time in range, and below what stands before it.
pub fn time_fits(ceiling: Seconds, time: Seconds) -> bool
    ensures { result ≡ time_below ceiling.0 time.0 }
{
    Seconds(LEAST_TIME) <= time && time <= Seconds(MOST_FIGURE) && time < ceiling
}

// An energy in range, and above what stands before it.
pub fn energy_fits(floor: Energy, energy: Energy) -> bool
    ensures { result ≡ energy_from floor.0 energy.0 }
{
    energy <= Energy(MOST_FIGURE) && floor <= energy
}

// What entry j's time stays below.
fn time_ceiling(labels: &[u8], at: usize, j: usize) -> Seconds
    requires { time_end labels.now at j ≤ length labels.now }
    ensures { result.0 ≡ time_ceiling labels.now at j }
{
    if j == 0 {
        return Seconds(MOST_FIGURE + 1);
    }
    time_at(labels, at, j - 1)
}

// What an entry that the file's end cuts off is refused for: its time, if that stands whole and breaks a rule, or else the cut.
#[tactic(auto, using(crate::proofs::Entries::cut_time, crate::proofs::Entries::cut_bad_time, crate::proofs::Entries::cut_energy))]
fn cut_entry_refusal(labels: &[u8], at: usize, j: usize) -> LabelRefusal
    requires at_in_bounds { (at ≤ length labels.now) × (length labels.now ≤ most_bytes) }
    requires j_le_most_count { j ≤ most_count }
    requires labels_len_bound { length labels.now < energy_end labels.now at j }
    ensures { refusal_number result ≡ entry_number labels.now at j }
{
    if labels.len() < at + TIME_END + STRIDE * j {
        return LabelRefusal::Bytes;
    }
    if !time_fits(time_ceiling(labels, at, j), time_at(labels, at, j)) {
        return LabelRefusal::Lists;
    }
    LabelRefusal::Bytes
}

// Tests the first entries of a list, all of which stand whole in the file. Each is read once.
fn test_entries(labels: &[u8], least: Energy, at: usize, whole: usize) -> Result<(), LabelRefusal>
    requires whole_in_bounds { entries_end labels.now at whole ≤ length labels.now }
    requires least_value { least.0 ≡ least_entry_energy (version_of labels.now) }
    ensures { number_of result ≡ first_fault (entry_number labels.now at) 0 whole }
{
    let mut ceiling = Seconds(MOST_FIGURE + 1);
    let mut floor = least;
    for j in 0..whole {
        let time = time_at(labels, at, j);
        let energy = energy_at(labels, at, j);
        if !time_fits(ceiling, time) || !energy_fits(floor, energy) {
            return Err(LabelRefusal::Lists);
        }
        ceiling = time;
        floor = energy + Energy(1);
    }
    Ok(())
}

// How many of `count` entries of the list at a byte stand whole in the file.
fn entries_inside(labels: &[u8], at: usize, count: usize) -> usize
    requires { count_end at ≤ length labels.now }
    ensures { Inside labels.now at count result }
{
    count.min((labels.len() - at - COUNT_BYTES) / ENTRY_BYTES)
}

// Tests the list at a byte.
pub fn test_list(labels: &[u8], least: Energy, at: usize) -> Result<(), LabelRefusal>
    requires at_in_bounds { (at ≤ length labels.now) × (length labels.now ≤ most_bytes) }
    requires least_value { least.0 ≡ least_entry_energy (version_of labels.now) }
    ensures { number_of result ≡ list_number labels.now at }
{
    if labels.len() < at + COUNT_BYTES {
        return Err(LabelRefusal::Bytes);
    }
    let count = count_at(labels, at) as usize;
    if count > MOST_COUNT {
        return Err(LabelRefusal::Lists);
    }
    let whole = entries_inside(labels, at, count);
    test_entries(labels, least, at, whole)?;
    if whole < count {
        return Err(cut_entry_refusal(labels, at, whole));
    }
    Ok(())
}

// The byte behind the lists that were passed, and the entries counted.
#[derive(Clone, Copy)]
pub struct Scanned {
    pub at: usize,
    pub total: usize,
}

// Passes over so many lists, whatever their lengths.
fn scan_some(
    labels: &[u8],
    least: Energy,
    at: usize,
    lists: u32,
    total: usize,
) -> Result<Scanned, LabelRefusal>
    requires at_in_bounds { (at ≤ length labels.now) × (length labels.now ≤ most_bytes) }
    requires total_le_at { total ≤ at }
    requires least_value { least.0 ≡ least_entry_energy (version_of labels.now) }
    ensures { ScannedSome labels.now at lists total result }
{
    let mut place = Place { at };
    let mut sum = total;
    for _ in 0..lists {
        test_list(labels, least, place.at)?;
        sum += place.count(labels) as usize;
        place = place.next(labels);
    }
    Ok(Scanned {
        at: place.at,
        total: sum,
    })
}

// Passes over the lists of one junction, as many as its depth: a run of single entries, a run of short lists, and what is left.
fn scan_junction(
    labels: &[u8],
    least: Energy,
    at: usize,
    depth: u32,
    total: usize,
) -> Result<Scanned, LabelRefusal>
    requires at_in_bounds { (at ≤ length labels.now) × (length labels.now ≤ most_bytes) }
    requires total_le_at { total ≤ at }
    requires least_value { least.0 ≡ least_entry_energy (version_of labels.now) }
    ensures { ScannedSome labels.now at depth total result }
{
    let single = pass_single(labels, least, at, depth, total);
    let short = pass_short(labels, least, single.at, depth - single.lists, single.total);
    let left = depth - single.lists - short.lists;
    scan_some(labels, least, short.at, left, short.total)
}

// Passes over all lists once, and notes where each junction's start.
pub fn scan_lists(
    labels: &[u8],
    depths: &[u32; 1024],
    tables: &mut [u32; 13312],
) -> Result<Scanned, LabelRefusal>
    requires parents_fit { ParentsFit labels.now }
    requires depths_filled { DepthsFilled labels.now depths.now }
    requires labels_len_bound { length labels.now ≤ most_bytes }
    requires tables_len { length tables.old ≡ table_places }
    ensures { ScannedAll labels.now tables.new result }
{
    let least = least_entry_energy(version_of(labels));
    let mut passed = Scanned {
        at: lists_from(labels),
        total: 0,
    };
    for v in 0..junctions_of(labels) as usize {
        tables[STARTS + v] = passed.at as u32;
        passed = scan_junction(labels, least, passed.at, depths[v], passed.total)?;
    }
    Ok(passed)
}

// Loads the list at a byte into the first places of two slices, and returns its count.
#[tactic(auto, unfolding(forest::specs::LabelFile::list_end))]
pub fn load(labels: &[u8], at: usize, times: &mut [u32], energies: &mut [u32]) -> usize
    requires at_in_bounds { list_end labels.now at ≤ length labels.now }
    requires at_in_bounds_2 { count_at labels.now at ≤ length times.old }
    requires at_in_bounds_3 { count_at labels.now at ≤ length energies.old }
    ensures { Loaded labels.now at times.old energies.old times.new energies.new result }
{
    let count = count_at(labels, at) as usize;
    for j in 0..count {
        times[j] = time_at(labels, at, j).0;
        energies[j] = energy_at(labels, at, j).0;
    }
    count
}

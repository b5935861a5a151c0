// The form of a label file: what it is refused for, alone or beside a network.
ghost use Rattle.std.specs.Prelude.{◌≡◌, ◌≤◌, length, IfSome};
ghost use Rattle.tables.specs.working.Layout.{table_places};
ghost use Rattle.network.specs.NetworkFile.{header_bytes, junctions_of};
ghost use Rattle.network.specs.working.Fits.{NetworkFits};
ghost use Rattle.stored.specs.ListForm.{most_bytes};
ghost use Rattle.stored.specs.Refusal.{number_of};
ghost use Rattle.files.specs.LabelForm.{header_form};
ghost use Rattle.forest.specs.working.Fits.{ParentsFit, DepthsFilled};
ghost use Rattle.files.specs.working.FormRead.{FitsTested, ParentsNumbered, RoadsTested, ListsNumbered, LabelsNumbered, LabelsTested};

use file_bytes::marked;
use forest::parents::{entries_of, fill_depths, lists_from, roads_join};
use network::header::{HEADER_BYTES, identity_of, junctions_of, version_of};
use network::versions::Served;
use stored::refusal::LabelRefusal;
use stored::stored::scan_lists;

const MOST_BYTES: usize = 4194304;

// Tests the header: too few or too many bytes, the mark, the version.
#[tactic(auto, using(crate::proofs::FormTests::header_short, crate::proofs::FormTests::header_huge))]
fn test_header(labels: &[u8], serves: Served) -> Result<(), LabelRefusal>
    ensures { number_of result ≡ header_form serves labels.now }
{
    if labels.len() < HEADER_BYTES || labels.len() > MOST_BYTES {
        return Err(LabelRefusal::Bytes);
    }
    if !marked(b'T', b'L', b'B', labels) {
        return Err(LabelRefusal::Mark);
    }
    if !serves.includes(version_of(labels)) {
        return Err(LabelRefusal::Version);
    }
    Ok(())
}

// What 14 asks: beside a network its own junctions and identity, or else a count of junctions in range.
fn network_fits(net: Option<&[u8]>, labels: &[u8]) -> bool
    requires net_header { IfSome net (λ beside. header_bytes ≤ length beside.now) }
    requires labels_header { header_bytes ≤ length labels.now }
    ensures { FitsTested net.entry labels.now result }
{
    let n = junctions_of(labels);
    match net {
        Some(net) => n == junctions_of(net) && identity_of(labels) == identity_of(net),
        None => 1 <= n && n <= 1024,
    }
}

// Tests the parents, which may be cut off; where they pass, the depths are filled.
fn test_parents(labels: &[u8], depths: &mut [u32; 1024]) -> Result<(), LabelRefusal>
    requires header_bytes_in_bounds { header_bytes ≤ length labels.now }
    requires labels_bound { junctions_of labels.now ≤ 1024 }
    requires depths_len { length depths.old ≡ 1024 }
    ensures { ParentsNumbered labels.now depths.new (number_of result) }
{
    if labels.len() < lists_from(labels) {
        return Err(LabelRefusal::Bytes);
    }
    if !fill_depths(labels, depths) {
        return Err(LabelRefusal::Parents);
    }
    Ok(())
}

// What 16 asks: each road of a network joins an ancestor and a descendant.
fn roads_fit(net: Option<&[u8]>, labels: &[u8], depths: &[u32; 1024]) -> bool
    requires network_fits { IfSome net (λ beside. NetworkFits beside.now × (junctions_of beside.now ≡ junctions_of labels.now)) }
    requires parents_fit { ParentsFit labels.now }
    requires depths_filled { DepthsFilled labels.now depths.now }
    ensures { RoadsTested net.entry labels.now result }
{
    match net {
        Some(net) => roads_join(net, labels, depths),
        None => true,
    }
}

// Tests the lists, then the bytes left behind them, then the count of all entries; where they pass, the starts are filled. Kept out of
// the tests around it: each list begins where the one before it ends, and that place has to stay in a register.
#[inline(never)]
fn test_lists(
    labels: &[u8],
    depths: &[u32; 1024],
    tables: &mut [u32; 13312],
) -> Result<(), LabelRefusal>
    requires parents_fit { ParentsFit labels.now }
    requires depths_filled { DepthsFilled labels.now depths.now }
    requires labels_len_bound { length labels.now ≤ most_bytes }
    requires tables_len { length tables.old ≡ table_places }
    ensures { ListsNumbered labels.now tables.new (number_of result) }
{
    let scanned = scan_lists(labels, depths, tables)?;
    if scanned.at != labels.len() {
        return Err(LabelRefusal::Bytes);
    }
    if scanned.total != entries_of(labels) as usize {
        return Err(LabelRefusal::Lists);
    }
    Ok(())
}

// Tests labels beside a network that passed, or alone; where they pass, both tables are filled.
pub fn test_labels(
    net: Option<&[u8]>,
    labels: &[u8],
    serves: Served,
    depths: &mut [u32; 1024],
    tables: &mut [u32; 13312],
) -> Result<(), LabelRefusal>
    requires network_fits { IfSome net (λ beside. NetworkFits beside.now) }
    requires depths_len { length depths.old ≡ 1024 }
    requires tables_len { length tables.old ≡ table_places }
    ensures { LabelsTested serves net.entry labels.now depths.new tables.new (number_of result) }
{
    test_header(labels, serves)?;
    if !network_fits(net, labels) {
        return Err(LabelRefusal::Network);
    }
    test_parents(labels, depths)?;
    if !roads_fit(net, labels, depths) {
        return Err(LabelRefusal::Road);
    }
    test_lists(labels, depths, tables)
}

// The number of labels beside a network that passed, 0 where they pass too: what bench/ asks for, and it cannot fail.
pub fn labels_number(
    net: &[u8],
    labels: &[u8],
    serves: Served,
    depths: &mut [u32; 1024],
    tables: &mut [u32; 13312],
) -> u32
    requires network_fits { NetworkFits net.now }
    requires depths_len { length depths.old ≡ 1024 }
    requires tables_len { length tables.old ≡ table_places }
    ensures { LabelsNumbered serves net.now labels.now depths.new tables.new result }
{
    match test_labels(Some(net), labels, serves, depths, tables) {
        Ok(()) => 0,
        Err(refusal) => refusal.number(),
    }
}

// Show: the very bytes of one stored list, handed out from the labels lent.
ghost use Rattle.std.specs.Prelude.{◌≡◌, ◌+◌, ◌≤◌, ◌<◌, length};
ghost use Rattle.network.specs.Versions.{version_one};
ghost use Rattle.network.specs.NetworkFile.{junctions_of};
ghost use Rattle.stored.specs.Stored.{list_place};
ghost use Rattle.files.specs.LabelForm.{labels_number_alone};
ghost use Rattle.forest.specs.working.Fits.{ParentsFit, DepthsFilled};
ghost use Rattle.stored.specs.working.Formed.{Formed, StartsFilled};
ghost use Rattle.files.specs.Shown.{Shown};
ghost use Rattle.files.specs.working.Span.{AboveTested, SpanFound};

use crate::form::test_labels;
use forest::parents::is_ancestor;
use network::header::junctions_of;
use network::versions::version_one;
use stored::place::find_list;

// The bytes from one place up to another.
#[derive(Clone, Copy)]
pub struct Span {
    pub start: usize,
    pub end: usize,
}

// Whether u is a proper ancestor of v.
fn is_above(labels: &[u8], depths: &[u32; 1024], u: usize, v: usize) -> bool
    requires parents_fit { ParentsFit labels.now }
    requires depths_filled { DepthsFilled labels.now depths.now }
    requires u_bound { u < junctions_of labels.now }
    requires v_bound { v < junctions_of labels.now }
    ensures { AboveTested labels.now u v result }
{
    u != v && is_ancestor(labels, depths, u, v)
}

// Where the list to show stands in labels that passed, if there is one.
fn list_span(
    labels: &[u8],
    depths: &[u32; 1024],
    tables: &[u32; 13312],
    v: usize,
    u: usize,
) -> Option<Span>
    requires labels_value { labels_number_alone version_one labels.now ≡ 0 }
    requires formed { Formed labels.now }
    requires depths_filled { DepthsFilled labels.now depths.now }
    requires starts_filled { StartsFilled labels.now tables.now }
    ensures { SpanFound labels.now v u result }
{
    let n = junctions_of(labels) as usize;
    if v >= n || u >= n || !is_above(labels, depths, u, v) {
        return None;
    }
    let place = find_list(labels, depths, tables, v, u);
    Some(Span {
        start: place.at,
        end: place.next(labels).at,
    })
}

// Where the list to show stands in any labels, if there is one, for callers who cannot be handed a part.
pub fn span_of(labels: &[u8], v: u32, u: u32) -> Option<Span>
    ensures { SpanFound labels.now v u result }
{
    let mut depths: [u32; 1024] = [0; 1024];
    let mut tables: [u32; 13312] = [0; 13312];
    test_labels(None, labels, version_one(), &mut depths, &mut tables).ok()?;
    list_span(labels, &depths, &tables, v as usize, u as usize)
}

// The list of v and its proper ancestor u, from its count through its last entry; the empty part where there is none to show.
pub fn show(labels: &[u8], v: u32, u: u32) -> &[u8]
    ensures shown { Shown labels.now v u result.now }
    ensures ref_ptr_value { 1 ≤ length result.now → result.ref_ptr ≡ (labels.entry.ref_ptr.0, list_place labels.now v u + labels.entry.ref_ptr.1) }
{
    let span = span_of(labels, v, u).unwrap_or(Span { start: 0, end: 0 });
    &labels[span.start..span.end]
}

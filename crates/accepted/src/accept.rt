// The check with its tables left filled: what every call but Show and the joins begins with. All large arrays are lent, so that each
// call makes them once, at its start.
ghost use Rattle.std.specs.Prelude.{◌≡◌, length};
ghost use Rattle.tables.specs.working.Layout.{table_places};
ghost use Rattle.forest.specs.working.Fits.{DepthsFilled};
ghost use Rattle.stored.specs.working.Formed.{StartsFilled, FilesFit, Tables};
ghost use Rattle.accepted.specs.CheckRefusals.{check_number_of};
ghost use Rattle.accepted.specs.working.Accepting.{Accepting};

use crate::answers::CheckRefusal;
use exact::sweep::exact;
use files::form::test_labels;
use network::network::test_network;
use network::roads::group_roads;
use network::versions::version_one;
use preorder::number::number;
use stored::set::LabelSet;

// What files that fit have in the lent table besides their starts: the roads at each junction, and the numbering.
fn fill_tables(net: &[u8], labels: &[u8], depths: &[u32; 1024], tables: &mut [u32; 13312])
    requires { FilesFit net.now labels.now × DepthsFilled labels.now depths.now × StartsFilled labels.now tables.old }
    ensures { Tables net.now labels.now depths.now tables.new }
{
    group_roads(net, tables);
    number(labels, depths, tables);
}

// The check; where it accepts, the tables are filled.
pub fn accept(
    net: &[u8],
    labels: &[u8],
    depths: &mut [u32; 1024],
    tables: &mut [u32; 13312],
) -> Result<(), CheckRefusal>
    requires { (length depths.old ≡ 1024) × (length tables.old ≡ table_places) }
    ensures { Accepting net.now labels.now (check_number_of result) depths.new tables.new }
{
    // Made and used first of all, so that the compiler makes the frame at the start.
    let mut places: [u32; 1024] = [0; 1024];
    let mut marks: [u8; 4096] = [0; 4096];
    test_network(net, version_one())?;
    test_labels(Some(net), labels, version_one(), depths, tables)?;
    fill_tables(net, labels, depths, tables);
    let set = LabelSet {
        net,
        labels,
        depths,
        tables,
    };
    if exact(set, &mut places, &mut marks) {
        return Ok(());
    }
    Err(CheckRefusal::WrongList)
}

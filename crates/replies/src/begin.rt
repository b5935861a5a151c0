// The check and the first line that is printed.
ghost use Rattle.std.specs.Prelude.{◌≡◌, length};
ghost use Rattle.tables.specs.working.Layout.{table_places};
ghost use Rattle.replies.specs.working.Buffer.{FirstLine};

use crate::Begun;
use crate::lines::{put_heading, put_refused};
use accepted::accept::accept;
use forest::parents::entries_of;
use network::header::{junctions_of, roads_of};
use text::write::Writer;

// Checks the files once and puts the heading, or the refusal, at the start of the buffer.
#[tactic(auto, using(crate::proofs::FirstLines::first_refused, crate::proofs::FirstLines::first_heading))]
pub fn begin(
    net: &[u8],
    labels: &[u8],
    depths: &mut [u32; 1024],
    tables: &mut [u32; 13312],
    out: &mut [u8],
) -> Begun
    requires depths_len { (length depths.old ≡ 1024) × (length tables.old ≡ table_places) }
    requires out_len { length out.old ≡ 65536 }
    ensures { FirstLine net.now labels.now depths.new tables.new
        out.new result.number result.used }
{
    let mut writer = Writer { out, used: 0 };
    match accept(net, labels, depths, tables) {
        Ok(()) => {
            put_heading(
                &mut writer,
                junctions_of(net),
                roads_of(net),
                entries_of(labels),
            );
            Begun {
                number: 0,
                used: writer.used,
            }
        }
        Err(refusal) => {
            put_refused(&mut writer, refusal.number());
            Begun {
                number: refusal.number(),
                used: writer.used,
            }
        }
    }
}

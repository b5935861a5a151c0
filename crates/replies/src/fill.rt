// The replies to as many lines as the buffer takes.
ghost use Rattle.std.specs.Prelude.{◌≡◌, ◌≤◌, length};
ghost use Rattle.query.specs.working.PreparedSet.{IsPrepared};
ghost use Rattle.replies.specs.working.Buffer.{FilledTo};

use crate::Filled;
use crate::reply::reply;
use stored::set::LabelSet;
use text::read::line_end;
use text::write::Writer;

// Replies to the lines from byte `from` on as long as the longest reply is sure to fit.
pub fn fill(set: LabelSet<'_>, input: &[u8], from: usize, out: &mut [u8]) -> Filled
    requires prepared { IsPrepared set }
    requires input_len_bound { (length input.now ≤ 65536) × (length out.old ≡ 65536) }
    ensures { FilledTo set.entry.net.now input.now from out.new result.next result.used }
{
    let mut next = from;
    let mut writer = Writer { out, used: 0 };
    // How far one turn goes is told by the line.
    while next < input.len() && writer.used <= 53248 {
        let end = line_end(input, next);
        reply(set, &input[next..end], &mut writer);
        next = end + 1;
    }
    Filled {
        next,
        used: writer.used,
    }
}

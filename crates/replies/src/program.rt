// The whole program, over two paths and two descriptors.
ghost use Rattle.std.specs.Prelude.{◌≡◌, ◌+◌, ◌≤◌, length, take};
ghost use Rattle.tables.specs.working.Layout.{table_places};
ghost use Rattle.query.specs.working.PreparedSet.{IsPrepared};
ghost use Rattle.replies.specs.HandedOn.{RepliesHandedOn, PrintedHandedOn};
ghost use Rattle.replies.specs.working.Buffer.{FirstBytes};

use crate::HandedOn;
use crate::begin::begin;
use crate::fill::fill;
use reading::read_file;
use std::rt::Files;
use stored::set::LabelSet;

// The first bytes of a buffer: what was read into it, or what is to be handed on.
fn first_bytes(buffer: &[u8], count: usize) -> &[u8]
    requires { count ≤ length buffer.now }
    ensures { FirstBytes buffer.now count result.now }
{
    &buffer[..count]
}

// The only write: the first bytes of the buffer. Counts them with those handed on before.
fn hand_on(output: i32, out: &[u8], used: usize, before: usize) -> usize
    requires { (used ≤ length out.now) × (length out.now ≤ 65536) × (before ≤ 4295098368) }
    ensures { result ≡ before + used }
{
    let part = first_bytes(out, used);
    io::write_all(output, part);
    before + part.len()
}

// Hands on the replies to every line, one filled buffer after another.
fn print_replies(
    set: LabelSet<'_>,
    input: &[u8],
    output: i32,
    out: &mut [u8],
    before: usize,
) -> usize
    requires prepared { IsPrepared set }
    requires input_len_bound { (length input.now ≤ 65536) × (length out.old ≡ 65536) × (before ≤ 65536) }
    ensures { RepliesHandedOn set.entry.net.now input.now before result }
{
    let mut next = 0;
    let mut total = before;
    // How far one turn goes is told by what fits into the buffer.
    while next < input.len() {
        let filled = fill(set, input, next, out);
        total = hand_on(output, out, filled.used, total);
        next = filled.next;
    }
    total
}

// Prints the first line and, on an accepted set, the replies to what is read of the input.
fn answer_input(
    net: &[u8],
    labels: &[u8],
    input: i32,
    output: i32,
    depths: &mut [u32; 1024],
    tables: &mut [u32; 13312],
    text: &mut [u8],
) -> HandedOn
    requires { (length depths.old ≡ 1024) × (length tables.old ≡ table_places) × (length text.old ≤ 65536) }
    ensures { PrintedHandedOn net.now labels.now (take result.read text.new) result.total }
{
    let mut out = io::large_buffer();
    let begun = begin(net, labels, depths, tables, &mut out);
    let first = hand_on(output, &out, begun.used, 0);
    if begun.number != 0 {
        return HandedOn {
            read: 0,
            total: first,
        };
    }
    let count = io::read_full(input, text);
    let set = LabelSet {
        net,
        labels,
        depths,
        tables,
    };
    let total = print_replies(set, first_bytes(text, count), output, &mut out, first);
    HandedOn { read: count, total }
}

// Answers the query lines of `input` on the two files.
pub fn run<R: Files>(files: &R, net_path: &[u8], labels_path: &[u8], input: i32, output: i32) {
    let mut depths = [0; 1024];
    let mut tables = [0; 13312];
    let mut net_bytes = io::large_buffer();
    let mut labels_bytes = io::large_buffer();
    let mut text = io::large_buffer();
    let net = read_file(files, net_path, &mut net_bytes);
    let labels = read_file(files, labels_path, &mut labels_bytes);
    answer_input(
        net,
        labels,
        input,
        output,
        &mut depths,
        &mut tables,
        &mut text,
    );
}

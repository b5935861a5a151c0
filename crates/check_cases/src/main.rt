// Runs every case of data/ through the check, and prints its note and its number.
#![tactic(auto)]

use reading::read_start;
use std::rt::Files;

const STANDARD_OUTPUT: i32 = 1;

const CASES: usize = 72;

fn digit(k: usize) -> u8 {
    b'0' + (k % 10) as u8
}

// The file of case k with an ending.
fn path(k: usize, ending: &[u8; 3]) -> [u8; 7] {
    let [a, b, c] = *ending;
    [digit(k / 100), digit(k / 10), digit(k), b'.', a, b, c]
}

fn run_case<R: Files>(files: &R, k: usize) {
    let mut note = io::buffer();
    let mut net = io::large_buffer();
    let mut labels = io::large_buffer();
    io::write_all(
        STANDARD_OUTPUT,
        read_start(files, &path(k, b"txt"), &mut note),
    );
    io::write_all(STANDARD_OUTPUT, b": ");
    let answer = labels::check(
        read_start(files, &path(k, b"net"), &mut net),
        read_start(files, &path(k, b"lab"), &mut labels),
    );
    io::print_decimal(STANDARD_OUTPUT, u64::from(answer));
    io::write_all(STANDARD_OUTPUT, b"\n");
}

fn main(rt: HostRuntime) {
    for k in 0..CASES {
        run_case(&rt, k);
    }
}

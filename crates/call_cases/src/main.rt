// Runs the calls on the networks of data/ and prints what each gives, with every lent place: 9999 is one that was not written.
#![tactic(auto)]

use labels::{FoundRoute, ListRefusal, RouteRefusal};
use reading::read_start;
use std::rt::Files;

const STANDARD_OUTPUT: i32 = 1;

fn print(x: u32) {
    io::write_all(STANDARD_OUTPUT, b" ");
    io::print_decimal(STANDARD_OUTPUT, u64::from(x));
}

fn print_all(places: &[u32; 6]) {
    for place in places {
        print(*place);
    }
    io::write_all(STANDARD_OUTPUT, b"\n");
}

fn print_route(answer: Result<FoundRoute, RouteRefusal>) {
    match answer {
        Ok(found) => {
            print(0);
            print(found.pair.time.0);
            print(found.pair.energy.0);
            print(found.count);
        }
        Err(refusal) => print(refusal.number()),
    }
}

fn print_list(answer: Result<u32, ListRefusal>) {
    match answer {
        Ok(count) => {
            print(0);
            print(count);
        }
        Err(refusal) => print(refusal.number()),
    }
}

// A route with some of six places lent.
fn route(net: &[u8], labels: &[u8], s: u32, t: u32, limit: u32, room: usize) {
    let mut places = [9999; 6];
    if room > 6 {
        return;
    }
    io::write_all(STANDARD_OUTPUT, b"route");
    print(s);
    print(t);
    print(limit);
    io::write_all(STANDARD_OUTPUT, b":");
    let answer = labels::route(net, labels, s, t, limit, &mut places[..room]);
    print_route(answer);
    io::write_all(STANDARD_OUTPUT, b" |");
    print_all(&places);
}

// A list with some of six places lent for the times, and all for the energies.
fn list(net: &[u8], labels: &[u8], s: u32, t: u32, room: usize) {
    let mut times = [9999; 6];
    let mut energies = [9999; 6];
    if room > 6 {
        return;
    }
    io::write_all(STANDARD_OUTPUT, b"list");
    print(s);
    print(t);
    io::write_all(STANDARD_OUTPUT, b":");
    let answer = labels::list(net, labels, s, t, &mut times[..room], &mut energies);
    print_list(answer);
    io::write_all(STANDARD_OUTPUT, b" |");
    print_all(&times);
    io::write_all(STANDARD_OUTPUT, b"  |");
    print_all(&energies);
}

// Both ways between two junctions, under each limit of the worked examples.
fn limits(net: &[u8], labels: &[u8]) {
    route(net, labels, 0, 3, 2, 5);
    route(net, labels, 0, 3, 3, 5);
    route(net, labels, 0, 3, 6, 5);
    route(net, labels, 0, 3, 7, 5);
    route(net, labels, 0, 3, 8, 5);
    route(net, labels, 0, 3, 9, 5);
    route(net, labels, 3, 0, 9, 5);
    route(net, labels, 0, 4, 12, 5);
}

// The same junction, junctions off the map, rooms one too small and just enough.
fn edges(net: &[u8], labels: &[u8]) {
    route(net, labels, 0, 0, 0, 1);
    route(net, labels, 0, 0, 0, 0);
    route(net, labels, 9, 9, 0, 5);
    route(net, labels, 0, 4294967295, 9, 5);
    route(net, labels, 0, 1, 5, 5);
    route(net, labels, 0, 3, 7, 3);
    route(net, labels, 0, 3, 7, 4);
    list(net, labels, 0, 3, 3);
    list(net, labels, 0, 3, 2);
    list(net, labels, 0, 0, 1);
    list(net, labels, 0, 0, 0);
    list(net, labels, 0, 5, 4);
}

fn batch(net: &[u8], labels: &[u8], queries: &[u32; 6]) {
    let mut answers = [9999; 6];
    let number = labels::batch(net, labels, queries, &mut answers);
    io::write_all(STANDARD_OUTPUT, b"batch:");
    print(number);
    io::write_all(STANDARD_OUTPUT, b" |");
    print_all(&answers);
}

// A refused triple beside an answered one, both ways round, and one triple twice.
fn batches(net: &[u8], labels: &[u8]) {
    batch(net, labels, &[0, 3, 2, 0, 3, 7]);
    batch(net, labels, &[0, 3, 9, 9, 0, 4]);
    batch(net, labels, &[0, 2, 5, 0, 2, 5]);
}

fn run<R: Files>(files: &R, name: u8) {
    let mut network_bytes = io::large_buffer();
    let mut label_bytes = io::large_buffer();
    let network = read_start(files, &[name, b'.', b'n', b'e', b't'], &mut network_bytes);
    let labels = read_start(files, &[name, b'.', b'l', b'a', b'b'], &mut label_bytes);
    io::write_all(STANDARD_OUTPUT, b"network ");
    io::write_all(STANDARD_OUTPUT, &[name]);
    io::write_all(STANDARD_OUTPUT, b", check:");
    print(labels::check(network, labels));
    io::write_all(STANDARD_OUTPUT, b"\n");
    limits(network, labels);
    edges(network, labels);
    batches(network, labels);
}

// Network A, the square, two parts, one junction, two junctions without roads, and A without (6,3), E made 13 and left 14.
fn main(rt: HostRuntime) {
    for name in b"aspotde" {
        run(&rt, *name);
    }
}

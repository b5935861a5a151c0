// The network file: whether it is accepted, and what it is refused for.
ghost use Rattle.std.specs.Prelude.{◌≡◌, ◌≤◌, length};
ghost use Rattle.refusals.specs.Order.{first_fault};
ghost use Rattle.network.specs.NetworkFile.{header_bytes, record_at, record_end};
ghost use Rattle.network.specs.NetworkNumber.{record_rises, ends_fit, figures_fit, record_number, sizes_fit, header_number, net_number};
ghost use Rattle.network.specs.NetworkRefusal.{number_of};

use super::header::{HEADER_BYTES, junctions_of, roads_of, version_of};
use super::refusal::NetworkRefusal;
use super::roads::{road_energy, road_high, road_low, road_time};
use super::versions::{RECORD_BYTES, Served, least_energy};
use file_bytes::marked;
use paths::seconds::Seconds;

// Record k stands after the one before.
fn record_rises(net: &[u8], k: usize) -> bool
    requires { record_end net.now k ≤ length net.now }
    ensures { result ≡ record_rises net.now k }
{
    k == 0 || (road_low(net, k - 1), road_high(net, k - 1)) < (road_low(net, k), road_high(net, k))
}

#[tactic(auto, unfolding(crate::specs::NetworkNumber::ends_fit))]
fn ends_fit(net: &[u8], k: usize) -> bool
    requires { record_end net.now k ≤ length net.now }
    ensures { result ≡ ends_fit net.now k }
{
    let low = road_low(net, k);
    let high = road_high(net, k);
    low < high && high < junctions_of(net) as usize && record_rises(net, k)
}

#[tactic(auto, unfolding(crate::specs::NetworkNumber::figures_fit))]
fn figures_fit(net: &[u8], k: usize) -> bool
    requires { record_end net.now k ≤ length net.now }
    ensures { result ≡ figures_fit net.now k }
{
    Seconds(1) <= road_time(net, k) && least_energy(version_of(net)) <= road_energy(net, k)
}

#[tactic(auto, unfolding(crate::specs::NetworkNumber::record_number))]
fn test_record(net: &[u8], k: usize) -> Result<(), NetworkRefusal>
    requires { record_end net.now k ≤ length net.now }
    ensures { number_of result ≡ record_number net.now k }
{
    if !ends_fit(net, k) {
        return Err(NetworkRefusal::Ends);
    }
    if !figures_fit(net, k) {
        return Err(NetworkRefusal::Figures);
    }
    Ok(())
}

// The first record that is refused decides.
fn test_records(net: &[u8], roads: usize) -> Result<(), NetworkRefusal>
    requires { record_at net.now roads 0 ≤ length net.now }
    ensures { number_of result ≡ first_fault (record_number net.now) 0 roads }
{
    for k in 0..roads {
        test_record(net, k)?;
    }
    Ok(())
}

#[tactic(auto, unfolding(crate::specs::NetworkNumber::sizes_fit))]
fn sizes_fit(net: &[u8]) -> bool
    requires { header_bytes ≤ length net.now }
    ensures { result ≡ sizes_fit net.now }
{
    (1..=1024).contains(&junctions_of(net)) && roads_of(net) <= 4096
}

// The header and the whole length.
#[tactic(auto, unfolding(crate::specs::NetworkNumber::header_number))]
fn test_header(net: &[u8], serves: Served) -> Result<(), NetworkRefusal>
    ensures { number_of result ≡ header_number serves net.now }
{
    if net.len() < HEADER_BYTES {
        return Err(NetworkRefusal::Length);
    }
    if !marked(b'T', b'R', b'N', net) {
        return Err(NetworkRefusal::Mark);
    }
    if !serves.includes(version_of(net)) {
        return Err(NetworkRefusal::Version);
    }
    if !sizes_fit(net) {
        return Err(NetworkRefusal::Counts);
    }
    if net.len() != HEADER_BYTES + RECORD_BYTES * roads_of(net) as usize {
        return Err(NetworkRefusal::Length);
    }
    Ok(())
}

// Whether a network file is accepted.
pub fn test_network(net: &[u8], serves: Served) -> Result<(), NetworkRefusal>
    ensures { number_of result ≡ net_number serves net.now }
{
    test_header(net, serves)?;
    test_records(net, roads_of(net) as usize)
}

// The number of a network file, 0 if it is accepted: what bench/ asks for, and it cannot fail.
pub fn net_number(net: &[u8], serves: Served) -> u32
    ensures { result ≡ net_number serves net.now }
{
    match test_network(net, serves) {
        Ok(()) => 0,
        Err(refusal) => refusal.number(),
    }
}

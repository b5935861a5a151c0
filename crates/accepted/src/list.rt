// Trade-off list on an accepted set: the entries are counted before the first is written, so that a refusal changes nothing lent.
ghost use Rattle.std.specs.Prelude.{◌≡◌, false, ◌<◌, min};
ghost use Rattle.network.specs.NetworkFile.{junctions_of};
ghost use Rattle.query.specs.working.PreparedSet.{IsPrepared};
ghost use Rattle.accepted.specs.List.{ListAnswered};
ghost use Rattle.accepted.specs.ListAnswers.{list_number_of, list_count_of};
ghost use Rattle.accepted.specs.working.FromCheck.{list_from_check};
ghost use Rattle.accepted.specs.working.ListPut.{ListPut, itself};

use crate::answers::ListRefusal;
use network::header::junctions_of;
use query::climbing::between;
use stored::set::LabelSet;
use tradeoffs::list::{list_count, list_fill};

// The room of two slices is that of the shorter one.
fn shorter(times: usize, energies: usize) -> usize
    ensures { result ≡ min times energies }
{
    times.min(energies)
}

// The list of a junction and itself: the pair of the path that stays there.
fn list_of_itself(times: &mut [u32], energies: &mut [u32]) -> Result<u32, ListRefusal>
    ensures list_put { ListPut itself times.old energies.old
        (list_number_of result) (list_count_of result) times.new energies.new }
    ensures result_value { list_from_check result ≡ false }
{
    if shorter(times.len(), energies.len()) > 0 {
        times[0] = 0;
        energies[0] = 0;
        return Ok(1);
    }
    Err(ListRefusal::NoRoom)
}

// The list of two junctions of the map.
fn list_on_map(
    set: LabelSet<'_>,
    s: usize,
    t: usize,
    times: &mut [u32],
    energies: &mut [u32],
) -> Result<u32, ListRefusal>
    requires prepared { IsPrepared set }
    requires s_bound { (s < junctions_of set.labels.now) × (t < junctions_of set.labels.now) }
    ensures list_answered { ListAnswered set.entry.net.now s t times.old energies.old
        (list_number_of result) (list_count_of result) times.new energies.new }
    ensures result_value { list_from_check result ≡ false }
{
    if s == t {
        return list_of_itself(times, energies);
    }
    let lists = between(set.labels, set.depths, set.tables, s, t);
    let count = list_count(set.labels, lists);
    if count == 0 {
        return Err(ListRefusal::NotConnected);
    }
    if shorter(times.len(), energies.len()) < count as usize {
        return Err(ListRefusal::NoRoom);
    }
    list_fill(set.labels, lists, count, times, energies);
    Ok(count)
}

// The list of any two numbers: what is no junction is off the map.
pub fn write_list(
    set: LabelSet<'_>,
    s: u32,
    t: u32,
    times: &mut [u32],
    energies: &mut [u32],
) -> Result<u32, ListRefusal>
    requires { IsPrepared set }
    ensures list_answered { ListAnswered set.entry.net.now s t times.old energies.old
        (list_number_of result) (list_count_of result) times.new energies.new }
    ensures result_value { list_from_check result ≡ false }
{
    let junctions = junctions_of(set.net);
    if s >= junctions {
        return Err(ListRefusal::OffMap);
    }
    if t >= junctions {
        return Err(ListRefusal::OffMap);
    }
    list_on_map(set, s as usize, t as usize, times, energies)
}

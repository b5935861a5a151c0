// The best answer for two junctions under a limit, from the labels alone.
ghost use Rattle.std.specs.Prelude.{◌<◌};
ghost use Rattle.network.specs.NetworkFile.{junctions_of};
ghost use Rattle.query.specs.working.PreparedSet.{IsPrepared};
ghost use Rattle.query.specs.working.AnswerValues.{number_of, time_of, energy_of};
ghost use Rattle.query.specs.Answers.{Answers};
ghost use Rattle.query.specs.working.AnswerFrom.{AnswerFrom};
ghost use Rattle.query.specs.working.Sums.{SumIn, Row, RowFits, Unknown, Told};

use crate::across::{Best, Sum, across};
use crate::climbing::between;
use crate::direct::from_list;
use crate::{Between, NoAnswer};
use network::header::junctions_of;
use paths::energy::Energy;
use paths::pair::Pair;
use paths::seconds::Seconds;
use stored::list::StoredList;
use stored::set::LabelSet;

// Later than any path, so that every sum comes before it.
const NO_TIME: Seconds = Seconds(u32::MAX);

// What is known of the best before any list is read.
pub fn unknown() -> Best
    ensures { Unknown result }
{
    Best {
        connected: false,
        sum: Sum {
            time: NO_TIME,
            energy: Energy(0),
            near: 0,
            far: 0,
            i: 0,
            j: 0,
        },
    }
}

// What is known of the best, as an answer.
fn told(best: Best) -> Result<Pair, NoAnswer>
    ensures { Told best result }
{
    let Sum { time, energy, .. } = best.sum;
    if time != NO_TIME {
        return Ok(Pair { time, energy });
    }
    if best.connected {
        return Err(NoAnswer::OverLimit);
    }
    Err(NoAnswer::NotConnected)
}

// The answer of the lists at two bytes and those behind them, so many on each side.
pub fn from_lists(
    labels: &[u8],
    near: usize,
    far: usize,
    levels: u32,
    limit: Energy,
) -> Result<Pair, NoAnswer>
    requires { RowFits labels.now near far levels }
    ensures { AnswerFrom (SumIn labels.now (Row labels.now near far levels)) limit.0 result }
{
    told(across(labels, near, far, levels, limit, unknown()))
}

// The answer for two junctions of the map.
pub fn best(set: LabelSet<'_>, x: usize, y: usize, limit: Energy) -> Result<Pair, NoAnswer>
    requires prepared { IsPrepared set }
    requires x_bound { (x < junctions_of set.labels.now) × (y < junctions_of set.labels.now) }
    ensures { Answers set.entry.net.now x y limit.0 (number_of result) (time_of result) (energy_of result) }
{
    if x == y {
        return Ok(Pair {
            time: Seconds(0),
            energy: Energy(0),
        });
    }
    match between(set.labels, set.depths, set.tables, x, y) {
        Between::Nothing => Err(NoAnswer::NotConnected),
        Between::List(at) => from_list(
            StoredList {
                labels: set.labels,
                at,
            },
            limit,
        ),
        Between::Lists {
            near,
            far,
            levels,
            ..
        } => from_lists(set.labels, near, far, levels, limit),
    }
}

// The answer for any two numbers: what is no junction is off the map.
pub fn answer(set: LabelSet<'_>, s: u32, t: u32, limit: u32) -> Result<Pair, NoAnswer>
    requires { IsPrepared set }
    ensures { Answers set.entry.net.now s t limit (number_of result) (time_of result) (energy_of result) }
{
    let junctions = junctions_of(set.net);
    if s >= junctions || t >= junctions {
        return Err(NoAnswer::OffMap);
    }
    best(set, s as usize, t as usize, Energy(limit))
}

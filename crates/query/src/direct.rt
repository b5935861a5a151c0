// The answer of one stored list: its last entry within the limit, since time falls as energy rises.
ghost use Rattle.stored.specs.Stored.{list_at};
ghost use Rattle.query.specs.working.AnswerFrom.{EntryOf, AnswerFrom};

use crate::NoAnswer;
use crate::places::fitting;
use paths::energy::Energy;
use paths::pair::Pair;
use stored::list::StoredList;

// The answer of a list.
pub fn from_list(list: StoredList<'_>, limit: Energy) -> Result<Pair, NoAnswer>
    ensures { AnswerFrom (EntryOf (list_at list.entry.labels.now list.entry.at)) limit.0 result }
{
    if list.count() == 0 {
        return Err(NoAnswer::NotConnected);
    }
    let count = fitting(list, Energy(0), limit);
    if count == 0 {
        return Err(NoAnswer::OverLimit);
    }
    Ok(Pair {
        time: list.time(count - 1),
        energy: list.energy(count - 1),
    })
}

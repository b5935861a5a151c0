// The whole trade-off list of two junctions, told by the lists between them. A single one is copied as it is stored; where two branches
// meet, the list is made from its last entry to its first: the best sum below a bound, then the best below that one's energy, and so on.
// It is counted first, so that nothing is written before the room is known.
ghost use Rattle.std.specs.Prelude.{◌≡◌, ◌≤◌, length};
ghost use Rattle.tradeoffs.specs.working.Tells.{Tells};
ghost use Rattle.spans.specs.working.Written.{SomeList, Counted, ListWritten};

use crate::noting::RowSums;
use query::Between;
use spans::sums::{count_reasoned, fill_reasoned};
use stored::place::Place;
use stored::stored::load;

// How many entries the list has that is told; 0 where none is.
pub fn list_count(labels: &[u8], lists: Between) -> u32
    requires { SomeList (Tells labels.now lists) }
    ensures { Counted (Tells labels.now lists) result }
{
    // Made and used first of all, so that the compiler makes the frame at the start.
    let mut leasts: [u32; 2048] = [0; 2048];
    match lists {
        Between::Nothing => 0,
        Between::List(at) => Place { at }.count(labels),
        Between::Lists {
            near,
            far,
            levels,
            ..
        } => {
            let sums = RowSums {
                labels,
                near,
                far,
                levels,
            };
            count_reasoned(&sums, &mut leasts)
        }
    }
}

// Fills the first places with the list that is told, whose length is `count`.
pub fn list_fill(labels: &[u8], lists: Between, count: u32, times: &mut [u32], energies: &mut [u32])
    requires counted { Counted (Tells labels.now lists) count }
    requires count_in_bounds { (count ≤ length times.old) × (count ≤ length energies.old) }
    ensures { ListWritten (Tells labels.now lists) times.old energies.old count times.new energies.new }
{
    let mut leasts: [u32; 2048] = [0; 2048];
    match lists {
        Between::Nothing => {}
        Between::List(at) => {
            load(labels, at, times, energies);
        }
        Between::Lists {
            near,
            far,
            levels,
            ..
        } => {
            let sums = RowSums {
                labels,
                near,
                far,
                levels,
            };
            fill_reasoned(&sums, count, times, energies, &mut leasts);
        }
    }
}

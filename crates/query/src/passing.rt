// Lists passed one after another. In deep forests most have one entry: four such are passed on a guess, without waiting for a count.
ghost use Rattle.std.specs.Prelude.{◌≡◌, true, ◌+◌, ◌*◌, ◌≤◌, length};
ghost use Rattle.forest.specs.LabelFile.{count_end};
ghost use Rattle.stored.specs.ListForm.{most_bytes};
ghost use Rattle.stored.specs.working.Scanned.{further};
ghost use Rattle.query.specs.working.Passing.{single_bytes, CountsProduct};

use stored::place::{Place, skip};
use stored::stored::count_at;

// A list of one entry: a count and the entry.
const SINGLE_BYTES: usize = 10;

// From so many lists on most are single in practice, and the guess is worth making.
const MANY: usize = 32;

// The product of the counts at two bytes, which is 1 only where both are.
fn product_at(labels: &[u8], one: usize, other: usize) -> usize
    requires { (count_end one ≤ length labels.now) × (count_end other ≤ length labels.now) }
    ensures { CountsProduct labels.now one other result }
{
    let first = count_at(labels, one) as usize;
    let second = count_at(labels, other) as usize;
    first * second
}

// Whether the next four lists have one entry each. A product has one branch for all four, which the processor guesses, so that the
// next counts are read before these are known.
fn four_single(labels: &[u8], at: usize) -> bool
    requires single_bytes_in_bounds { at + 4 * single_bytes ≤ length labels.now }
    requires labels_len_bound { length labels.now ≤ most_bytes }
    ensures { result ≡ true → further labels.now at 4 ≡ at + 4 * single_bytes }
{
    let first = product_at(labels, at, at + SINGLE_BYTES);
    let second = product_at(labels, at + 2 * SINGLE_BYTES, at + 3 * SINGLE_BYTES);
    first * second == 1
}

// Four lists further.
fn four_further(labels: &[u8], at: usize) -> usize
    requires at_in_bounds { further labels.now at 4 ≤ length labels.now }
    requires labels_len_bound { length labels.now ≤ most_bytes }
    ensures { result ≡ further labels.now at 4 }
{
    if labels.len() - at >= 4 * SINGLE_BYTES && four_single(labels, at) {
        return at + 4 * SINGLE_BYTES;
    }
    skip(labels, Place { at }, 4).at
}

// So many lists further, four at a time where they are many.
pub fn pass_lists(labels: &[u8], at: usize, lists: usize) -> usize
    requires lists_in_bounds { further labels.now at lists ≤ length labels.now }
    requires labels_len_bound { length labels.now ≤ most_bytes }
    ensures { result ≡ further labels.now at lists }
{
    if lists < MANY {
        return skip(labels, Place { at }, lists).at;
    }
    let mut here = at;
    let mut left = lists;
    // Not `for _ in 0..lists / 4`: the rest, known to be below four, then becomes three branches, and a long chain takes a third longer.
    while left >= 4 {
        here = four_further(labels, here);
        left -= 4;
    }
    skip(labels, Place { at: here }, left).at
}

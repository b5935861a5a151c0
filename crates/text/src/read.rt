// Lines, and the three numbers of a query line, read from bytes.
ghost use Rattle.std.specs.Prelude.{◌≤◌, length};
ghost use Rattle.text.specs.Lines.{LineEnds, line_of};
ghost use Rattle.text.specs.working.Reading.{QueryRead};
ghost use Rattle.text.specs.working.Reading.{KindOf, Fits, Longer, DigitsRead, NumberRead, SpaceTold};

use crate::Query;

// The largest number of a line.
const MOST: u64 = 4294967295;

// What a byte is in a line: a digit with its value, one of the two other bytes that text is made of, or neither.
#[derive(Clone, Copy)]
enum Kind {
    Digit(u64),
    Space,
    Newline,
    Other,
}

// The digits from a byte on: where they end, and the number they spell, or one above MOST if it is above MOST.
#[derive(Clone, Copy)]
struct Digits {
    value: u64,
    next: usize,
}

// A digit with its value, the space or the newline; any other byte spoils its line.
fn kind_of(byte: u8) -> Kind
    ensures { KindOf byte result }
{
    match byte {
        b'0'..=b'9' => Kind::Digit(u64::from(byte) - 48),
        b' ' => Kind::Space,
        b'\n' => Kind::Newline,
        _ => Kind::Other,
    }
}

// The end of the line that starts at a byte: its newline, or the end of the input.
pub fn line_end(input: &[u8], start: usize) -> usize
    requires { start ≤ length input.now }
    ensures { LineEnds input.now start result }
{
    for end in start..input.len() {
        if let Kind::Newline = kind_of(input[end]) {
            return end;
        }
    }
    input.len()
}

// Whether a number is small enough for a line.
fn fits(value: u64) -> bool
    ensures { Fits value result }
{
    value <= MOST
}

// The number one digit longer; a number above MOST stays as it is, so that no run of digits is too long.
fn longer(value: u64, digit: u64) -> u64
    requires { digit ≤ 9 }
    ensures { Longer value digit result }
{
    if value <= MOST {
        10 * value + digit
    } else {
        value
    }
}

// The digits from a byte on, as many as there are.
#[tactic(auto, using(crate::proofs::DigitSteps::no_digit_yet, crate::proofs::DigitSteps::one_digit_more))]
fn read_digits(input: &[u8], start: usize, end: usize) -> Digits
    requires { (start ≤ end) × (end ≤ length input.now) }
    ensures { DigitsRead input.now start end result.value result.next }
{
    let mut value = 0;
    for next in start..end {
        let Kind::Digit(digit) = kind_of(input[next]) else {
            return Digits { value, next };
        };
        value = longer(value, digit);
    }
    Digits { value, next: end }
}

// The number that the digits from a byte on spell and where it ends, if they spell one.
fn read_number(input: &[u8], start: usize, end: usize) -> Option<(u32, usize)>
    requires { (start ≤ end) × (end ≤ length input.now) }
    ensures { NumberRead input.now start end result }
{
    let Digits { value, next } = read_digits(input, start, end);
    if next == start || !fits(value) {
        return None;
    }
    if next > start + 1 && input[start] == b'0' {
        return None;
    }
    Some((value as u32, next))
}

// Whether a space stands at a byte of the line.
fn space_at(input: &[u8], at: usize, end: usize) -> bool
    requires { (at ≤ end) × (end ≤ length input.now) }
    ensures { SpaceTold input.now at end result }
{
    at < end && matches!(kind_of(input[at]), Kind::Space)
}

// The three numbers of a query line, or none if it is bad.
pub fn read_query(input: &[u8], start: usize, end: usize) -> Option<Query>
    requires { (start ≤ end) × (end ≤ length input.now) }
    ensures { QueryRead (line_of input.now start end) result }
{
    let (from, after_from) = read_number(input, start, end)?;
    if !space_at(input, after_from, end) {
        return None;
    }
    let (to, after_to) = read_number(input, after_from + 1, end)?;
    if !space_at(input, after_to, end) {
        return None;
    }
    let (limit, after_limit) = read_number(input, after_to + 1, end)?;
    if after_limit != end {
        return None;
    }
    Some(Query {
        start: from,
        finish: to,
        limit,
    })
}

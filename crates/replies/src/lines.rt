// The printed lines, word by word.
ghost use Rattle.std.specs.Prelude.{◌≡◌, ◌∷◌, ◌+◌, ◌≤◌, length, take};
ghost use Rattle.text.specs.Numbers.{numeral};
ghost use Rattle.replies.specs.Lines.{hyphen_byte, hyphened, no_route, answer_line, bad_line, heading_line, refused_line};
ghost use Rattle.replies.specs.working.Buffer.{Put, word, answer_words};

use paths::pair::Pair;
use text::Query;
use text::write::Writer;

#[tactic(auto, using(crate::proofs::LineLaws::behind_numeral))]
fn put_word(writer: &mut Writer, number: u32)
    requires { writer.old.used + 11 ≤ length writer.old.out.now }
    ensures put { Put writer.old.out.now writer.old.used (word number) 11 writer.new.out.now writer.new.used }
    ensures same { writer.new.out.ghost_name ≡ writer.old.out.ghost_name }
{
    writer.put_numeral(number);
    writer.put_byte(b' ');
}

fn put_next(writer: &mut Writer, junction: u32)
    requires { writer.old.used + 11 ≤ length writer.old.out.now }
    ensures put { Put writer.old.out.now writer.old.used (hyphen_byte ∷ numeral junction) 11 writer.new.out.now writer.new.used }
    ensures same { writer.new.out.ghost_name ≡ writer.old.out.ghost_name }
{
    writer.put_byte(b'-');
    writer.put_numeral(junction);
}

// A route with hyphens.
pub fn put_route(writer: &mut Writer, junctions: &[u32; 1024], count: usize)
    requires le_count { (1 ≤ count) × (count ≤ 1024) × (length junctions.now ≡ 1024) }
    requires at_in_bounds { writer.old.used + 11264 ≤ length writer.old.out.now }
    ensures put { Put writer.old.out.now writer.old.used (hyphened (take count junctions.now)) 11264 writer.new.out.now writer.new.used }
    ensures same { writer.new.out.ghost_name ≡ writer.old.out.ghost_name }
{
    writer.put_numeral(junctions[0]);
    for junction in &junctions[1..count] {
        put_next(writer, *junction);
    }
}

// The words of a line before its route.
fn put_words(writer: &mut Writer, query: Query, number: u32, time: u32, energy: u32)
    requires { writer.old.used + 66 ≤ length writer.old.out.now }
    ensures put { Put writer.old.out.now writer.old.used (answer_words query.start query.finish query.limit number time energy) 66 writer.new.out.now writer.new.used }
    ensures same { writer.new.out.ghost_name ≡ writer.old.out.ghost_name }
{
    put_word(writer, query.start);
    put_word(writer, query.finish);
    put_word(writer, query.limit);
    put_word(writer, number);
    put_word(writer, time);
    put_word(writer, energy);
}

// The line of a query without an answer: its number, zeros, and no route.
pub fn put_refused_line(writer: &mut Writer, query: Query, number: u32)
    requires { writer.old.used + 68 ≤ length writer.old.out.now }
    ensures put { Put writer.old.out.now writer.old.used (answer_line query.start query.finish query.limit number 0 0 no_route) 68 writer.new.out.now writer.new.used }
    ensures same { writer.new.out.ghost_name ≡ writer.old.out.ghost_name }
{
    put_words(writer, query, number, 0, 0);
    writer.put_bytes(b"-\n");
}

// The line of an answered query: number 0, the pair and its route.
pub fn put_found_line(
    writer: &mut Writer,
    query: Query,
    pair: Pair,
    junctions: &[u32; 1024],
    count: usize,
)
    requires le_count { (1 ≤ count) × (count ≤ 1024) × (length junctions.now ≡ 1024) }
    requires at_in_bounds { writer.old.used + 11344 ≤ length writer.old.out.now }
    ensures put { Put writer.old.out.now writer.old.used
        (answer_line query.start query.finish query.limit 0 pair.time.0 pair.energy.0
        (hyphened (take count junctions.now))) 11344 writer.new.out.now writer.new.used }
    ensures same { writer.new.out.ghost_name ≡ writer.old.out.ghost_name }
{
    put_words(writer, query, 0, pair.time.0, pair.energy.0);
    put_route(writer, junctions, count);
    writer.put_byte(b'\n');
}

// The line of a line that is no query.
pub fn put_bad_line(writer: &mut Writer)
    requires { writer.old.used + 15 ≤ length writer.old.out.now }
    ensures put { Put writer.old.out.now writer.old.used bad_line 15 writer.new.out.now writer.new.used }
    ensures same { writer.new.out.ghost_name ≡ writer.old.out.ghost_name }
{
    writer.put_bytes(b"- - - 33 0 0 -\n");
}

// The first line of accepted files.
pub fn put_heading(writer: &mut Writer, junctions: u32, roads: u32, entries: u32)
    requires { writer.old.used + 64 ≤ length writer.old.out.now }
    ensures put { Put writer.old.out.now writer.old.used (heading_line junctions roads entries) 64 writer.new.out.now writer.new.used }
    ensures same { writer.new.out.ghost_name ≡ writer.old.out.ghost_name }
{
    writer.put_bytes(b"network ");
    put_word(writer, junctions);
    put_word(writer, roads);
    writer.put_bytes(b"labels ");
    writer.put_numeral(entries);
    writer.put_byte(b'\n');
}

// The only line of refused ones.
#[tactic(auto, using(crate::proofs::LineLaws::behind_numeral))]
pub fn put_refused(writer: &mut Writer, number: u32)
    requires { writer.old.used + 64 ≤ length writer.old.out.now }
    ensures put { Put writer.old.out.now writer.old.used (refused_line number) 64 writer.new.out.now writer.new.used }
    ensures same { writer.new.out.ghost_name ≡ writer.old.out.ghost_name }
{
    writer.put_bytes(b"refused ");
    writer.put_numeral(number);
    writer.put_byte(b'\n');
}

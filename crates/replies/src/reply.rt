// One query line and its reply.
ghost use Rattle.std.specs.Prelude.{◌≡◌, ◌+◌, ◌≤◌, length};
ghost use Rattle.query.specs.Answers.{Answers};
ghost use Rattle.query.specs.working.PreparedSet.{IsPrepared};
ghost use Rattle.replies.specs.working.Buffer.{QueryReplied, Replied};

use crate::lines::{put_bad_line, put_found_line, put_refused_line};
use accepted::batch::number_of_answer;
use paths::pair::Pair;
use query::limited::answer;
use routes::route::route;
use stored::set::LabelSet;
use text::Query;
use text::read::read_query;
use text::write::Writer;

// The line of a found pair, with its first route.
fn put_found(set: LabelSet<'_>, query: Query, pair: Pair, writer: &mut Writer)
    requires prepared { IsPrepared set }
    requires answers { Answers set.net.now query.start query.finish query.limit 0 pair.time.0 pair.energy.0 }
    requires at_in_bounds { writer.old.used + 11344 ≤ length writer.old.out.now }
    ensures put { QueryReplied set.entry.net.now query.start query.finish query.limit writer.old.out.now writer.old.used writer.new.out.now writer.new.used }
    ensures same { writer.new.out.ghost_name ≡ writer.old.out.ghost_name }
{
    let mut junctions: [u32; 1024] = [0; 1024];
    let from = query.start as usize;
    let to = query.finish as usize;
    let count = route(set, from, to, pair, &mut junctions);
    put_found_line(writer, query, pair, &junctions, count);
}

// The line of a query.
fn reply_query(set: LabelSet<'_>, query: Query, writer: &mut Writer)
    requires prepared { IsPrepared set }
    requires at_in_bounds { writer.old.used + 11344 ≤ length writer.old.out.now }
    ensures put { QueryReplied set.entry.net.now query.start query.finish query.limit writer.old.out.now writer.old.used writer.new.out.now writer.new.used }
    ensures same { writer.new.out.ghost_name ≡ writer.old.out.ghost_name }
{
    let found = answer(set, query.start, query.finish, query.limit);
    match found {
        Ok(best) => put_found(set, query, best, writer),
        Err(_) => put_refused_line(writer, query, number_of_answer(found)),
    }
}

// The reply to one line, put behind the bytes that are used.
pub fn reply(set: LabelSet<'_>, line: &[u8], writer: &mut Writer)
    requires prepared { IsPrepared set }
    requires at_in_bounds { writer.old.used + 11344 ≤ length writer.old.out.now }
    ensures put { Replied set.entry.net.now line.now writer.old.out.now writer.old.used writer.new.out.now writer.new.used }
    ensures same { writer.new.out.ghost_name ≡ writer.old.out.ghost_name }
{
    match read_query(line, 0, line.len()) {
        Some(query) => reply_query(set, query, writer),
        None => put_bad_line(writer),
    }
}

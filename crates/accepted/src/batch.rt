// A batch on an accepted set, triple by triple.
ghost use Rattle.std.specs.Prelude.{◌≡◌, ◌+◌, ◌<◌, length};
ghost use Rattle.query.specs.working.AnswerValues.{number_of, time_of, energy_of};
ghost use Rattle.query.specs.working.PreparedSet.{IsPrepared};
ghost use Rattle.accepted.specs.working.Triples.{put_triple, AnsweredTo, Triples};

use paths::pair::Pair;
use query::NoAnswer;
use query::limited::answer;
use stored::set::LabelSet;

// 21, 22 or 23; 0 for a found pair.
pub fn number_of_answer(answer: Result<Pair, NoAnswer>) -> u32
    ensures { result ≡ number_of answer }
{
    match answer {
        Ok(_) => 0,
        Err(why) => why.number(),
    }
}

// Writes an answer's triple: a found pair with number 0, any other answer its number and two zeros.
fn put_answer(answers: &mut [u32], at: usize, answer: Result<Pair, NoAnswer>)
    requires { at + 2 < length answers.old }
    ensures { answers.new ≡ put_triple answers.old at (number_of answer) (time_of answer) (energy_of answer) }
{
    let Ok(best) = answer else {
        answers[at] = number_of_answer(answer);
        answers[at + 1] = 0;
        answers[at + 2] = 0;
        return;
    };
    answers[at] = 0;
    answers[at + 1] = best.time.0;
    answers[at + 2] = best.energy.0;
}

// Answers every triple, over the same lent places.
pub fn answer_all(set: LabelSet<'_>, queries: &[u32], count: usize, answers: &mut [u32])
    requires prepared { IsPrepared set }
    requires triples { Triples queries.now answers.old count }
    ensures { AnsweredTo set.entry.net.now queries.now answers.old answers.new count }
{
    for i in 0..count {
        let at = 3 * i;
        let found = answer(set, queries[at], queries[at + 1], queries[at + 2]);
        put_answer(answers, at, found);
    }
}

// The commands that work on the held job: started, stepped, run to the end, and counted beforehand. Document 01: 'Jobs';
// docs/BOARD.md has the language.
#![tactic(auto)]

ghost use Rattle.std.specs.Prelude.{◌≡◌};
ghost use Rattle.machine.specs.Machine.{machine};
ghost use Rattle.jobs.specs.Calls.{step_of};
ghost use Rattle.jobs.specs.Runs.{state, steps};
ghost use Rattle.text.specs.Words.{words_of};
ghost use Rattle.console_working.specs.Jobs as jobs;

use console_commands::{Board, Outcome, Turn, bad_line, fine, refused, with_held};
use job_plans::Job;
use machine::{Refusal, Response};
use text::arguments;

// start KIND KEY CARE X Y AL AW BL BW PL PW C
pub fn start(board: Board, rest: &[u8], words: &[u64], responses: &[Response]) -> Turn
    ensures { result ≡ jobs.start_turn board (words_of rest.now) (state board.width words.now responses.now board.held) }
{
    let Some(row) = arguments::read(rest, b"bhhbbbbbbbbx") else {
        return bad_line(board);
    };
    let offered = Job {
        c: row[11],
        ..console_commands::job_of(row)
    };
    match jobs::start(words, responses, board.width, board.held, offered) {
        Ok(job) => fine(with_held(board, Some(job))),
        Err(why) => refused(board, why),
    }
}

// step
#[tactic(auto, unfolding(jobs::specs::Runs::stepped))]
pub fn step(board: Board, rest: &[u8], words: &mut [u64], responses: &mut [Response]) -> Turn
    ensures value { result ≡ jobs.step_turn board (words_of rest.now) (state board.width words.old responses.old board.held) }
    ensures words_after { words.new ≡ (jobs.step_after (words_of rest.now) (state board.width words.old responses.old board.held)).machine.words }
    ensures responses_after { responses.new ≡ (jobs.step_after (words_of rest.now) (state board.width words.old responses.old board.held)).machine.responses }
{
    if !arguments::none(rest) {
        return bad_line(board);
    }
    match jobs::step(words, responses, board.width, board.held) {
        Ok(step) => Turn {
            board: with_held(board, step.held),
            outcome: Outcome::Gave {
                command: step.command,
                count: step.count,
                held: step.held.is_some(),
            },
        },
        Err(why) => refused(board, why),
    }
}

// "at least one step, then steps until no job is held or a step is refused": how many, or the refusal of the first. Every job ends, as `ends`
// proves, long before 2^64.
fn to_the_end(
    held: &mut Option<Job>,
    width: u32,
    words: &mut [u64],
    responses: &mut [Response],
) -> Result<u64, Refusal>
    ensures value { result ≡ jobs.steps_or (step_of (machine width words.old responses.old) held.old) (jobs.accepted jobs.most (state width words.old responses.old held.old)) }
    ensures held_after { held.new ≡ (steps (jobs.accepted jobs.most (state width words.old responses.old held.old)) (state width words.old responses.old held.old)).held }
    ensures words_after { words.new ≡ (steps (jobs.accepted jobs.most (state width words.old responses.old held.old)) (state width words.old responses.old held.old)).machine.words }
    ensures responses_after { responses.new ≡ (steps (jobs.accepted jobs.most (state width words.old responses.old held.old)) (state width words.old responses.old held.old)).machine.responses }
{
    for taken in 0..u64::MAX {
        match jobs::step(words, responses, width, *held) {
            Ok(step) => *held = step.held,
            Err(why) if taken == 0 => return Err(why),
            Err(_) => return Ok(taken),
        }
    }
    Ok(u64::MAX)
}

// run
pub fn run(board: Board, rest: &[u8], words: &mut [u64], responses: &mut [Response]) -> Turn
    ensures value { result ≡ jobs.run_turn board (words_of rest.now) (state board.width words.old responses.old board.held) }
    ensures words_after { words.new ≡ (jobs.run_after (words_of rest.now) (state board.width words.old responses.old board.held)).machine.words }
    ensures responses_after { responses.new ≡ (jobs.run_after (words_of rest.now) (state board.width words.old responses.old board.held)).machine.responses }
{
    if !arguments::none(rest) {
        return bad_line(board);
    }
    let mut held = board.held;
    match to_the_end(&mut held, board.width, words, responses) {
        Ok(taken) => Turn {
            board: with_held(board, held),
            outcome: Outcome::Pulses(taken),
        },
        Err(why) => refused(board, why),
    }
}

// total
pub fn total(board: Board, rest: &[u8], words: &[u64], responses: &[Response]) -> Outcome
    ensures { result ≡ jobs.total_outcome (words_of rest.now) (state board.width words.now responses.now board.held) }
{
    if !arguments::none(rest) {
        return Outcome::BadLine;
    }
    match jobs::totals::total(words, responses, board.width, board.held) {
        Ok(pulses) => Outcome::Pulses(pulses),
        Err(why) => Outcome::Refused(why),
    }
}

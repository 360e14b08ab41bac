// Entry points for programs in other languages: jobs. Each takes its arguments apart and calls; include/dushvaneth.h tells callers.
// Document 01: 'Jobs'.
#![tactic(auto)]

ghost use Rattle.std.specs.Prelude.{◌≡◌, length};
ghost use Rattle.machine.specs.Machine.{machine};
ghost use Rattle.jobs.specs.Calls.{told_started, told_stepped};
ghost use Rattle.job_tally.specs.Totals.{told};
ghost use Rattle.entry_forms.specs.Numbers.{tell_in};
ghost use Rattle.entry_jobs.specs.Entries as entries;

use entry_forms::records::{check_held, check_record, count_held, held_of, job_of, put_record};
use entry_forms::{PANEL_SIZE, check_room, lower, lower_of, number_of, tell};
use job_plans::Job;
use job_tally::totals;
use jobs::Stepped;
use machine::{Refusal, Response, also_of};

// An answer of one number. A total is told so, and a start by 1, for the job that is held now.
fn tell_one(answer: &mut [u64], given: Result<u64, Refusal>) -> u32
    ensures value { result ≡ (told given).refusal }
    ensures answer_after { answer.new ≡ tell_in (entries.total_numbers (told given)) answer.old }
{
    match given {
        Ok(k) => {
            tell(answer, &[0, 0, k]);
            0
        }
        Err(why) => {
            tell(answer, &[machine::number_of(why), also_of(why), 0]);
            number_of(why)
        }
    }
}

// ---- start

const START_SIZE: usize = 3;

fn tell_started(answer: &mut [u64], started: Result<Job, Refusal>) -> u32
    ensures value { result ≡ (told_started started).refusal }
    ensures answer_after { answer.new ≡ tell_in (entries.start_numbers (told_started started)) answer.old }
{
    tell_one(answer, started.map(|_| 1))
}

#[unsafe(no_mangle)]
#[tactic(auto, unfolding(crate::specs::Entries::start_told, crate::specs::Entries::start_left, crate::specs::Entries::start_entry, jobs::specs::Calls::start_of))]
pub extern "C" fn dushvaneth_start(
    words: &[u64],
    responses: &[Response],
    width: u32,
    held: &[u8],
    job: &mut [u8],
    answer: &mut [u64],
) -> u32
    ensures value { result ≡ (entries.start_told (machine width words.now responses.now) held.now job.old (length answer.old)).refusal }
    ensures answer_after { answer.new ≡ tell_in (entries.start_numbers (entries.start_told (machine width words.now responses.now) held.now job.old (length answer.old))) answer.old }
    ensures job_after { job.new ≡ entries.start_left (machine width words.now responses.now) held.now job.old (length answer.old) }
{
    let holds = held_of(held);
    let offered = job_of(job);
    let rest = lower(check_record(job), check_room(START_SIZE, answer.len()));
    let started = match lower(check_held(held), rest) {
        Ok(()) => jobs::start(words, responses, width, holds, offered),
        Err(why) => {
            let other = jobs::check_start(words, responses, width, holds, offered);
            Err(lower_of(why, other))
        }
    };
    // the record of the job that is held now; as it was after a refusal
    if let Ok(o) = started {
        put_record(job, Some(o));
    }
    tell_started(answer, started)
}

// ---- step

const STEP_SIZE: usize = 5 + PANEL_SIZE;

fn tell_stepped(answer: &mut [u64], stepped: Result<Stepped, Refusal>) -> u32
    ensures value { result ≡ (told_stepped stepped).refusal }
    ensures answer_after { answer.new ≡ tell_in (entries.step_numbers (told_stepped stepped)) answer.old }
{
    match stepped {
        Ok(step) => {
            let panel = step.command.panel;
            let numbers = [
                0,
                0,
                panel.comp,
                panel.sdr,
                panel.sc1,
                panel.sc2,
                panel.mor,
                u64::from(panel.key),
                u64::from(panel.care),
                u64::from(panel.target),
                panel.address.0 as u64,
                panel.sc3,
                entry_forms::line_byte(step.command.lines),
                step.count as u64,
                count_held(step.held),
            ];
            tell(answer, &numbers);
            0
        }
        Err(why) => {
            let mut numbers = [0; STEP_SIZE];
            numbers[0] = machine::number_of(why);
            numbers[1] = also_of(why);
            tell(answer, &numbers);
            number_of(why)
        }
    }
}

#[unsafe(no_mangle)]
#[tactic(auto, unfolding(crate::specs::Entries::step_told, crate::specs::Entries::step_left, crate::specs::Entries::record_left, crate::specs::Entries::step_entry, jobs::specs::Calls::step_of, jobs::specs::Calls::after_step))]
pub extern "C" fn dushvaneth_step(
    words: &mut [u64],
    responses: &mut [Response],
    width: u32,
    job: &mut [u8],
    answer: &mut [u64],
) -> u32
    ensures value { result ≡ (entries.step_told (machine width words.old responses.old) job.old (length answer.old)).refusal }
    ensures answer_after { answer.new ≡ tell_in (entries.step_numbers (entries.step_told (machine width words.old responses.old) job.old (length answer.old))) answer.old }
    ensures words_after { words.new ≡ (entries.step_left (machine width words.old responses.old) job.old (length answer.old)).words }
    ensures responses_after { responses.new ≡ (entries.step_left (machine width words.old responses.old) job.old (length answer.old)).responses }
    ensures job_after { job.new ≡ entries.record_left (machine width words.old responses.old) job.old (length answer.old) }
{
    let holds = held_of(job);
    let stepped = match lower(check_held(job), check_room(STEP_SIZE, answer.len())) {
        Ok(()) => jobs::step(words, responses, width, holds),
        Err(why) => {
            let other = job_places::check_step(words, responses, width, holds);
            Err(lower_of(why, other))
        }
    };
    // the record of what is held after an accepted step
    if let Ok(step) = stepped {
        put_record(job, step.held);
    }
    tell_stepped(answer, stepped)
}

// ---- total

const TOTAL_SIZE: usize = 3;

#[unsafe(no_mangle)]
#[tactic(auto, unfolding(crate::specs::Entries::total_told, job_tally::specs::Totals::total_of))]
pub extern "C" fn dushvaneth_total(
    words: &[u64],
    responses: &[Response],
    width: u32,
    job: &[u8],
    answer: &mut [u64],
) -> u32
    ensures value { result ≡ (entries.total_told (machine width words.now responses.now) job.now (length answer.old)).refusal }
    ensures answer_after { answer.new ≡ tell_in (entries.total_numbers (entries.total_told (machine width words.now responses.now) job.now (length answer.old))) answer.old }
{
    let holds = held_of(job);
    let total = match lower(check_held(job), check_room(TOTAL_SIZE, answer.len())) {
        Ok(()) => totals::total(words, responses, width, holds),
        Err(why) => {
            let other = totals::check_total(words, responses, width, holds);
            Err(lower_of(why, other))
        }
    };
    tell_one(answer, total)
}

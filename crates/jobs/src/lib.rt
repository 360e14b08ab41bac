// Jobs: the calls start and step, and the command that a step gives. What a job is stands in `job_plans`, its places in
// `job_places` and its number of pulses in `job_tally`, whose call is passed on here.
// Document 01: 'Jobs'; document 02, request d: 20 to 25.
#![tactic(auto)]

mod commands;
pub mod totals;

ghost use Rattle.std.specs.Prelude.{◌≡◌};
ghost use Rattle.machine.specs.Machine.{machine};
ghost use Rattle.machine.specs.Pulse.{pulsed};
ghost use Rattle.job_plans.specs.Commands.{command};
ghost use Rattle.jobs.specs.Calls.{start_check, start_of, step_check, gave, step_of, after_step};

use job_places::{check_step, first_of, next_of, none_held};
use job_plans::fields::check_used;
use job_plans::{Command, Job};
use machine::{Refusal, Response, refuse};

// What a step answers: "the command it gave", the count, and the job held afterwards.
#[derive(Clone, Copy)]
pub struct Stepped {
    pub command: Command,
    pub count: usize,
    pub held: Option<Job>,
}

// ---- start: "Starting a job sets its first place, and its unused fields to 0."

#[tactic(auto, using(machine::proofs::Refusals::handed), unfolding(crate::specs::Calls::start_check))]
pub fn check_start(
    words: &[u64],
    responses: &[Response],
    width: u32,
    held: Option<Job>,
    offered: Job,
) -> Result<(), Refusal>
    ensures { result ≡ start_check (machine width words.now responses.now) held offered }
{
    machine::check_machine(words, responses, width)?;
    check_used(width, offered)?;
    // 25: "start while one is held"
    refuse(Refusal::WrongJob, held.is_some())
}

#[tactic(auto, using(machine::proofs::Refusals::handed), unfolding(crate::specs::Calls::start_of))]
pub fn start(
    words: &[u64],
    responses: &[Response],
    width: u32,
    held: Option<Job>,
    offered: Job,
) -> Result<Job, Refusal>
    ensures { result ≡ start_of (machine width words.now responses.now) held offered }
{
    check_start(words, responses, width, held, offered)?;
    Ok(first_of(offered))
}

// ---- step: "A job step answers the command it gave, and the machine after it is that command's pulse."

// The pulse of a job's command, on a machine and a job that are not turned down; so the pulse is not either, and is not judged again.
fn give(words: &mut [u64], responses: &mut [Response], width: u32, o: Job) -> Stepped
    requires { step_check (machine width words.old responses.old) (Some o) ≡ Ok tt }
    ensures value { Ok result ≡ gave (machine width words.old responses.old) (Some o) }
    ensures words_after { words.new ≡ (pulsed (machine width words.old responses.old) (command o).panel (command o).lines).words }
    ensures responses_after { responses.new ≡ (pulsed (machine width words.old responses.old) (command o).panel (command o).lines).responses }
{
    let command = commands::command_of(width, o);
    let count = wide::give(words, responses, width, command.panel, command.lines);
    Stepped {
        command,
        count,
        held: next_of(o, count),
    }
}

#[tactic(auto, using(machine::proofs::Refusals::handed), unfolding(crate::specs::Calls::step_of, crate::specs::Calls::after_step))]
pub fn step(
    words: &mut [u64],
    responses: &mut [Response],
    width: u32,
    held: Option<Job>,
) -> Result<Stepped, Refusal>
    ensures value { result ≡ step_of (machine width words.old responses.old) held }
    ensures words_after { words.new ≡ (after_step (machine width words.old responses.old) held).words }
    ensures responses_after { responses.new ≡ (after_step (machine width words.old responses.old) held).responses }
{
    check_step(words, responses, width, held)?;
    let o = held.ok_or(none_held())?;
    Ok(give(words, responses, width, o))
}

// A job for a caller in another language: its record as the image has it, no job a record of no bytes.
ghost use Rattle.std.specs.Prelude.{◌≡◌, ◌≤◌, [], length};
ghost use Rattle.std.proofs.lemmas.List.Edits.{sets};
ghost use Rattle.image_layout.specs.Format.{job_of};
ghost use Rattle.image_layout.specs.Sizes.{record_size};
ghost use Rattle.entry_forms.specs.Numbers.{tell_in};
ghost use Rattle.entry_forms.specs.Records as forms;

use image_layout::RECORD_SIZE;
use image_parts::image_fields::job_at;
use image_stores::{put, put_job};
use job_plans::{Job, Span};
use machine::{Refusal, ResponseBit, refuse};

pub fn check_record(job: &[u8]) -> Result<(), Refusal>
    ensures { result ≡ forms.record_check job.now }
{
    refuse(Refusal::Size, job.len() != RECORD_SIZE)
}

pub fn check_held(job: &[u8]) -> Result<(), Refusal>
    ensures { result ≡ forms.held_check job.now }
{
    let n = job.len();
    refuse(Refusal::Size, !((n == 0) | (n == RECORD_SIZE)))
}

fn no_job() -> Job
    ensures { result ≡ job_of [] }
{
    Job {
        kind: 0,
        key: 0,
        care: 0,
        x: ResponseBit(0),
        y: ResponseBit(0),
        a: Span::none(),
        b: Span::none(),
        p: Span::none(),
        phase: 0,
        i: 0,
        j: 0,
        c: 0,
    }
}

pub fn held_of(job: &[u8]) -> Option<Job>
    ensures { result ≡ forms.held_in job.now }
{
    if job.len() == RECORD_SIZE {
        Some(job_at(job, 0))
    } else {
        None
    }
}

pub fn job_of(job: &[u8]) -> Job
    ensures { result ≡ forms.job_in job.now }
{
    held_of(job).unwrap_or(no_job())
}

pub fn count_held(held: Option<Job>) -> u64
    ensures { result ≡ forms.count_held held }
{
    u64::from(held.is_some())
}

fn put_held(job: &mut [u8], held: Option<Job>) -> usize
    requires { record_size ≤ length job.old }
    ensures { job.new ≡ sets job.old 0 (forms.record_of held) }
{
    match held {
        Some(o) => put_job(job, 0, o),
        None => put(job, 0, RECORD_SIZE, 0),
    }
}

// All of it, or nothing where it has no room.
#[tactic(auto, using(crate::proofs::Recorded::length_record))]
pub fn put_record(job: &mut [u8], held: Option<Job>)
    ensures { job.new ≡ tell_in (forms.record_of held) job.old }
{
    if RECORD_SIZE <= job.len() {
        put_held(job, held);
    }
}

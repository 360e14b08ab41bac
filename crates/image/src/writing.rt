// Writing: "checked .. for 1 to 3, 8 and 10", 8 as document 02, request d, splits it; it changes "only the image's own bytes".
// Document 01, 'The image' and 'Numbers given when a call is turned down'.
ghost use Rattle.std.specs.Prelude.{◌≡◌, ◌≤◌, length};
ghost use Rattle.image_layout.specs.Sizes.{most_jobs};
ghost use Rattle.image_layout.specs.Format.{held_jobs};
ghost use Rattle.image.specs.Calls.{jobs_check, write_check, write_of, written};
ghost use Rattle.jobs.specs.Runs.{state};

use image_stores::{put_held, put_machine};
use job_plans::Job;
use machine::{Refusal, Response};

// 20 to 25: each held job as after its start; none is fine.
fn check_jobs(width: u32, held: Option<Job>) -> Result<(), Refusal>
    ensures { result ≡ jobs_check width (held_jobs held) }
{
    match held {
        None => Ok(()),
        Some(o) => job_places::check_held(width, o),
    }
}

fn count_jobs(held: Option<Job>) -> usize
    ensures { (result ≡ length (held_jobs held)) × (result ≤ most_jobs) }
{
    usize::from(held.is_some())
}

#[tactic(auto, using(machine::proofs::Refusals::handed), unfolding(crate::specs::Calls::write_check))]
pub fn check_write(
    words: &[u64],
    responses: &[Response],
    width: u32,
    held: Option<Job>,
    room: usize,
) -> Result<(), Refusal>
    ensures { result ≡ write_check (state width words.now responses.now held) room }
{
    machine::check_machine(words, responses, width)?;
    check_jobs(width, held)?;
    let size = image_layout::image_size(words.len(), count_jobs(held));
    machine::refuse(Refusal::NoRoom, room < size)
}

#[tactic(auto, using(crate::proofs::WriteCalls::write_room))]
pub fn write(
    words: &[u64],
    responses: &[Response],
    width: u32,
    held: Option<Job>,
    out: &mut [u8],
) -> Result<usize, Refusal>
    ensures value { result ≡ write_of (state width words.now responses.now held) (length out.old) }
    ensures out_after { out.new ≡ written (state width words.now responses.now held) out.old }
{
    check_write(words, responses, width, held, out.len())?;
    let at = put_machine(out, words, responses, width);
    Ok(put_held(out, at, held))
}

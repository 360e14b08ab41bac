// Entry points for programs in other languages: images. Each takes its arguments apart and calls; include/dushvaneth.h tells callers.
// Document 01: 'The image'.
#![tactic(auto)]

ghost use Rattle.std.specs.Prelude.{◌≡◌, length};
ghost use Rattle.jobs.specs.Runs.{state};
ghost use Rattle.image.specs.Calls.{told_wrote, told_read};
ghost use Rattle.entry_forms.specs.Numbers.{tell_in};
ghost use Rattle.entry_forms.specs.Records.{held_in};
ghost use Rattle.entry_images.specs.Entries as entries;

use entry_forms::records::{check_held, check_record, count_held, held_of, put_record};
use entry_forms::{check_room, lower, lower_of, number_of, tell};
use image::{Loaded, reading, writing};
use machine::{Refusal, Response, also_of};

// ---- writing

const WRITE_SIZE: usize = 3;

fn tell_wrote(answer: &mut [u64], wrote: Result<usize, Refusal>) -> u32
    ensures value { result ≡ (told_wrote wrote).refusal }
    ensures answer_after { answer.new ≡ tell_in (entries.write_numbers (told_wrote wrote)) answer.old }
{
    match wrote {
        Ok(size) => {
            tell(answer, &[0, 0, size as u64]);
            0
        }
        Err(why) => {
            tell(answer, &[machine::number_of(why), also_of(why), 0]);
            number_of(why)
        }
    }
}

#[unsafe(no_mangle)]
#[tactic(auto, unfolding(crate::specs::Entries::write_told, crate::specs::Entries::write_left, crate::specs::Entries::write_entry, image::specs::Calls::write_of, image::specs::Calls::written))]
pub extern "C" fn dushvaneth_write(
    words: &[u64],
    responses: &[Response],
    width: u32,
    job: &[u8],
    image: &mut [u8],
    answer: &mut [u64],
) -> u32
    ensures value { result ≡ (entries.write_told (state width words.now responses.now (held_in job.now)) job.now image.old (length answer.old)).refusal }
    ensures answer_after { answer.new ≡ tell_in (entries.write_numbers (entries.write_told (state width words.now responses.now (held_in job.now)) job.now image.old (length answer.old))) answer.old }
    ensures image_after { image.new ≡ entries.write_left (state width words.now responses.now (held_in job.now)) job.now image.old (length answer.old) }
{
    let holds = held_of(job);
    let wrote = match lower(check_held(job), check_room(WRITE_SIZE, answer.len())) {
        Ok(()) => writing::write(words, responses, width, holds, image),
        Err(why) => {
            let other = writing::check_write(words, responses, width, holds, image.len());
            Err(lower_of(why, other))
        }
    };
    tell_wrote(answer, wrote)
}

// ---- reading

const READ_SIZE: usize = 5;

fn tell_read(answer: &mut [u64], found: Result<Loaded, Refusal>) -> u32
    ensures value { result ≡ (told_read found).refusal }
    ensures answer_after { answer.new ≡ tell_in (entries.read_numbers (told_read found)) answer.old }
{
    match found {
        Ok(loaded) => {
            let bits = u64::from(loaded.width);
            let n = loaded.words as u64;
            tell(answer, &[0, 0, bits, n, count_held(loaded.held)]);
            0
        }
        Err(why) => {
            tell(answer, &[machine::number_of(why), also_of(why), 0, 0, 0]);
            number_of(why)
        }
    }
}

#[unsafe(no_mangle)]
#[tactic(auto, unfolding(crate::specs::Entries::read_told, crate::specs::Entries::words_left, crate::specs::Entries::responses_left, crate::specs::Entries::record_left, crate::specs::Entries::read_entry, image::specs::Calls::read_of, image::specs::Calls::words_read, image::specs::Calls::responses_read))]
pub extern "C" fn dushvaneth_read(
    image: &[u8],
    words: &mut [u64],
    responses: &mut [Response],
    job: &mut [u8],
    answer: &mut [u64],
) -> u32
    ensures value { result ≡ (entries.read_told image.now (length words.old) (length responses.old) job.old (length answer.old)).refusal }
    ensures answer_after { answer.new ≡ tell_in (entries.read_numbers (entries.read_told image.now (length words.old) (length responses.old) job.old (length answer.old))) answer.old }
    ensures words_after { words.new ≡ entries.words_left image.now words.old responses.old job.old (length answer.old) }
    ensures responses_after { responses.new ≡ entries.responses_left image.now words.old responses.old job.old (length answer.old) }
    ensures job_after { job.new ≡ entries.record_left image.now (length words.old) (length responses.old) job.old (length answer.old) }
{
    let found = match lower(check_record(job), check_room(READ_SIZE, answer.len())) {
        Ok(()) => reading::read(image, words, responses),
        Err(why) => {
            let other = reading::check_read(image, words.len(), responses.len());
            Err(lower_of(why, other))
        }
    };
    // the record of the job that an image holds; as it was after a refusal
    if let Ok(loaded) = found {
        put_record(job, loaded.held);
    }
    tell_read(answer, found)
}

// Images: the entry points of `entry_images`.
ghost use Rattle.std.specs.Prelude.{◌≡◌, length};
ghost use Rattle.jobs.specs.Runs.{state};
ghost use Rattle.entry_forms.specs.Numbers.{tell_in};
ghost use Rattle.entry_forms.specs.Records.{held_in};
ghost use Rattle.entry_images.specs.Entries as entries;

use machine::Response;

#[unsafe(no_mangle)]
pub extern "C" fn dushvaneth_write(
    words: &[u64],
    responses: &[Response],
    width: u32,
    job: &[u8],
    image: &mut [u8],
    answer: &mut [u64],
) -> u32
    ensures value { result ≡ (entries.write_told (state width words.now responses.now (held_in job.now)) job.now image.old (length answer.old)).refusal }
    ensures answer_after { answer.new ≡ tell_in (entries.write_numbers (entries.write_told (state width words.now responses.now (held_in job.now)) job.now image.old (length answer.old))) answer.old }
    ensures image_after { image.new ≡ entries.write_left (state width words.now responses.now (held_in job.now)) job.now image.old (length answer.old) }
{
    entry_images::dushvaneth_write(words, responses, width, job, image, answer)
}

#[unsafe(no_mangle)]
pub extern "C" fn dushvaneth_read(
    image: &[u8],
    words: &mut [u64],
    responses: &mut [Response],
    job: &mut [u8],
    answer: &mut [u64],
) -> u32
    ensures value { result ≡ (entries.read_told image.now (length words.old) (length responses.old) job.old (length answer.old)).refusal }
    ensures answer_after { answer.new ≡ tell_in (entries.read_numbers (entries.read_told image.now (length words.old) (length responses.old) job.old (length answer.old))) answer.old }
    ensures words_after { words.new ≡ entries.words_left image.now words.old responses.old job.old (length answer.old) }
    ensures responses_after { responses.new ≡ entries.responses_left image.now words.old responses.old job.old (length answer.old) }
    ensures job_after { job.new ≡ entries.record_left image.now (length words.old) (length responses.old) job.old (length answer.old) }
{
    entry_images::dushvaneth_read(image, words, responses, job, answer)
}

// Jobs: the entry points of `entry_jobs`.
ghost use Rattle.std.specs.Prelude.{◌≡◌, length};
ghost use Rattle.machine.specs.Machine.{machine};
ghost use Rattle.entry_forms.specs.Numbers.{tell_in};
ghost use Rattle.entry_jobs.specs.Entries as entries;

use machine::Response;

#[unsafe(no_mangle)]
pub extern "C" fn dushvaneth_start(
    words: &[u64],
    responses: &[Response],
    width: u32,
    held: &[u8],
    job: &mut [u8],
    answer: &mut [u64],
) -> u32
    ensures value { result ≡ (entries.start_told (machine width words.now responses.now) held.now job.old (length answer.old)).refusal }
    ensures answer_after { answer.new ≡ tell_in (entries.start_numbers (entries.start_told (machine width words.now responses.now) held.now job.old (length answer.old))) answer.old }
    ensures job_after { job.new ≡ entries.start_left (machine width words.now responses.now) held.now job.old (length answer.old) }
{
    entry_jobs::dushvaneth_start(words, responses, width, held, job, answer)
}

#[unsafe(no_mangle)]
pub extern "C" fn dushvaneth_step(
    words: &mut [u64],
    responses: &mut [Response],
    width: u32,
    job: &mut [u8],
    answer: &mut [u64],
) -> u32
    ensures value { result ≡ (entries.step_told (machine width words.old responses.old) job.old (length answer.old)).refusal }
    ensures answer_after { answer.new ≡ tell_in (entries.step_numbers (entries.step_told (machine width words.old responses.old) job.old (length answer.old))) answer.old }
    ensures words_after { words.new ≡ (entries.step_left (machine width words.old responses.old) job.old (length answer.old)).words }
    ensures responses_after { responses.new ≡ (entries.step_left (machine width words.old responses.old) job.old (length answer.old)).responses }
    ensures job_after { job.new ≡ entries.record_left (machine width words.old responses.old) job.old (length answer.old) }
{
    entry_jobs::dushvaneth_step(words, responses, width, job, answer)
}

#[unsafe(no_mangle)]
pub extern "C" fn dushvaneth_total(
    words: &[u64],
    responses: &[Response],
    width: u32,
    job: &[u8],
    answer: &mut [u64],
) -> u32
    ensures value { result ≡ (entries.total_told (machine width words.now responses.now) job.now (length answer.old)).refusal }
    ensures answer_after { answer.new ≡ tell_in (entries.total_numbers (entries.total_told (machine width words.now responses.now) job.now (length answer.old))) answer.old }
{
    entry_jobs::dushvaneth_total(words, responses, width, job, answer)
}

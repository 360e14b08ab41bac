// The hand-out round: the entry points of `entry_rounds`.
ghost use Rattle.std.specs.Prelude.{◌≡◌, length};
ghost use Rattle.machine.specs.Machine.{machine};
ghost use Rattle.entry_forms.specs.Numbers.{tell_in, resolved_numbers};
ghost use Rattle.entry_rounds.specs.Entries as entries;

use machine::Response;

#[unsafe(no_mangle)]
pub extern "C" fn dushvaneth_show(
    words: &[u64],
    responses: &[Response],
    width: u32,
    x: u8,
    answer: &mut [u64],
) -> u32
    ensures value { result ≡ (entries.show_told x (machine width words.now responses.now) (length answer.old)).refusal }
    ensures answer_after { answer.new ≡ tell_in (resolved_numbers (entries.show_told x (machine width words.now responses.now) (length answer.old))) answer.old }
{
    entry_rounds::dushvaneth_show(words, responses, width, x, answer)
}

#[unsafe(no_mangle)]
pub extern "C" fn dushvaneth_answer(
    words: &[u64],
    responses: &mut [Response],
    width: u32,
    x: u8,
    f: u8,
    word: usize,
    verdict: u8,
    answer: &mut [u64],
) -> u32
    ensures value { result ≡ (entries.answer_told x f word (machine width words.now responses.old) (length answer.old)).0 }
    ensures answer_after { answer.new ≡ tell_in (entries.reply_numbers (entries.answer_told x f word (machine width words.now responses.old) (length answer.old))) answer.old }
    ensures responses_after { responses.new ≡ (entries.answer_left x f word verdict (machine width words.now responses.old) (length answer.old)).responses }
{
    entry_rounds::dushvaneth_answer(words, responses, width, x, f, word, verdict, answer)
}

#[unsafe(no_mangle)]
pub extern "C" fn dushvaneth_round(
    words: &[u64],
    responses: &mut [Response],
    width: u32,
    x: u8,
    f: u8,
    verdicts: &[u8],
    answer: &mut [u64],
) -> u32
    ensures value { result ≡ (entries.round_told x f verdicts.now (machine width words.now responses.old) (length answer.old)).refusal }
    ensures answer_after { answer.new ≡ tell_in (entries.report_numbers (entries.round_told x f verdicts.now (machine width words.now responses.old) (length answer.old))) answer.old }
    ensures responses_after { responses.new ≡ (entries.round_left x f verdicts.now (machine width words.now responses.old) (length answer.old)).responses }
{
    entry_rounds::dushvaneth_round(words, responses, width, x, f, verdicts, answer)
}

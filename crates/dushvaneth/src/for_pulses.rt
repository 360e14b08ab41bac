// The panel's load, both machines' pulses, the explainer, and resolution: the entry points of `entry_pulses`.
ghost use Rattle.std.specs.Prelude.{◌≡◌, length};
ghost use Rattle.machine.specs.Machine.{machine};
ghost use Rattle.entry_forms.specs.Numbers.{tell_in, resolved_numbers};
ghost use Rattle.entry_pulses.specs.Entries as entries;

use machine::Response;

#[unsafe(no_mangle)]
pub extern "C" fn dushvaneth_load(registers: &mut [u64], register: u8, value: u64) -> u32
    ensures value { result ≡ entries.load_number registers.old register value }
    ensures registers_after { registers.new ≡ entries.loaded registers.old register value }
{
    entry_pulses::dushvaneth_load(registers, register, value)
}

#[unsafe(no_mangle)]
pub extern "C" fn dushvaneth_wide_pulse(
    words: &mut [u64],
    responses: &mut [Response],
    width: u32,
    registers: &[u64],
    lines: u8,
    answer: &mut [u64],
) -> u32
    ensures value { result ≡ (entries.pulse_told (machine width words.old responses.old) registers.now lines (length answer.old)).refusal }
    ensures answer_after { answer.new ≡ tell_in (entries.pulse_numbers (entries.pulse_told (machine width words.old responses.old) registers.now lines (length answer.old))) answer.old }
    ensures words_after { words.new ≡ (entries.pulse_left (machine width words.old responses.old) registers.now lines (length answer.old)).words }
    ensures responses_after { responses.new ≡ (entries.pulse_left (machine width words.old responses.old) registers.now lines (length answer.old)).responses }
{
    entry_pulses::dushvaneth_wide_pulse(words, responses, width, registers, lines, answer)
}

#[unsafe(no_mangle)]
pub extern "C" fn dushvaneth_cells_pulse(
    words: &mut [u64],
    responses: &mut [Response],
    width: u32,
    registers: &[u64],
    lines: u8,
    answer: &mut [u64],
) -> u32
    ensures value { result ≡ (entries.pulse_told (machine width words.old responses.old) registers.now lines (length answer.old)).refusal }
    ensures answer_after { answer.new ≡ tell_in (entries.pulse_numbers (entries.pulse_told (machine width words.old responses.old) registers.now lines (length answer.old))) answer.old }
    ensures words_after { words.new ≡ (entries.pulse_left (machine width words.old responses.old) registers.now lines (length answer.old)).words }
    ensures responses_after { responses.new ≡ (entries.pulse_left (machine width words.old responses.old) registers.now lines (length answer.old)).responses }
{
    entry_pulses::dushvaneth_cells_pulse(words, responses, width, registers, lines, answer)
}

#[unsafe(no_mangle)]
pub extern "C" fn dushvaneth_explain(
    words: &[u64],
    responses: &[Response],
    width: u32,
    registers: &[u64],
    word: usize,
    answer: &mut [u64],
) -> u32
    ensures value { result ≡ (entries.explained_told (machine width words.now responses.now) registers.now word (length answer.old)).refusal }
    ensures answer_after { answer.new ≡ tell_in (entries.explained_numbers (entries.explained_told (machine width words.now responses.now) registers.now word (length answer.old))) answer.old }
{
    entry_pulses::dushvaneth_explain(words, responses, width, registers, word, answer)
}

#[unsafe(no_mangle)]
pub extern "C" fn dushvaneth_scan(
    words: &[u64],
    responses: &[Response],
    width: u32,
    key: Response,
    care: Response,
    answer: &mut [u64],
) -> u32
    ensures value { result ≡ (entries.resolved_told key care (machine width words.now responses.now) (length answer.old)).refusal }
    ensures answer_after { answer.new ≡ tell_in (resolved_numbers (entries.resolved_told key care (machine width words.now responses.now) (length answer.old))) answer.old }
{
    entry_pulses::dushvaneth_scan(words, responses, width, key, care, answer)
}

#[unsafe(no_mangle)]
pub extern "C" fn dushvaneth_network(
    words: &[u64],
    responses: &[Response],
    width: u32,
    key: Response,
    care: Response,
    answer: &mut [u64],
) -> u32
    ensures value { result ≡ (entries.resolved_told key care (machine width words.now responses.now) (length answer.old)).refusal }
    ensures answer_after { answer.new ≡ tell_in (resolved_numbers (entries.resolved_told key care (machine width words.now responses.now) (length answer.old))) answer.old }
{
    entry_pulses::dushvaneth_network(words, responses, width, key, care, answer)
}

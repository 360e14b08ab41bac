// Entry points for programs in other languages: the panel's load, both machines' pulses, the explainer, and resolution. Each takes its arguments
// apart and calls; include/dushvaneth.h tells callers.
// Document 01: 'The machine', 'One pulse', Resolution; document 02, request e.
#![tactic(auto)]

ghost use Rattle.std.specs.Prelude.{◌≡◌, List, length};
ghost use Rattle.machine.specs.Machine.{machine};
ghost use Rattle.machine.specs.Panel.{registers};
ghost use Rattle.machine.specs.Refusals.{pulse_check, answer_of, after, told};
ghost use Rattle.explainer.specs.Reasons as reasons;
ghost use Rattle.entry_forms.specs.Numbers.{tell_in, resolved_numbers, panel_size};
ghost use Rattle.entry_pulses.specs.Entries as entries;

use entry_forms::{
    RESOLVED_SIZE, check_lines, check_panel, check_room, lines_of, lower, lower_of, number_of,
    panel_of, tell, tell_resolved,
};
use explainer::Reason;
use machine::{Answer, Panel, Refusal, Response, WordSlice, also_of, check_machine, refuse};
use machines::{Network, Plain, Pulses, Resolves, Scan, WordWide};

// ---- the panel's load

#[tactic(auto, unfolding(crate::specs::Entries::load_check))]
fn check_load(registers: &[u64], register: u8, value: u64) -> Result<(), Refusal>
    ensures { result ≡ entries.load_check registers.now register value }
{
    let taken = panel::takes(register, value);
    lower(
        check_panel(registers),
        refuse(Refusal::PanelTooWide, !taken),
    )
}

// The registers of a panel, stored in the order of their numbers.
fn store(buffer: &mut [u64], from: Panel)
    requires { length buffer.old ≡ panel_size }
    ensures { buffer.new ≡ registers from }
{
    buffer.copy_from_slice(&[
        from.comp,
        from.sdr,
        from.sc1,
        from.sc2,
        from.mor,
        from.key as u64,
        from.care as u64,
        from.target as u64,
        from.address.0 as u64,
        from.sc3,
    ]);
}

#[unsafe(no_mangle)]
#[tactic(auto, unfolding(crate::specs::Entries::load_number, crate::specs::Entries::loaded))]
pub extern "C" fn dushvaneth_load(registers: &mut [u64], register: u8, value: u64) -> u32
    ensures value { result ≡ entries.load_number registers.old register value }
    ensures registers_after { registers.new ≡ entries.loaded registers.old register value }
{
    match check_load(registers, register, value) {
        Ok(()) => {
            store(registers, panel::load(panel_of(registers), register, value));
            0
        }
        Err(why) => number_of(why),
    }
}

// ---- both pulses

fn check_pulse(registers: &[u64], lines: u8, room: usize) -> Result<(), Refusal>
    ensures { result ≡ entries.pulse_own registers.now lines room }
{
    let rest = lower(check_lines(lines), check_room(PULSE_SIZE, room));
    lower(check_panel(registers), rest)
}

const PULSE_SIZE: usize = 4;

fn tell_pulse(answer: &mut [u64], given: Result<Answer, Refusal>) -> u32
    ensures value { result ≡ (told given).refusal }
    ensures answer_after { answer.new ≡ tell_in (entries.pulse_numbers (told given)) answer.old }
{
    match given {
        Ok(Answer { count, read }) => {
            tell(answer, &[0, 0, count as u64, read]);
            0
        }
        Err(why) => {
            tell(answer, &[machine::number_of(why), also_of(why), 0, 0]);
            number_of(why)
        }
    }
}

#[tactic(auto, unfolding(crate::specs::Entries::pulse_entry, crate::specs::Entries::pulse_told, crate::specs::Entries::pulse_left, machine::specs::Refusals::answer_of, machine::specs::Refusals::after))]
fn pulse<M: Pulses>(
    words: &mut [u64],
    responses: &mut [Response],
    width: u32,
    registers: &[u64],
    lines: u8,
    answer: &mut [u64],
) -> u32
    ensures value { result ≡ (entries.pulse_told (machine width words.old responses.old) registers.now lines (length answer.old)).refusal }
    ensures answer_after { answer.new ≡ tell_in (entries.pulse_numbers (entries.pulse_told (machine width words.old responses.old) registers.now lines (length answer.old))) answer.old }
    ensures words_after { words.new ≡ (entries.pulse_left (machine width words.old responses.old) registers.now lines (length answer.old)).words }
    ensures responses_after { responses.new ≡ (entries.pulse_left (machine width words.old responses.old) registers.now lines (length answer.old)).responses }
{
    let panel = panel_of(registers);
    let raised = lines_of(lines);
    let given = match check_pulse(registers, lines, answer.len()) {
        Ok(()) => M::pulse(words, responses, width, panel, raised),
        Err(why) => {
            let other = M::check(words, responses, width, panel, raised);
            Err(lower_of(why, other))
        }
    };
    tell_pulse(answer, given)
}

#[unsafe(no_mangle)]
pub extern "C" fn dushvaneth_wide_pulse(
    words: &mut [u64],
    responses: &mut [Response],
    width: u32,
    registers: &[u64],
    lines: u8,
    answer: &mut [u64],
) -> u32
    ensures value { result ≡ (entries.pulse_told (machine width words.old responses.old) registers.now lines (length answer.old)).refusal }
    ensures answer_after { answer.new ≡ tell_in (entries.pulse_numbers (entries.pulse_told (machine width words.old responses.old) registers.now lines (length answer.old))) answer.old }
    ensures words_after { words.new ≡ (entries.pulse_left (machine width words.old responses.old) registers.now lines (length answer.old)).words }
    ensures responses_after { responses.new ≡ (entries.pulse_left (machine width words.old responses.old) registers.now lines (length answer.old)).responses }
{
    pulse::<WordWide>(words, responses, width, registers, lines, answer)
}

#[unsafe(no_mangle)]
pub extern "C" fn dushvaneth_cells_pulse(
    words: &mut [u64],
    responses: &mut [Response],
    width: u32,
    registers: &[u64],
    lines: u8,
    answer: &mut [u64],
) -> u32
    ensures value { result ≡ (entries.pulse_told (machine width words.old responses.old) registers.now lines (length answer.old)).refusal }
    ensures answer_after { answer.new ≡ tell_in (entries.pulse_numbers (entries.pulse_told (machine width words.old responses.old) registers.now lines (length answer.old))) answer.old }
    ensures words_after { words.new ≡ (entries.pulse_left (machine width words.old responses.old) registers.now lines (length answer.old)).words }
    ensures responses_after { responses.new ≡ (entries.pulse_left (machine width words.old responses.old) registers.now lines (length answer.old)).responses }
{
    pulse::<Plain>(words, responses, width, registers, lines, answer)
}

// ---- the explainer

const EXPLAINED_SIZE: usize = 5;

fn check_explain(registers: &[u64], room: usize) -> Result<(), Refusal>
    ensures { result ≡ entries.explain_own registers.now room }
{
    lower(check_panel(registers), check_room(EXPLAINED_SIZE, room))
}

fn tell_explained(answer: &mut [u64], given: Result<Reason, Refusal>) -> u32
    ensures value { result ≡ (reasons.told given).refusal }
    ensures answer_after { answer.new ≡ tell_in (entries.explained_numbers (reasons.told given)) answer.old }
{
    match given {
        Ok(Reason::Matched) => {
            tell(answer, &[0, 0, 1, 0, 0]);
            0
        }
        Ok(Reason::NotSelected(bit)) => {
            tell(answer, &[0, 0, 2, 0, bit.0 as u64]);
            0
        }
        Ok(Reason::Against { syllable, bit }) => {
            tell(answer, &[0, 0, 3, syllable.0 as u64, bit.0 as u64]);
            0
        }
        Ok(Reason::EqualToTheBottom(syllable)) => {
            tell(answer, &[0, 0, 4, syllable.0 as u64, 0]);
            0
        }
        Err(why) => {
            tell(answer, &[machine::number_of(why), also_of(why), 0, 0, 0]);
            number_of(why)
        }
    }
}

#[unsafe(no_mangle)]
#[tactic(auto, unfolding(crate::specs::Entries::explain_entry, crate::specs::Entries::explained_told, explainer::specs::Reasons::explained))]
pub extern "C" fn dushvaneth_explain(
    words: &[u64],
    responses: &[Response],
    width: u32,
    registers: &[u64],
    word: usize,
    answer: &mut [u64],
) -> u32
    ensures value { result ≡ (entries.explained_told (machine width words.now responses.now) registers.now word (length answer.old)).refusal }
    ensures answer_after { answer.new ≡ tell_in (entries.explained_numbers (entries.explained_told (machine width words.now responses.now) registers.now word (length answer.old))) answer.old }
{
    let panel = panel_of(registers);
    let at = WordSlice(word);
    let given = match check_explain(registers, answer.len()) {
        Ok(()) => explainer::explain(words, responses, width, panel, at),
        Err(why) => {
            let other = explainer::check(words, responses, width, panel, at);
            Err(lower_of(why, other))
        }
    };
    tell_explained(answer, given)
}

// ---- resolution

#[tactic(auto, unfolding(crate::specs::Entries::resolved_told, resolver::specs::Answers::resolution))]
fn resolve<W: Resolves>(
    words: &[u64],
    responses: &[Response],
    width: u32,
    key: Response,
    care: Response,
    answer: &mut [u64],
) -> u32
    ensures value { result ≡ (entries.resolved_told key care (machine width words.now responses.now) (length answer.old)).refusal }
    ensures answer_after { answer.new ≡ tell_in (resolved_numbers (entries.resolved_told key care (machine width words.now responses.now) (length answer.old))) answer.old }
{
    let found = match check_room(RESOLVED_SIZE, answer.len()) {
        Ok(()) => W::resolve(words, responses, width, key, care),
        Err(why) => Err(lower_of(why, check_machine(words, responses, width))),
    };
    tell_resolved(answer, found)
}

#[unsafe(no_mangle)]
pub extern "C" fn dushvaneth_scan(
    words: &[u64],
    responses: &[Response],
    width: u32,
    key: Response,
    care: Response,
    answer: &mut [u64],
) -> u32
    ensures value { result ≡ (entries.resolved_told key care (machine width words.now responses.now) (length answer.old)).refusal }
    ensures answer_after { answer.new ≡ tell_in (resolved_numbers (entries.resolved_told key care (machine width words.now responses.now) (length answer.old))) answer.old }
{
    resolve::<Scan>(words, responses, width, key, care, answer)
}

#[unsafe(no_mangle)]
pub extern "C" fn dushvaneth_network(
    words: &[u64],
    responses: &[Response],
    width: u32,
    key: Response,
    care: Response,
    answer: &mut [u64],
) -> u32
    ensures value { result ≡ (entries.resolved_told key care (machine width words.now responses.now) (length answer.old)).refusal }
    ensures answer_after { answer.new ≡ tell_in (resolved_numbers (entries.resolved_told key care (machine width words.now responses.now) (length answer.old))) answer.old }
{
    resolve::<Network>(words, responses, width, key, care, answer)
}

// The plain machine: one pulse, cell by cell, as document 01's paragraph 'The cells' says. The cells of one word are in
// `chains`.
#![tactic(auto)]

ghost use Rattle.std.specs.Prelude.{◌≡◌, false, ◌≤◌, length};
ghost use Rattle.laws.specs.Lists.{zip, count};
ghost use Rattle.machine.specs.Machine.{machine};
ghost use Rattle.machine.specs.Search.{marked};
ghost use Rattle.machine.specs.Pulse.{flipped, word_after, response_after, counts};
ghost use Rattle.machine.specs.Refusals.{bad_width, bad_codes, pulse_check, answer_of, after};

use chains::{add, bits, search};
use machine::{Answer, Lines, Panel, RESPONSE_BITS, Refusal, Response, refuse};

// ---- responses

fn mark(target: Response, matching: bool, r: Response) -> Response
    ensures { result ≡ marked target matching r }
{
    let ones = if matching { u64::MAX } else { 0 };
    bits::merge(RESPONSE_BITS, target as u64, ones, r as u64) as Response
}

fn flip(target: Response, r: Response) -> Response
    ensures { result ≡ flipped target r }
{
    bits::merge(RESPONSE_BITS, target as u64, !(r as u64), r as u64) as Response
}

// ---- one word

// What a pulse makes of one word: its contents, its response bits, and whether it counts.
#[derive(Clone, Copy)]
struct Turned {
    word: u64,
    response: Response,
    counted: bool,
}

fn turn(width: u32, panel: Panel, lines: Lines, k: usize, w: u64, r: Response) -> Turned
    requires width_value { bad_width width ≡ false }
    requires lines_value { bad_codes width panel lines ≡ false }
    ensures { (result.word ≡ word_after width panel lines k w r) × (result.response ≡ response_after width panel lines k w r) × (result.counted ≡ counts width panel lines w r) }
{
    let selected = machine::is_selected(panel.key, panel.care, r);
    let addressed = k == panel.address.0;
    let write = (lines.write & addressed) | (lines.multiwrite & selected);
    let add = (lines.add & addressed) | (lines.multiadd & selected);
    let word = add::change_word(width, panel, write, add, w);
    if lines.search {
        let matching = search::is_match(width, panel, w, r);
        return Turned {
            word,
            response: mark(panel.target, matching, r),
            counted: matching,
        };
    }
    if lines.complement & selected {
        return Turned {
            word,
            response: flip(panel.target, r),
            counted: selected,
        };
    }
    Turned {
        word,
        response: r,
        counted: selected,
    }
}

// ---- all words, each worked out from the machine before the pulse

fn turn_all(
    width: u32,
    panel: Panel,
    lines: Lines,
    words: &mut [u64],
    responses: &mut [Response],
) -> usize
    requires width_value { bad_width width ≡ false }
    requires lines_value { bad_codes width panel lines ≡ false }
    requires responses_len { length responses.old ≡ length words.old }
    ensures value { result ≡ count (counts width panel lines) words.old responses.old }
    ensures words_after { words.new ≡ zip (word_after width panel lines) 0 words.old responses.old }
    ensures responses_after { responses.new ≡ zip (response_after width panel lines) 0 words.old responses.old }
{
    let mut counted: usize = 0;
    for k in 0..words.len() {
        let t = turn(width, panel, lines, k, words[k], responses[k]);
        words[k] = t.word;
        responses[k] = t.response;
        counted += usize::from(t.counted);
    }
    counted
}

// ---- the checks 1 to 7

#[tactic(auto, using(machine::proofs::Refusals::width_le), unfolding(machine::specs::Refusals::bad_codes))]
fn bad_codes(width: u32, panel: Panel, lines: Lines) -> bool
    requires { bad_width width ≡ false }
    ensures { result ≡ bad_codes width panel lines }
{
    lines.search && !search::all_unmixed(width, panel)
}

#[tactic(auto, using(machine::proofs::Refusals::handed), unfolding(machine::specs::Refusals::pulse_check))]
pub fn check(
    words: &[u64],
    responses: &[Response],
    width: u32,
    panel: Panel,
    lines: Lines,
) -> Result<(), Refusal>
    ensures { result ≡ pulse_check (machine width words.now responses.now) panel lines }
{
    machine::check_machine(words, responses, width)?;
    refuse(Refusal::PanelTooWide, machine::bad_panel(width, panel))?;
    refuse(Refusal::TwoCodes, bad_codes(width, panel, lines))?;
    machine::check_command(words.len(), panel, lines)
}

// ---- one pulse

pub fn pulse(
    words: &mut [u64],
    responses: &mut [Response],
    width: u32,
    panel: Panel,
    lines: Lines,
) -> Result<Answer, Refusal>
    ensures value { result ≡ answer_of (machine width words.old responses.old) panel lines }
    ensures words_after { words.new ≡ (after (machine width words.old responses.old) panel lines).words }
    ensures responses_after { responses.new ≡ (after (machine width words.old responses.old) panel lines).responses }
{
    check(words, responses, width, panel, lines)?;
    let read = machine::read_word(panel, lines, words);
    let count = turn_all(width, panel, lines, words, responses);
    Ok(Answer { count, read })
}

// The word-wide machine: one pulse with a constant number of word operations for each word, however many syllables there are.
// Document 01, 'One pulse'. Its contract is the plain machine's. Masks are worked out once per pulse, in constant time.
#![tactic(auto)]

ghost use Rattle.std.specs.Prelude.{◌≡◌, true, false, ◌-◌, ◌^◌, ◌≤◌, ◌<◌, length, Ok};
ghost use Rattle.laws.specs.Lists.{zip, count};
ghost use Rattle.machine.specs.Machine.{machine};
ghost use Rattle.machine.specs.Pulse.{counts, word_after, response_after, count_of, pulsed};
ghost use Rattle.machine.specs.Refusals.{bad_codes, pulse_check, answer_of, after};
ghost use Rattle.masks.specs.Plan.{Fit};
ghost use Rattle.wide.specs.Accepted.{Accepted, rest_check, multi_after};

use machine::{Answer, Lines, Panel, Refusal, Response, refuse};
use masks::{make_changes, make_masks, make_tags, mixed, tops_of};

// ---- the checks, 1 to 7

// 5: a syllable in which SC1 and SC2 are mixed, one in which SC3's cared bits and all cared bits are, or SC3 over a bit that SC1 doesn't have.
fn bad_codes(width: u32, panel: Panel, lines: Lines) -> bool
    requires { Fit width panel }
    ensures { result ≡ bad_codes width panel lines }
{
    if lines.search {
        let t = tops_of(width, panel.sdr);
        let care = panel.sc1 | panel.sc2;
        let codes = mixed(width, t, panel.sc1, panel.sc2);
        let settings = mixed(width, t, panel.sc3 & care, care);
        let two = codes | settings | (panel.sc3 & !panel.sc1);
        two != 0
    } else {
        false
    }
}

// 4 to 7, where 1 to 3 are passed.
#[tactic(auto, using(machine::proofs::Refusals::handed))]
fn check_rest(words: usize, width: u32, panel: Panel, lines: Lines) -> Result<(), Refusal>
    requires { (0 < width) × (width ≤ 64) }
    ensures { result ≡ rest_check words width panel lines }
{
    refuse(Refusal::PanelTooWide, machine::bad_panel(width, panel))?;
    refuse(Refusal::TwoCodes, bad_codes(width, panel, lines))?;
    machine::check_command(words, panel, lines)
}

// "A pulse is checked for 1 to 7 .. Checked in number order."
#[tactic(auto, using(machine::proofs::Refusals::handed), unfolding(machine::specs::Refusals::pulse_check))]
pub fn check(
    words: &[u64],
    responses: &[Response],
    width: u32,
    panel: Panel,
    lines: Lines,
) -> Result<(), Refusal>
    ensures { result ≡ pulse_check (machine width words.now responses.now) panel lines }
{
    machine::check_machine(words, responses, width)?;
    check_rest(words.len(), width, panel, lines)
}

// ---- all words

// Search raised: all words but for the addressed one's change.
fn sweep_search(
    width: u32,
    panel: Panel,
    lines: Lines,
    words: &mut [u64],
    responses: &mut [Response],
) -> usize
    requires accepted { Accepted width panel lines words.old responses.old }
    requires search_value { lines.search ≡ true }
    ensures value { result ≡ count (counts width panel lines) words.old responses.old }
    ensures words_after { words.new ≡ zip (multi_after width panel lines) 0 words.old responses.old }
    ensures responses_after { responses.new ≡ zip (response_after width panel lines) 0 words.old responses.old }
{
    let tags = make_tags(panel);
    let masks = make_masks(width, panel);
    if lines.multiwrite | lines.multiadd {
        let changes = make_changes(width, panel);
        sweeps::search_change(
            masks,
            changes,
            tags,
            lines.multiwrite,
            lines.multiadd,
            words,
            responses,
        )
    } else {
        sweeps::search(masks, tags, words, responses)
    }
}

// Search not raised.
fn sweep_others(
    width: u32,
    panel: Panel,
    lines: Lines,
    words: &mut [u64],
    responses: &mut [Response],
) -> usize
    requires accepted { Accepted width panel lines words.old responses.old }
    requires search_value { lines.search ≡ false }
    ensures value { result ≡ count (counts width panel lines) words.old responses.old }
    ensures words_after { words.new ≡ zip (multi_after width panel lines) 0 words.old responses.old }
    ensures responses_after { responses.new ≡ zip (response_after width panel lines) 0 words.old responses.old }
{
    let tags = make_tags(panel);
    let changes = make_changes(width, panel);
    let n = sweeps::change(
        changes,
        tags,
        lines.multiwrite,
        lines.multiadd,
        words,
        responses,
    );
    if lines.complement {
        sweeps::flip(tags, responses);
    }
    n
}

fn sweep(
    width: u32,
    panel: Panel,
    lines: Lines,
    words: &mut [u64],
    responses: &mut [Response],
) -> usize
    requires { Accepted width panel lines words.old responses.old }
    ensures value { result ≡ count (counts width panel lines) words.old responses.old }
    ensures words_after { words.new ≡ zip (multi_after width panel lines) 0 words.old responses.old }
    ensures responses_after { responses.new ≡ zip (response_after width panel lines) 0 words.old responses.old }
{
    if lines.search {
        sweep_search(width, panel, lines, words, responses)
    } else {
        sweep_others(width, panel, lines, words, responses)
    }
}

// ---- the addressed word

// "Two writes on one word write once; two adds add once (house)."
fn new_at(width: u32, panel: Panel, lines: Lines, w: u64, r: Response) -> u64
    requires fit { Fit width panel }
    requires w_bound { w < 2 ^ width }
    ensures { result ≡ word_after width panel lines panel.address.0 w r }
{
    let changes = make_changes(width, panel);
    let chosen = sweeps::chosen_of(make_tags(panel), r);
    sweeps::new_word(
        changes,
        lines.write | (lines.multiwrite & chosen),
        lines.add | (lines.multiadd & chosen),
        w,
    )
}

// The pulse where nothing is refused: a job's step has judged the machine and its command by then. The addressed word is worked out before the
// sweep and stored after it: "All results are worked out from the machine before the pulse."
pub fn give(
    words: &mut [u64],
    responses: &mut [Response],
    width: u32,
    panel: Panel,
    lines: Lines,
) -> usize
    requires { pulse_check (machine width words.old responses.old) panel lines ≡ Ok tt }
    ensures value { result ≡ count_of (machine width words.old responses.old) panel lines }
    ensures words_after { words.new ≡ (pulsed (machine width words.old responses.old) panel lines).words }
    ensures responses_after { responses.new ≡ (pulsed (machine width words.old responses.old) panel lines).responses }
{
    if lines.write | lines.add {
        let at = panel.address.0;
        let word = new_at(width, panel, lines, words[at], responses[at]);
        let n = sweep(width, panel, lines, words, responses);
        words[at] = word;
        n
    } else {
        sweep(width, panel, lines, words, responses)
    }
}

// One pulse, or a refusal: what is lent is changed only where nothing is refused.
pub fn pulse(
    words: &mut [u64],
    responses: &mut [Response],
    width: u32,
    panel: Panel,
    lines: Lines,
) -> Result<Answer, Refusal>
    ensures value { result ≡ answer_of (machine width words.old responses.old) panel lines }
    ensures words_after { words.new ≡ (after (machine width words.old responses.old) panel lines).words }
    ensures responses_after { responses.new ≡ (after (machine width words.old responses.old) panel lines).responses }
{
    check(words, responses, width, panel, lines)?;
    let read = machine::read_word(panel, lines, words);
    let count = give(words, responses, width, panel, lines);
    Ok(Answer { count, read })
}

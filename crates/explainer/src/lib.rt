// Document 02, request e, "Why was she not picked?": for a machine, a panel and a word number, what a search finds there, or why it does not.
// The cells of that word are looked at as the plain machine has them, from the top bit down.
#![tactic(auto)]

ghost use Rattle.std.specs.Prelude.{◌≡◌, true, ◌+◌, ◌≤◌, ◌<◌};
ghost use Rattle.laws.specs.Lists.{all};
ghost use Rattle.machine.specs.Machine.{machine, syllables};
ghost use Rattle.machine.specs.Search.{unmixed};
ghost use Rattle.chains.specs.Walks.{syllable};
ghost use Rattle.explainer.specs.Reasons as reasons;

use chains::bits::bit_of;
use chains::search::{accepted_at, code_at, pass_on};
use chains::syllables::{Syllable, down_from};
use machine::{
    BitSlice, Lines, Panel, RESPONSE_BITS, Refusal, Response, ResponseBit, Status, WordSlice,
    is_selected, refuse,
};

// What is answered of a word. The syllable is told by the number of its top bit.
#[derive(Clone, Copy, PartialEq, Eq)]
pub enum Reason {
    Matched,
    NotSelected(ResponseBit),
    Against { syllable: BitSlice, bit: BitSlice },
    EqualToTheBottom(BitSlice),
}

// ---- "not selected, with the lowest response bit that differs"

// From the key, at a bit that care has.
fn differs(panel: Panel, response: Response, i: u32) -> bool
    requires { i < 64 }
    ensures { result ≡ reasons.differs panel response i }
{
    let care = bit_of(panel.care as u64, i);
    let bit = bit_of(response as u64, i);
    let key = bit_of(panel.key as u64, i);
    (care == 1) & (bit != key)
}

fn not_selected(panel: Panel, response: Response) -> Reason
    ensures { result ≡ reasons.not_selected panel response }
{
    let lowest = (0..RESPONSE_BITS)
        .find(|i| differs(panel, response, *i))
        .unwrap_or(RESPONSE_BITS);
    Reason::NotSelected(ResponseBit(lowest as u8))
}

// ---- "with the bit where it was settled against, or "equal to the bottom""

fn cell_at(panel: Panel, w: u64, i: u32, above: Status) -> Status
    requires { i < 64 }
    ensures { result ≡ reasons.cell_at panel w i above }
{
    pass_on(
        code_at(panel, i),
        bit_of(w, i),
        bit_of(panel.comp, i),
        above,
    )
}

fn is_against(status: Status) -> bool
    ensures { result ≡ reasons.is_against status }
{
    status == Status::Against
}

// From the top bit down.
fn down_through(panel: Panel, w: u64, top: u8, y: Syllable) -> Reason
    ensures { result ≡ reasons.down_through panel w top (syllable y.low y.width) y.width Status.Equal }
{
    let mut status = Status::Equal;
    for j in (0..y.width).rev() {
        let bit = y.low + j;
        status = cell_at(panel, w, bit, status);
        if is_against(status) {
            return Reason::Against {
                syllable: BitSlice(top),
                bit: BitSlice(bit as u8),
            };
        }
    }
    Reason::EqualToTheBottom(BitSlice(top))
}

fn in_syllable(panel: Panel, w: u64, top: u8) -> Reason
    requires { top < 64 }
    ensures { result ≡ reasons.in_syllable panel w top }
{
    down_through(panel, w, top, down_from(panel.sdr, top as u32))
}

// ---- "the topmost syllable not satisfied"

// From the top bit down, at each bit of the syllable that it starts, if it starts one.
fn topmost(n: u32, panel: Panel, w: u64) -> Reason
    requires n_bound { n ≤ 64 }
    requires sdr_value { all (unmixed panel) (syllables n panel.sdr) ≡ true }
    ensures { result ≡ reasons.topmost n panel w n }
{
    for t in (0..n).rev() {
        let accepted = accepted_at(n, panel, w, t);
        if !accepted {
            return in_syllable(panel, w, t as u8);
        }
    }
    Reason::Matched
}

#[tactic(auto, unfolding(crate::specs::Reasons::reason))]
fn reason_of(n: u32, panel: Panel, w: u64, response: Response) -> Reason
    requires n_bound { n ≤ 64 }
    requires sdr_value { all (unmixed panel) (syllables n panel.sdr) ≡ true }
    ensures { result ≡ reasons.reason n panel w response }
{
    if is_selected(panel.key, panel.care, response) {
        topmost(n, panel, w)
    } else {
        not_selected(panel, response)
    }
}

// ---- the call

// "Refusals: as for a search, with 7 for the word number."
#[tactic(auto, using(machine::proofs::Refusals::handed), unfolding(crate::specs::Reasons::explain_check))]
pub fn check(
    words: &[u64],
    responses: &[Response],
    width: u32,
    panel: Panel,
    word: WordSlice,
) -> Result<(), Refusal>
    ensures { result ≡ reasons.explain_check (machine width words.now responses.now) panel word }
{
    let searching = Lines {
        search: true,
        read: false,
        write: false,
        add: false,
        multiwrite: false,
        multiadd: false,
        complement: false,
    };
    wide::check(words, responses, width, panel, searching)?;
    refuse(Refusal::NoSuchWord, words.len() <= word.0)
}

pub fn explain(
    words: &[u64],
    responses: &[Response],
    width: u32,
    panel: Panel,
    word: WordSlice,
) -> Result<Reason, Refusal>
    ensures { result ≡ reasons.explained (machine width words.now responses.now) panel word }
{
    check(words, responses, width, panel, word)?;
    let k = word.0;
    Ok(reason_of(width, panel, words[k], responses[k]))
}

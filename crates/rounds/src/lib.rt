// Document 01, 'The hand-out round': show and answer.
// None of them looks at a held job. Show changes nothing; an answer changes one word's X and, if faulty, its F.
#![tactic(auto)]

ghost use Rattle.std.specs.Prelude.{◌≡◌, ◌<◌};
ghost use Rattle.machine.specs.Machine.{machine, response_bits};
ghost use Rattle.machine.specs.Resolution.{lowest};
ghost use Rattle.rounds.specs.Round.{has, answered, show_check, pair_check, round_check, answer_check, show_of, reply_of, after_answer};

use machine::{
    Refusal, Response, ResponseBit, WordSlice, check_apart, check_bit, check_machine, refuse,
};
use resolver::lowest_selected;

// What the host says of a word that it was shown.
#[derive(Clone, Copy)]
pub enum Verdict {
    Done,
    Faulty,
}

// ---- the checks, in the table's order

#[tactic(auto, using(machine::proofs::Refusals::handed), unfolding(crate::specs::Round::show_check))]
pub fn check_show(
    words: &[u64],
    responses: &[Response],
    width: u32,
    x: ResponseBit,
) -> Result<(), Refusal>
    ensures { result ≡ show_check x (machine width words.now responses.now) }
{
    check_machine(words, responses, width)?;
    check_bit(x)
}

// 23 and 24, of an answer.
#[tactic(auto, using(machine::proofs::Refusals::handed), unfolding(crate::specs::Round::pair_check))]
fn check_pair(x: ResponseBit, f: ResponseBit) -> Result<(), Refusal>
    ensures { result ≡ pair_check x f }
{
    check_bit(x)?;
    check_bit(f)?;
    check_apart(x, f)
}

// All but 11: what a whole round is checked for before its first show.
#[tactic(auto, using(machine::proofs::Refusals::handed), unfolding(crate::specs::Round::round_check))]
pub fn check_round(
    words: &[u64],
    responses: &[Response],
    width: u32,
    x: ResponseBit,
    f: ResponseBit,
) -> Result<(), Refusal>
    ensures { result ≡ round_check x f (machine width words.now responses.now) }
{
    check_machine(words, responses, width)?;
    check_pair(x, f)
}

// The lowest word with bit X: resolution with X as key and care.
#[tactic(auto, using(crate::proofs::Marks::lowest_mask))]
fn lowest_with(responses: &[Response], x: ResponseBit) -> Option<WordSlice>
    requires { x.0 < response_bits }
    ensures { result ≡ lowest (has x) 0 responses.now }
{
    let mark: Response = 1 << x.0;
    lowest_selected(responses, mark, mark)
}

// The word shown is looked for only where X is a response bit.
#[tactic(auto, using(machine::proofs::Refusals::handed, crate::proofs::Passing::answer_by_lem), unfolding(crate::specs::Round::shown))]
pub fn check_answer(
    words: &[u64],
    responses: &[Response],
    width: u32,
    x: ResponseBit,
    f: ResponseBit,
    word: WordSlice,
) -> Result<(), Refusal>
    ensures { result ≡ answer_check x f word (machine width words.now responses.now) }
{
    check_round(words, responses, width, x, f)?;
    // 11: "answer for a word other than the one show would give now"
    refuse(Refusal::NotShown, lowest_with(responses, x) != Some(word))
}

// ---- show and answer

// "Show answers the lowest word with response bit X, or none; it changes nothing."
#[tactic(auto, using(machine::proofs::Refusals::handed), unfolding(crate::specs::Round::show_of, crate::specs::Round::shown))]
pub fn show(
    words: &[u64],
    responses: &[Response],
    width: u32,
    x: ResponseBit,
) -> Result<Option<WordSlice>, Refusal>
    ensures { result ≡ show_of x (machine width words.now responses.now) }
{
    check_show(words, responses, width, x)?;
    Ok(lowest_with(responses, x))
}

// 'Answer "done" for the shown word clears its X. Answer "faulty" clears its X and sets its F.'
#[tactic(auto, using(crate::proofs::Marks::done_mask, crate::proofs::Marks::faulty_mask))]
fn judged(response: Response, x: ResponseBit, f: ResponseBit, verdict: Verdict) -> Response
    requires { (x.0 < response_bits) × (f.0 < response_bits) }
    ensures { result ≡ answered x f verdict response }
{
    let mark: Response = 1 << x.0;
    let fault: Response = 1 << f.0;
    match verdict {
        Verdict::Done => response & !mark,
        Verdict::Faulty => (response & !mark) | fault,
    }
}

#[tactic(auto, using(machine::proofs::Refusals::handed), unfolding(crate::specs::Round::reply_of, crate::specs::Round::after_answer))]
pub fn answer(
    words: &[u64],
    responses: &mut [Response],
    width: u32,
    x: ResponseBit,
    f: ResponseBit,
    word: WordSlice,
    verdict: Verdict,
) -> Result<(), Refusal>
    ensures value { result ≡ reply_of x f word (machine width words.now responses.old) }
    ensures responses_after { responses.new ≡ (after_answer x f word verdict (machine width words.now responses.old)).responses }
{
    check_answer(words, responses, width, x, f, word)?;
    let response = judged(responses[word.0], x, f, verdict);
    responses[word.0] = response;
    Ok(())
}

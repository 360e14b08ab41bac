// A whole hand-out round, worked by the host from a list of verdicts: show and answer in turn, until show gives none.
// Document 01, 'The hand-out round': "The answer none ends the round."
#![tactic(auto)]

ghost use Rattle.std.specs.Prelude.{◌≡◌, Ok};
ghost use Rattle.machine.specs.Machine.{machine};
ghost use Rattle.rounds.specs.Round.{round_check};
ghost use Rattle.handout.specs.Whole.{says_done, ended, after_ended, report_of, after_round};

use machine::{Refusal, Response, ResponseBit, WordSlice};
use rounds::{Verdict, answer, check_round, show};

// What a whole round comes to: how many words were answered done and how many faulty.
#[derive(Clone, Copy)]
pub struct Report {
    pub done: usize,
    pub faulty: usize,
}

// ---- the host's loop

// What the list says of a word; a word that it doesn't reach is not called done.
fn says_done(verdicts: &[u8], word: WordSlice) -> bool
    ensures { result ≡ says_done verdicts.now word.0 }
{
    verdicts.get(word.0) == Some(&1)
}

// "The answer none ends the round." No answer is turned down, since each is for the word just shown.
fn work(
    words: &[u64],
    responses: &mut [Response],
    width: u32,
    x: ResponseBit,
    f: ResponseBit,
    verdicts: &[u8],
) -> Report
    requires { round_check x f (machine width words.now responses.old) ≡ Ok tt }
    ensures value { result ≡ ended x verdicts.now (machine width words.now responses.old) }
    ensures responses_after { responses.new ≡ (after_ended x f verdicts.now (machine width words.now responses.old)).responses }
{
    let mut report = Report { done: 0, faulty: 0 };
    // That the round goes on after each answer is proved of `taken`; a bare `loop` would leave it unsaid.
    let mut taken = true;
    while taken {
        let Ok(Some(word)) = show(words, responses, width, x) else {
            return report;
        };
        let sound = says_done(verdicts, word);
        let verdict = if sound {
            Verdict::Done
        } else {
            Verdict::Faulty
        };
        taken = answer(words, responses, width, x, f, word, verdict).is_ok();
        report.done += usize::from(sound);
        report.faulty += usize::from(!sound);
    }
    report
}

// A whole round on lent buffers. Only the words that have X are answered, each once, the lowest first.
#[tactic(auto, using(machine::proofs::Refusals::handed), unfolding(crate::specs::Whole::report_of, crate::specs::Whole::after_round))]
pub fn round(
    words: &[u64],
    responses: &mut [Response],
    width: u32,
    x: ResponseBit,
    f: ResponseBit,
    verdicts: &[u8],
) -> Result<Report, Refusal>
    ensures value { result ≡ report_of x f verdicts.now (machine width words.now responses.old) }
    ensures responses_after { responses.new ≡ (after_round x f verdicts.now (machine width words.now responses.old)).responses }
{
    check_round(words, responses, width, x, f)?;
    Ok(work(words, responses, width, x, f, verdicts))
}

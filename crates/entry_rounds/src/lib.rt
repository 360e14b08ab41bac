// Entry points for programs in other languages: the hand-out round. Each takes its arguments apart and calls; include/dushvaneth.h tells
// callers.
// Document 01: 'The hand-out round'.
#![tactic(auto)]

ghost use Rattle.std.specs.Prelude.{◌≡◌, eqb, length};
ghost use Rattle.machine.specs.Machine.{machine};
ghost use Rattle.rounds.specs.Round as rounding;
ghost use Rattle.handout.specs.Whole as whole;
ghost use Rattle.entry_forms.specs.Numbers.{tell_in, resolved_numbers};
ghost use Rattle.entry_rounds.specs.Entries as entries;

use entry_forms::{RESOLVED_SIZE, check_room, lower_of, number_of, tell, tell_resolved};
use handout::Report;
use machine::{Refusal, Response, ResponseBit, WordSlice, also_of};
use rounds::{Verdict, check_answer, check_round, check_show};

// ---- show

#[unsafe(no_mangle)]
#[tactic(auto, unfolding(crate::specs::Entries::show_told, rounds::specs::Round::show_of))]
pub extern "C" fn dushvaneth_show(
    words: &[u64],
    responses: &[Response],
    width: u32,
    x: u8,
    answer: &mut [u64],
) -> u32
    ensures value { result ≡ (entries.show_told x (machine width words.now responses.now) (length answer.old)).refusal }
    ensures answer_after { answer.new ≡ tell_in (resolved_numbers (entries.show_told x (machine width words.now responses.now) (length answer.old))) answer.old }
{
    let mark = ResponseBit(x);
    let found = match check_room(RESOLVED_SIZE, answer.len()) {
        Ok(()) => rounds::show(words, responses, width, mark),
        Err(why) => Err(lower_of(why, check_show(words, responses, width, mark))),
    };
    tell_resolved(answer, found)
}

// ---- answer

const REPLY_SIZE: usize = 2;

fn tell_reply(answer: &mut [u64], reply: Result<(), Refusal>) -> u32
    ensures value { result ≡ (rounding.told reply).0 }
    ensures answer_after { answer.new ≡ tell_in (entries.reply_numbers (rounding.told reply)) answer.old }
{
    match reply {
        Ok(()) => {
            tell(answer, &[0, 0]);
            0
        }
        Err(why) => {
            tell(answer, &[machine::number_of(why), also_of(why)]);
            number_of(why)
        }
    }
}

// 1 says done, as in the list of a whole round.
fn verdict_of(verdict: u8) -> Verdict
    ensures { result ≡ whole.verdict_by (eqb verdict 1) }
{
    if verdict == 1 {
        Verdict::Done
    } else {
        Verdict::Faulty
    }
}

#[unsafe(no_mangle)]
#[tactic(auto, unfolding(crate::specs::Entries::answer_entry, crate::specs::Entries::answer_told, crate::specs::Entries::answer_left, rounds::specs::Round::reply_of, rounds::specs::Round::after_answer))]
pub extern "C" fn dushvaneth_answer(
    words: &[u64],
    responses: &mut [Response],
    width: u32,
    x: u8,
    f: u8,
    word: usize,
    verdict: u8,
    answer: &mut [u64],
) -> u32
    ensures value { result ≡ (entries.answer_told x f word (machine width words.now responses.old) (length answer.old)).0 }
    ensures answer_after { answer.new ≡ tell_in (entries.reply_numbers (entries.answer_told x f word (machine width words.now responses.old) (length answer.old))) answer.old }
    ensures responses_after { responses.new ≡ (entries.answer_left x f word verdict (machine width words.now responses.old) (length answer.old)).responses }
{
    let mark = ResponseBit(x);
    let fault = ResponseBit(f);
    let at = WordSlice(word);
    let reply = match check_room(REPLY_SIZE, answer.len()) {
        Ok(()) => rounds::answer(
            words,
            responses,
            width,
            mark,
            fault,
            at,
            verdict_of(verdict),
        ),
        Err(why) => Err(lower_of(why, check_answer(words, responses, width, mark, fault, at))),
    };
    tell_reply(answer, reply)
}

// ---- a whole round

const REPORT_SIZE: usize = 4;

fn tell_report(answer: &mut [u64], report: Result<Report, Refusal>) -> u32
    ensures value { result ≡ (whole.told report).refusal }
    ensures answer_after { answer.new ≡ tell_in (entries.report_numbers (whole.told report)) answer.old }
{
    match report {
        Ok(Report { done, faulty }) => {
            tell(answer, &[0, 0, done as u64, faulty as u64]);
            0
        }
        Err(why) => {
            tell(answer, &[machine::number_of(why), also_of(why), 0, 0]);
            number_of(why)
        }
    }
}

#[unsafe(no_mangle)]
#[tactic(auto, unfolding(crate::specs::Entries::round_entry, crate::specs::Entries::round_told, crate::specs::Entries::round_left, handout::specs::Whole::report_of, handout::specs::Whole::after_round))]
pub extern "C" fn dushvaneth_round(
    words: &[u64],
    responses: &mut [Response],
    width: u32,
    x: u8,
    f: u8,
    verdicts: &[u8],
    answer: &mut [u64],
) -> u32
    ensures value { result ≡ (entries.round_told x f verdicts.now (machine width words.now responses.old) (length answer.old)).refusal }
    ensures answer_after { answer.new ≡ tell_in (entries.report_numbers (entries.round_told x f verdicts.now (machine width words.now responses.old) (length answer.old))) answer.old }
    ensures responses_after { responses.new ≡ (entries.round_left x f verdicts.now (machine width words.now responses.old) (length answer.old)).responses }
{
    let mark = ResponseBit(x);
    let fault = ResponseBit(f);
    let report = match check_room(REPORT_SIZE, answer.len()) {
        Ok(()) => handout::round(words, responses, width, mark, fault, verdicts),
        Err(why) => Err(lower_of(why, check_round(words, responses, width, mark, fault))),
    };
    tell_report(answer, report)
}

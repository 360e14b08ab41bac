// The commands that give the machine one pulse, ask it for a word or about one, or answer for one: pulses on both machines, resolution by the
// scan and by the network, the explainer, and the hand-out round. Document 01: 'One pulse', 'The hand-out round'; document 02, request e;
// docs/BOARD.md has the language.
#![tactic(auto)]

ghost use Rattle.std.specs.Prelude.{◌≡◌, ◌%◌};
ghost use Rattle.machine.specs.Machine.{machine};
ghost use Rattle.text.specs.Words.{words_of};
ghost use Rattle.console_pulsing.specs.Lines as naming;
ghost use Rattle.console_pulsing.specs.Calls as calls;

use console_commands::{Board, Outcome};
use machine::{Lines, Refusal, Response, ResponseBit, WordSlice};
use machines::{Pulses, Resolves};
use rounds::Verdict;
use text::{arguments, numbers};

fn no_lines() -> Lines
    ensures { result ≡ naming.no_lines }
{
    Lines {
        search: false,
        read: false,
        write: false,
        add: false,
        multiwrite: false,
        multiadd: false,
        complement: false,
    }
}

// Lines by their number in the list of names below. A word that is none of them is as bad as one that stands twice.
fn is_raised(lines: Lines, number: usize) -> bool
    ensures { result ≡ naming.is_raised lines number }
{
    match number {
        0 => lines.search,
        1 => lines.read,
        2 => lines.write,
        3 => lines.add,
        4 => lines.multiwrite,
        5 => lines.multiadd,
        6 => lines.complement,
        _ => true,
    }
}

fn raise(lines: Lines, number: usize) -> Lines
    ensures { result ≡ naming.raise lines number }
{
    Lines {
        search: (number == 0) | lines.search,
        read: (number == 1) | lines.read,
        write: (number == 2) | lines.write,
        add: (number == 3) | lines.add,
        multiwrite: (number == 4) | lines.multiwrite,
        multiadd: (number == 5) | lines.multiadd,
        complement: (number == 6) | lines.complement,
    }
}

// The lines that a pulse's words name, "each at most once, in any order; none is taken too".
fn read_lines(rest: &[u8]) -> Option<Lines>
    ensures { result ≡ naming.lines_of (words_of rest.now) }
{
    let mut lines = no_lines();
    let mut at: usize = 0;
    // a turn goes on behind a word, and not by one, so no range counts the turns
    while at < rest.len() {
        let word = text::words::next(rest, at);
        if word.from == word.to {
            return Some(lines);
        }
        let number = text::words::which(
            b"search read write add multiwrite multiadd complement",
            &rest[word.from..word.to],
        );
        if is_raised(lines, number) {
            return None;
        }
        lines = raise(lines, number);
        at = word.to;
    }
    Some(lines)
}

// pulse L.. and cells L..
pub fn pulse<M: Pulses>(
    board: Board,
    rest: &[u8],
    words: &mut [u64],
    responses: &mut [Response],
) -> Outcome
    ensures value { result ≡ calls.pulse_outcome (naming.lines_of (words_of rest.now)) (machine board.width words.old responses.old) board.panel }
    ensures words_after { words.new ≡ (calls.pulse_after (naming.lines_of (words_of rest.now)) (machine board.width words.old responses.old) board.panel).words }
    ensures responses_after { responses.new ≡ (calls.pulse_after (naming.lines_of (words_of rest.now)) (machine board.width words.old responses.old) board.panel).responses }
{
    let Some(lines) = read_lines(rest) else {
        return Outcome::BadLine;
    };
    match M::pulse(words, responses, board.width, board.panel, lines) {
        Ok(done) => Outcome::Pulsed {
            count: done.count,
            read: done.read,
        },
        Err(why) => Outcome::Refused(why),
    }
}

fn resolved(found: Result<Option<WordSlice>, Refusal>) -> Outcome
    ensures { result ≡ calls.found found }
{
    match found {
        Ok(Some(word)) => Outcome::Word(word),
        Ok(None) => Outcome::NoWord,
        Err(why) => Outcome::Refused(why),
    }
}

// resolve and tree
pub fn resolve<W: Resolves>(
    board: Board,
    rest: &[u8],
    words: &[u64],
    responses: &[Response],
) -> Outcome
    ensures { result ≡ calls.resolve_outcome (words_of rest.now) (machine board.width words.now responses.now) board.panel }
{
    if !arguments::none(rest) {
        return Outcome::BadLine;
    }
    let panel = board.panel;
    resolved(W::resolve(words, responses, board.width, panel.key, panel.care))
}

// why I
pub fn why(board: Board, rest: &[u8], words: &[u64], responses: &[Response]) -> Outcome
    ensures { result ≡ calls.why_outcome (words_of rest.now) (machine board.width words.now responses.now) board.panel }
{
    let Some(row) = arguments::read(rest, b"a") else {
        return Outcome::BadLine;
    };
    let word = WordSlice(row[0] as usize);
    Outcome::Why(explainer::explain(words, responses, board.width, board.panel, word))
}

fn response_bit(x: u64) -> ResponseBit
    ensures { result ≡ record { 0 = x % 256 } }
{
    ResponseBit(numbers::byte(x))
}

// show X
pub fn show(board: Board, rest: &[u8], words: &[u64], responses: &[Response]) -> Outcome
    ensures { result ≡ calls.show_outcome (words_of rest.now) (machine board.width words.now responses.now) }
{
    let Some(row) = arguments::read(rest, b"b") else {
        return Outcome::BadLine;
    };
    resolved(rounds::show(words, responses, board.width, response_bit(row[0])))
}

// done X F I and faulty X F I
pub fn answer(
    board: Board,
    rest: &[u8],
    words: &[u64],
    responses: &mut [Response],
    verdict: Verdict,
) -> Outcome
    ensures value { result ≡ calls.answer_outcome (words_of rest.now) (machine board.width words.now responses.old) }
    ensures responses_after { responses.new ≡ (calls.answer_after (words_of rest.now) verdict (machine board.width words.now responses.old)).responses }
{
    let Some(row) = arguments::read(rest, b"bba") else {
        return Outcome::BadLine;
    };
    let x = response_bit(row[0]);
    let f = response_bit(row[1]);
    let word = WordSlice(row[2] as usize);
    match rounds::answer(words, responses, board.width, x, f, word, verdict) {
        Ok(()) => Outcome::Fine,
        Err(why) => Outcome::Refused(why),
    }
}

// Which command a line is. docs/BOARD.md has the language; `console_setting`, `console_pulsing`, `console_working` and `console_storing` have the commands.
#![tactic(auto)]

ghost use Rattle.std.specs.Prelude.{◌≡◌};
ghost use Rattle.text.specs.Words.{words_of};
ghost use Rattle.console.specs.Obeying as obeying;

use console_commands::{Board, Outcome, Turn};
use machine::Response;
use machines::{Network, Plain, Scan, WordWide};
use rounds::Verdict;
use text::words;

// One line, on buffers that are as long as any machine of the console needs. `bytes` is room for an image.
pub fn obey(
    board: Board,
    line: &[u8],
    words: &mut [u64],
    responses: &mut [Response],
    bytes: &mut [u8],
) -> Turn
    ensures value { result ≡ (obeying.obeyed (obeying.desk board words.old responses.old bytes.old) (words_of line.now)).turn }
    ensures words_after { words.new ≡ (obeying.obeyed (obeying.desk board words.old responses.old bytes.old) (words_of line.now)).words }
    ensures responses_after { responses.new ≡ (obeying.obeyed (obeying.desk board words.old responses.old bytes.old) (words_of line.now)).responses }
    ensures bytes_after { bytes.new ≡ (obeying.obeyed (obeying.desk board words.old responses.old bytes.old) (words_of line.now)).bytes }
{
    let word = words::next(line, 0);
    if word.from == word.to {
        return console_commands::bad_line(board);
    }
    by_name(
        board,
        &line[word.from..word.to],
        &line[word.to..],
        words,
        responses,
        bytes,
    )
}

// ---- by a name's number in a list, here and below: where a match on the names themselves falls through, a proof knows no more than lengths

// The commands that change how long the machine's buffers are.
fn by_name(
    board: Board,
    name: &[u8],
    rest: &[u8],
    words: &mut [u64],
    responses: &mut [Response],
    bytes: &mut [u8],
) -> Turn
    ensures value { result ≡ (obeying.named (obeying.desk board words.old responses.old bytes.old) name.now (words_of rest.now)).turn }
    ensures words_after { words.new ≡ (obeying.named (obeying.desk board words.old responses.old bytes.old) name.now (words_of rest.now)).words }
    ensures responses_after { responses.new ≡ (obeying.named (obeying.desk board words.old responses.old bytes.old) name.now (words_of rest.now)).responses }
    ensures bytes_after { bytes.new ≡ (obeying.named (obeying.desk board words.old responses.old bytes.old) name.now (words_of rest.now)).bytes }
{
    match words::which(b"machine lend resume fit", name) {
        0 => console_setting::make(board, rest, words, responses),
        1 => console_setting::lend(board, rest, responses),
        2 => console_storing::resume(board, rest, words, responses, bytes),
        3 => console_storing::fit(board, rest, words, responses, bytes),
        _ => on_machine(board, name, rest, words, responses, bytes),
    }
}

// The others are lent just the machine's own entries.
#[tactic(auto, using(std::proofs::lemmas::Bool::Decides::nat_tests), unfolding(crate::specs::Obeying::on_machine))]
fn on_machine(
    board: Board,
    name: &[u8],
    rest: &[u8],
    words: &mut [u64],
    responses: &mut [Response],
    bytes: &mut [u8],
) -> Turn
    ensures value { result ≡ (obeying.on_machine (obeying.desk board words.old responses.old bytes.old) name.now (words_of rest.now)).turn }
    ensures words_after { words.new ≡ (obeying.on_machine (obeying.desk board words.old responses.old bytes.old) name.now (words_of rest.now)).words }
    ensures responses_after { responses.new ≡ (obeying.on_machine (obeying.desk board words.old responses.old bytes.old) name.now (words_of rest.now)).responses }
    ensures bytes_after { bytes.new ≡ (obeying.on_machine (obeying.desk board words.old responses.old bytes.old) name.now (words_of rest.now)).bytes }
{
    let n = board.words;
    let m = board.responses;
    if words.len() < n || responses.len() < m {
        return console_commands::bad_line(board);
    }
    change(
        board,
        name,
        rest,
        &mut words[..n],
        &mut responses[..m],
        bytes,
    )
}

// The commands that change the panel or the held job.
fn change(
    board: Board,
    name: &[u8],
    rest: &[u8],
    words: &mut [u64],
    responses: &mut [Response],
    bytes: &mut [u8],
) -> Turn
    ensures value { result ≡ (obeying.changed (obeying.desk board words.old responses.old bytes.old) name.now (words_of rest.now)).turn }
    ensures words_after { words.new ≡ (obeying.changed (obeying.desk board words.old responses.old bytes.old) name.now (words_of rest.now)).words }
    ensures responses_after { responses.new ≡ (obeying.changed (obeying.desk board words.old responses.old bytes.old) name.now (words_of rest.now)).responses }
    ensures bytes_after { bytes.new ≡ (obeying.changed (obeying.desk board words.old responses.old bytes.old) name.now (words_of rest.now)).bytes }
{
    match words::which(b"load job drop start step run", name) {
        0 => console_setting::load(board, rest),
        1 => console_setting::write_job(board, rest),
        2 => console_setting::drop_job(board, rest),
        3 => console_working::start(board, rest, words, responses),
        4 => console_working::step(board, rest, words, responses),
        5 => console_working::run(board, rest, words, responses),
        _ => Turn {
            board,
            outcome: mark(board, name, rest, words, responses, bytes),
        },
    }
}

// The commands that change words and responses alone.
fn mark(
    board: Board,
    name: &[u8],
    rest: &[u8],
    words: &mut [u64],
    responses: &mut [Response],
    bytes: &mut [u8],
) -> Outcome
    ensures value { result ≡ (obeying.marked (obeying.desk board words.old responses.old bytes.old) name.now (words_of rest.now)).outcome }
    ensures words_after { words.new ≡ (obeying.marked (obeying.desk board words.old responses.old bytes.old) name.now (words_of rest.now)).words }
    ensures responses_after { responses.new ≡ (obeying.marked (obeying.desk board words.old responses.old bytes.old) name.now (words_of rest.now)).responses }
    ensures bytes_after { bytes.new ≡ (obeying.marked (obeying.desk board words.old responses.old bytes.old) name.now (words_of rest.now)).bytes }
{
    match words::which(b"word response pulse cells done faulty", name) {
        0 => console_setting::write_word(rest, words),
        1 => console_setting::write_response(rest, responses),
        2 => console_pulsing::pulse::<WordWide>(board, rest, words, responses),
        3 => console_pulsing::pulse::<Plain>(board, rest, words, responses),
        4 => console_pulsing::answer(board, rest, words, responses, Verdict::Done),
        5 => console_pulsing::answer(board, rest, words, responses, Verdict::Faulty),
        _ => look(board, name, rest, words, responses, bytes),
    }
}

// The commands that change nothing.
fn look(
    board: Board,
    name: &[u8],
    rest: &[u8],
    words: &[u64],
    responses: &[Response],
    bytes: &mut [u8],
) -> Outcome
    ensures value { result ≡ (obeying.looked (obeying.desk board words.now responses.now bytes.old) name.now (words_of rest.now)).outcome }
    ensures bytes_after { bytes.new ≡ (obeying.looked (obeying.desk board words.now responses.now bytes.old) name.now (words_of rest.now)).bytes }
{
    match words::which(b"panel resolve tree show total store list room why", name) {
        0 => console_setting::tell_panel(board, rest),
        1 => console_pulsing::resolve::<Scan>(board, rest, words, responses),
        2 => console_pulsing::resolve::<Network>(board, rest, words, responses),
        3 => console_pulsing::show(board, rest, words, responses),
        4 => console_working::total(board, rest, words, responses),
        5 => console_storing::store(board, rest, words, responses, bytes, false),
        6 => console_storing::store(board, rest, words, responses, bytes, true),
        7 => console_storing::room(board, rest, words, responses, bytes),
        8 => console_pulsing::why(board, rest, words, responses),
        _ => Outcome::BadLine,
    }
}

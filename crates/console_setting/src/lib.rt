// The commands by which the host sets its machine up by itself, with no call of the library but the panel's loads: it makes its
// buffers and writes them, unchecked, so that every refusal can be seen. docs/BOARD.md has the language.
#![tactic(auto)]

ghost use Rattle.std.specs.Prelude.{◌≡◌, is_some, IfSome};
ghost use Rattle.text.specs.Words.{words_of};
ghost use Rattle.text.specs.Rows.{fits, values};
ghost use Rattle.console_setting.specs.Settings as settings;

use console_commands::{Board, Outcome, Turn, bad_line, fine, fresh, with_held};
use job_plans::Job;
use machine::Response;
use text::{arguments, numbers, words};

// machine N n
pub fn make(board: Board, rest: &[u8], words: &mut [u64], responses: &mut [Response]) -> Turn
    ensures value { result ≡ settings.made board (words_of rest.now) }
    ensures words_after { words.new ≡ settings.cleared (fits "bn" (words_of rest.now)) words.old }
    ensures responses_after { responses.new ≡ settings.cleared (fits "bn" (words_of rest.now)) responses.old }
{
    let Some(row) = arguments::read(rest, b"bn") else {
        return bad_line(board);
    };
    words.fill(0);
    responses.fill(0);
    fine(fresh(u32::from(numbers::byte(row[0])), row[1] as usize))
}

// lend m
pub fn lend(board: Board, rest: &[u8], responses: &mut [Response]) -> Turn
    ensures value { result ≡ settings.lent board (words_of rest.now) }
    ensures responses_after { responses.new ≡ settings.cleared (fits "n" (words_of rest.now)) responses.old }
{
    let Some(row) = arguments::read(rest, b"n") else {
        return bad_line(board);
    };
    responses.fill(0);
    fine(Board {
        responses: row[0] as usize,
        ..board
    })
}

// word I HEX
pub fn write_word(rest: &[u8], words: &mut [u64]) -> Outcome
    ensures value { result ≡ settings.write_outcome "ax" (words_of rest.now) words.old }
    ensures words_after { words.new ≡ settings.word_written (words_of rest.now) words.old }
{
    let Some(row) = arguments::read(rest, b"ax") else {
        return Outcome::BadLine;
    };
    let i = row[0] as usize;
    if words.len() <= i {
        return Outcome::BadLine;
    }
    words[i] = row[1];
    Outcome::Fine
}

// response I HEX
pub fn write_response(rest: &[u8], responses: &mut [Response]) -> Outcome
    ensures value { result ≡ settings.write_outcome "ah" (words_of rest.now) responses.old }
    ensures responses_after { responses.new ≡ settings.response_written (words_of rest.now) responses.old }
{
    let Some(row) = arguments::read(rest, b"ah") else {
        return Outcome::BadLine;
    };
    let i = row[0] as usize;
    if responses.len() <= i {
        return Outcome::BadLine;
    }
    responses[i] = machine::response_of(row[1]);
    Outcome::Fine
}

// A register's value: hex, to FF for the 8-bit ones; the address is decimal.
fn read_value(register: usize, rest: &[u8]) -> Option<[u64; 16]>
    ensures right_value { is_some result ≡ fits (settings.letter_for register) (words_of rest.now) }
    ensures values_value { IfSome result (λ row. row ≡ values (settings.letter_for register) (words_of rest.now)) }
{
    match register {
        5..=7 => arguments::read(rest, b"h"),
        8 => arguments::read(rest, b"a"),
        _ => arguments::read(rest, b"x"),
    }
}

// load R HEX, load address A, load sc3 HEX
pub fn load(board: Board, rest: &[u8]) -> Turn
    ensures { result ≡ settings.loaded board (words_of rest.now) }
{
    let word = words::next(rest, 0);
    let register = words::which(
        b"comp sdr sc1 sc2 mor key care target address sc3",
        &rest[word.from..word.to],
    );
    if 9 < register {
        return bad_line(board);
    }
    let Some(row) = read_value(register, &rest[word.to..]) else {
        return bad_line(board);
    };
    // the list of names has the registers in the order of their numbers
    let panel = panel::load(board.panel, register as u8, row[0]);
    fine(Board { panel, ..board })
}

// panel
pub fn tell_panel(board: Board, rest: &[u8]) -> Outcome
    ensures { result ≡ settings.panel_told board (words_of rest.now) }
{
    if arguments::none(rest) {
        Outcome::Registers(board.panel)
    } else {
        Outcome::BadLine
    }
}

// job KIND KEY CARE X Y AL AW BL BW PL PW PHASE I J C
pub fn write_job(board: Board, rest: &[u8]) -> Turn
    ensures { result ≡ settings.job_written board (words_of rest.now) }
{
    let Some(row) = arguments::read(rest, b"bhhbbbbbbbbbbbx") else {
        return bad_line(board);
    };
    let job = Job {
        phase: numbers::byte(row[11]),
        i: numbers::byte(row[12]),
        j: numbers::byte(row[13]),
        c: row[14],
        ..console_commands::job_of(row)
    };
    fine(with_held(board, Some(job)))
}

// drop
pub fn drop_job(board: Board, rest: &[u8]) -> Turn
    ensures { result ≡ settings.dropped board (words_of rest.now) }
{
    if arguments::none(rest) {
        fine(with_held(board, None))
    } else {
        bad_line(board)
    }
}

// The commands on images: written for `store`, `list` and `room`, read for `resume` and `fit`. Document 01: 'The image';
// docs/BOARD.md has the language.
#![tactic(auto)]

ghost use Rattle.std.specs.Prelude.{◌≡◌, ◌≤◌, length, take, drop, Option, Some};
ghost use Rattle.laws.specs.Bits.{pick};
ghost use Rattle.jobs.specs.Runs.{state};
ghost use Rattle.text.specs.Words.{words_of};
ghost use Rattle.console_storing.specs.Images as images;

use console_commands::{Board, Outcome, Turn, bad_line, fine, refused};
use image::Loaded;
use machine::{Refusal, Response};
use text::{arguments, numbers};

// store, and list, which writes the same image.
pub fn store(
    board: Board,
    rest: &[u8],
    words: &[u64],
    responses: &[Response],
    bytes: &mut [u8],
    listed: bool,
) -> Outcome
    ensures value { let s = state board.width words.now responses.now board.held in result ≡ pick listed (images.list_outcome (words_of rest.now) s (length bytes.old)) (images.store_outcome (words_of rest.now) s (length bytes.old)) }
    ensures bytes_after { bytes.new ≡ images.stored (words_of rest.now) (state board.width words.now responses.now board.held) bytes.old }
{
    if !arguments::none(rest) {
        return Outcome::BadLine;
    }
    match image::writing::write(words, responses, board.width, board.held, bytes) {
        Ok(n) if listed => Outcome::Listing(n),
        Ok(n) => Outcome::Image(n),
        Err(why) => Outcome::Refused(why),
    }
}

// room K
pub fn room(
    board: Board,
    rest: &[u8],
    words: &[u64],
    responses: &[Response],
    bytes: &mut [u8],
) -> Outcome
    ensures value { result ≡ images.room_outcome (words_of rest.now) (state board.width words.now responses.now board.held) (length bytes.old) }
    ensures bytes_after { bytes.new ≡ images.room_written (words_of rest.now) (state board.width words.now responses.now board.held) bytes.old }
{
    let Some(row) = arguments::read(rest, b"k") else {
        return Outcome::BadLine;
    };
    let k = row[0] as usize;
    if bytes.len() < k {
        return Outcome::BadLine;
    }
    match image::writing::write(words, responses, board.width, board.held, &mut bytes[0..k]) {
        Ok(n) => Outcome::Length(n),
        Err(why) => Outcome::Refused(why),
    }
}

// "An image is one word of digit pairs, or no word for an image of no bytes": how many bytes it has, from the start of `bytes`.
// The image is what the line has from `at` on.
fn read_digits(rest: &[u8], at: usize, bytes: &mut [u8]) -> Option<u64>
    requires { at ≤ length rest.now }
    ensures value { result ≡ images.image_length (words_of (drop at rest.now)) (length bytes.old) }
    ensures bytes_after { bytes.new ≡ images.kept (words_of (drop at rest.now)) bytes.old }
{
    let word = text::words::next(rest, at);
    if !text::words::none_left(rest, word.to) {
        return None;
    }
    numbers::bytes(&rest[word.from..word.to], bytes)
}

// "on success the machine is the one read"; "the panel stays".
fn taken(board: Board, found: Result<Loaded, Refusal>) -> Turn
    ensures { result ≡ images.taken board found }
{
    match found {
        Ok(loaded) => fine(Board {
            width: loaded.width,
            words: loaded.words,
            responses: loaded.words,
            held: loaded.held,
            ..board
        }),
        Err(why) => refused(board, why),
    }
}

// Reads an image of `k` bytes into destinations of `w` words and `r` responses.
fn read(
    board: Board,
    bytes: &[u8],
    k: usize,
    words: &mut [u64],
    w: usize,
    responses: &mut [Response],
    r: usize,
) -> Turn
    requires { k ≤ length bytes.now }
    ensures value { result ≡ images.read_turn board (Some k) (take k bytes.now) (images.have w r words.old responses.old) w r }
    ensures words_after { words.new ≡ images.read_words (Some k) (take k bytes.now) (images.have w r words.old responses.old) w r words.old responses.old }
    ensures responses_after { responses.new ≡ images.read_responses (Some k) (take k bytes.now) (images.have w r words.old responses.old) w r words.old responses.old }
{
    if words.len() < w {
        return bad_line(board);
    }
    if responses.len() < r {
        return bad_line(board);
    }
    let found = image::reading::read(&bytes[0..k], &mut words[0..w], &mut responses[0..r]);
    taken(board, found)
}

// Digits to bytes, and bytes to a machine.
fn read_into(
    board: Board,
    rest: &[u8],
    at: usize,
    words: &mut [u64],
    w: usize,
    responses: &mut [Response],
    r: usize,
    bytes: &mut [u8],
) -> Turn
    requires { at ≤ length rest.now }
    ensures value { result ≡ images.reading_turn board (record { words = Some w; responses = Some r; image = words_of (drop at rest.now) }) words.old responses.old (length bytes.old) }
    ensures words_after { words.new ≡ images.reading_words (record { words = Some w; responses = Some r; image = words_of (drop at rest.now) }) words.old responses.old (length bytes.old) }
    ensures responses_after { responses.new ≡ images.reading_responses (record { words = Some w; responses = Some r; image = words_of (drop at rest.now) }) words.old responses.old (length bytes.old) }
    ensures bytes_after { bytes.new ≡ images.kept (words_of (drop at rest.now)) bytes.old }
{
    match read_digits(rest, at, bytes) {
        Some(k) => read(board, bytes, k as usize, words, w, responses, r),
        None => bad_line(board),
    }
}

// resume HEX..: "into the machine's own buffers, made 1024 long for it"
pub fn resume(
    board: Board,
    rest: &[u8],
    words: &mut [u64],
    responses: &mut [Response],
    bytes: &mut [u8],
) -> Turn
    ensures value { result ≡ images.reading_turn board (images.resuming (words_of rest.now)) words.old responses.old (length bytes.old) }
    ensures words_after { words.new ≡ images.reading_words (images.resuming (words_of rest.now)) words.old responses.old (length bytes.old) }
    ensures responses_after { responses.new ≡ images.reading_responses (images.resuming (words_of rest.now)) words.old responses.old (length bytes.old) }
    ensures bytes_after { bytes.new ≡ images.reading_bytes (images.resuming (words_of rest.now)) bytes.old }
{
    read_into(board, rest, 0, words, 1024, responses, 1024, bytes)
}

// fit W R HEX..: the two lengths, and the image's digits in what is left of the line.
pub fn fit(
    board: Board,
    rest: &[u8],
    words: &mut [u64],
    responses: &mut [Response],
    bytes: &mut [u8],
) -> Turn
    ensures value { result ≡ images.reading_turn board (images.fitting (words_of rest.now)) words.old responses.old (length bytes.old) }
    ensures words_after { words.new ≡ images.reading_words (images.fitting (words_of rest.now)) words.old responses.old (length bytes.old) }
    ensures responses_after { responses.new ≡ images.reading_responses (images.fitting (words_of rest.now)) words.old responses.old (length bytes.old) }
    ensures bytes_after { bytes.new ≡ images.reading_bytes (images.fitting (words_of rest.now)) bytes.old }
{
    let first = text::words::next(rest, 0);
    let second = text::words::next(rest, first.to);
    let Some(w) = arguments::read_one(b'n', &rest[first.from..first.to]) else {
        return bad_line(board);
    };
    let Some(r) = arguments::read_one(b'n', &rest[second.from..second.to]) else {
        return bad_line(board);
    };
    read_into(
        board, rest, second.to, words, w as usize, responses, r as usize, bytes,
    )
}

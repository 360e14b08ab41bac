// The words of a line: they "stand apart by one or more spaces, and by nothing else".
ghost use Rattle.std.specs.Prelude.{◌≡◌, ◌≤◌, eqb, length};
ghost use Rattle.text.specs.Words.{is_space, end_of, word_at, words_of, place_of};

use crate::Place;

const SPACE: u8 = 32;

// Whether a byte is a space, or, with `spaces` false, any other.
fn is_space(byte: u8, spaces: bool) -> bool
    ensures { result ≡ is_space spaces byte }
{
    (byte == SPACE) == spaces
}

// The end of the spaces, or with `spaces` false of the other bytes, that stand at `at`.
fn run_end(line: &[u8], at: usize, spaces: bool) -> usize
    requires { at ≤ length line.now }
    ensures { (at ≤ result) × (result ≤ length line.now) × (result ≡ end_of spaces line.now at) }
{
    for i in at..line.len() {
        if !is_space(line[i], spaces) {
            return i;
        }
    }
    line.len()
}

// The next word at or after `at`; an empty one at the line's end where there is none. It is a place and no slice, since the promises of
// the consoles speak of the place behind a word (`word_at`).
#[tactic(auto, unfolding(crate::specs::Words::word_at))]
pub fn next(line: &[u8], at: usize) -> Place
    ensures value { result ≡ word_at line.now at }
    ensures from_le_to { (result.from ≤ result.to) × ((result.to ≤ length line.now) × (at ≤ length line.now → at ≤ result.from)) }
{
    // past its end a line has nothing
    let from = run_end(line, at.min(line.len()), true);
    let to = run_end(line, from, false);
    Place { from, to }
}

// Whether no word stands at or after `at`.
pub fn none_left(line: &[u8], at: usize) -> bool
    ensures { result ≡ eqb (word_at line.now at).from (word_at line.now at).to }
{
    let word = next(line, at);
    word.from == word.to
}

// Which of the names, counted from 0, is the word; as many as there are where it is none of them.
pub fn which(names: &[u8], word: &[u8]) -> usize
    ensures { result ≡ place_of word.now (words_of names.now) }
{
    let mut number: usize = 0;
    let mut at: usize = 0;
    // a turn goes on behind a word, and not by one, so no range counts the turns
    while at < names.len() {
        let name = next(names, at);
        if name.from == name.to {
            return number;
        }
        if &names[name.from..name.to] == word {
            return number;
        }
        at = name.to;
        number += 1;
    }
    number
}

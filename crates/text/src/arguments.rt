// The numbers after a command's name, read by a row of letters, one for each number that the command takes.
ghost use Rattle.std.specs.Prelude.{◌≡◌, ◌<◌, ◌≤◌, [], length, set, replicate, is_some, IfSome};
ghost use Rattle.std.proofs.lemmas.List.Edits.{sets};
ghost use Rattle.text.specs.Numbers.{letter_of};
ghost use Rattle.text.specs.Rows.{fitting, numbers_of};
ghost use Rattle.text.specs.Words.{words_of};

use crate::{numbers, words};

// A letter's number: b n k a are decimal, to 255, 2048, 20000 and 2^64 - 1; h and x are hex, to FF and 16 digits.
#[tactic(auto, using(std::proofs::lemmas::Bool::Decides::nat_tests), unfolding(crate::specs::Numbers::letter_of))]
pub fn read_one(letter: u8, word: &[u8]) -> Option<u64>
    ensures { result ≡ letter_of letter word.now }
{
    match letter {
        b'b' => numbers::at_most(numbers::decimal(word), 255),
        b'n' => numbers::at_most(numbers::decimal(word), 2048),
        b'k' => numbers::at_most(numbers::decimal(word), 20000),
        b'a' => numbers::decimal(word),
        b'h' => numbers::at_most(numbers::hex(word), 255),
        _ => numbers::hex(word),
    }
}

// By an index, since nothing is known of an array's elements after its `get_mut`.
fn keep(values: &mut [u64; 16], i: usize, x: u64)
    ensures { i < 16 → values.new ≡ set values.old i x }
{
    if i < 16 {
        values[i] = x;
    }
}

// The words of a line as the letters say: a row only if there is a word for each letter and no word more. A row has room for 16.
pub fn read(line: &[u8], letters: &[u8]) -> Option<[u64; 16]>
    ensures right_value { is_some result ≡ fitting letters.now (words_of line.now) }
    ensures values_value { length letters.now ≤ 16 → IfSome result (λ values. values ≡ sets (replicate 16 0) 0 (numbers_of letters.now (words_of line.now))) }
{
    let mut values = [0u64; 16];
    let mut at: usize = 0;
    for (i, letter) in letters.iter().enumerate() {
        let word = words::next(line, at);
        let x = read_one(*letter, &line[word.from..word.to])?;
        keep(&mut values, i, x);
        at = word.to;
    }
    if words::none_left(line, at) {
        Some(values)
    } else {
        None
    }
}

// No word at all.
pub fn none(line: &[u8]) -> bool
    ensures { result ≡ fitting [] (words_of line.now) }
{
    words::none_left(line, 0)
}

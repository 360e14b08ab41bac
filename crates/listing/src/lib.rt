// What the program `list` prints of an image: the head and a line for each word, without the last newline. Document 01, figure 13.
#![tactic(auto)]

ghost use Rattle.std.specs.Prelude.{◌++◌};
ghost use Rattle.output.specs.Puts.{Puts};
ghost use Rattle.machine.specs.Refusals.{value_of};
ghost use Rattle.listing.specs.Lists as lists;

use image::Loaded;
use machine::{Refusal, Response, Syllable};

// ---- refusals

// A syllable's letter.
fn put_syllable(out: &mut [u8], at: usize, syllable: Syllable) -> usize
    ensures { Puts (lists.syllable_text (value_of syllable)) at out.old out.new result }
{
    match syllable {
        Syllable::A => output::put(out, at, b" A"),
        Syllable::B => output::put(out, at, b" B"),
        Syllable::P => output::put(out, at, b" P"),
    }
}

// "`refused K`, for number 3 `refused 3 word I`, for number 9 `refused 9 at I`"; "20, 21 and 22 name their syllable"
pub fn put_refusal(out: &mut [u8], why: Refusal) -> usize
    ensures { Puts (lists.refusal_text why) 0 out.old out.new result }
{
    let n = output::put_named(out, 0, b"refused ", machine::number_of(why));
    match why {
        Refusal::WordTooWide(word) => output::put_named(out, n, b" word ", word.0 as u64),
        Refusal::Malformed(place) => output::put_named(out, n, b" at ", place as u64),
        Refusal::EmptySyllable(syllable) => put_syllable(out, n, syllable),
        Refusal::BeyondWord(syllable) => put_syllable(out, n, syllable),
        Refusal::Overlap(syllable) => put_syllable(out, n, syllable),
        _ => n,
    }
}

// ---- the list

// A name and a response, or an 8-bit register: the place that knows how many digits it has.
pub fn put_response(out: &mut [u8], at: usize, name: &[u8], response: Response) -> usize
    ensures { Puts (name.now ++ lists.response_text response) at out.old out.new result }
{
    output::put_named2(out, at, name, response)
}

// "contents hex, 16 and 2 capital digits, other numbers decimal"
fn put_line(out: &mut [u8], at: usize, i: usize, word: u64, response: Response) -> usize
    ensures { Puts (lists.word_text i word response) at out.old out.new result }
{
    let number = output::put_named(out, at, b"\n", i as u64);
    let content = output::put_named16(out, number, b" ", word);
    put_response(out, content, b" ", response)
}

fn put_entry(out: &mut [u8], at: usize, i: usize, words: &[u64], responses: &[Response]) -> usize
    ensures { Puts (lists.entry_text i words.now responses.now) at out.old out.new result }
{
    match (words.get(i), responses.get(i)) {
        (Some(word), Some(response)) => put_line(out, at, i, *word, *response),
        _ => at,
    }
}

fn put_lines(out: &mut [u8], at: usize, words: &[u64], responses: &[Response], n: usize) -> usize
    ensures { Puts (lists.words_text n 0 words.now responses.now) at out.old out.new result }
{
    let mut end = at;
    for i in 0..n {
        end = put_entry(out, end, i, words, responses);
    }
    end
}

fn put_found(
    out: &mut [u8],
    found: Result<Loaded, Refusal>,
    words: &[u64],
    responses: &[Response],
) -> usize
    ensures { Puts (lists.found_text found words.now responses.now) 0 out.old out.new result }
{
    match found {
        Ok(loaded) => {
            let head = output::put_named(out, 0, b"words ", loaded.words as u64);
            let at = output::put_named(out, head, b" width ", u64::from(loaded.width));
            put_lines(out, at, words, responses, loaded.words)
        }
        Err(why) => put_refusal(out, why),
    }
}

pub fn put(out: &mut [u8], image: &[u8]) -> usize
    ensures { Puts (lists.list_text image.now) 0 out.old out.new result }
{
    let mut words = [0u64; 1024];
    let mut responses = [0u8; 1024];
    let found = image::reading::read(image, &mut words, &mut responses);
    put_found(out, found, &words, &responses)
}

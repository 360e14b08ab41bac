// Reading: checked "for 9 and 10"; it "changes only the first n of each destination".
// Document 01, 'The image' and 'Numbers given when a call is turned down'.
ghost use Rattle.std.specs.Prelude.{◌≡◌, ◌+◌, ◌*◌, ◌≤◌, length, drop};
ghost use Rattle.image_layout.specs.Sizes.{word_size};
ghost use Rattle.image_layout.specs.Reading.{numbers};
ghost use Rattle.image.specs.Calls.{refuse_bytes, read_check, read_of, words_read, responses_read};

use crate::Loaded;
use image_layout::{COUNT_SIZE, WORD_SIZE, WORDS_AT};
use image_parts::image_fields;
use machine::{Refusal, Response};

// 9: the place of the first field that is cut off or breaks a rule.
fn refuse_bytes(found: Result<(), usize>) -> Result<(), Refusal>
    ensures { result ≡ refuse_bytes found }
{
    found.map_err(|place| Refusal::Malformed(place))
}

#[tactic(auto, using(machine::proofs::Refusals::handed), unfolding(crate::specs::Calls::read_check))]
pub fn check_read(image: &[u8], words: usize, responses: usize) -> Result<(), Refusal>
    ensures { result ≡ read_check image.now words responses }
{
    refuse_bytes(image_fields::scan_image(image))?;
    let n = image_fields::words_in(image);
    machine::refuse(Refusal::NoRoom, (words < n) | (responses < n))
}

fn fill_words(image: &[u8], at: usize, words: &mut [u64])
    requires { at + word_size * length words.old ≤ length image.now }
    ensures { words.new ≡ numbers word_size (length words.old) (drop at image.now) }
{
    for (i, word) in words.iter_mut().enumerate() {
        *word = image_fields::number_at(image, at + WORD_SIZE * i, WORD_SIZE);
    }
}

#[tactic(auto, using(crate::proofs::ReadCalls::accepted))]
pub fn read(image: &[u8], words: &mut [u64], responses: &mut [Response]) -> Result<Loaded, Refusal>
    ensures value { result ≡ read_of image.now (length words.old) (length responses.old) }
    ensures words_after { words.new ≡ words_read image.now words.old responses.old }
    ensures responses_after { responses.new ≡ responses_read image.now words.old responses.old }
{
    check_read(image, words.len(), responses.len())?;
    let n = image_fields::words_in(image);
    let responses_at = image_layout::responses_at(n) + COUNT_SIZE;
    fill_words(image, WORDS_AT + COUNT_SIZE, &mut words[..n]);
    // Each is one byte: as they are.
    image_stores::put_bytes(responses, 0, &image[responses_at..responses_at + n]);
    Ok(Loaded {
        width: image_fields::width_in(image),
        words: n,
        held: image_fields::held_at(image, image_layout::jobs_at(n)),
    })
}

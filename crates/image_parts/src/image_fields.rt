// The image's fields, looked at one after the other: each is whole and right, or its place is answered.
// Document 01, 'The image' and number 9: "the offset of the first field, read in order, that is cut off or breaks a rule (a job is one
// field), or of the first byte too many".
ghost use Rattle.std.specs.Prelude.{◌≡◌, List, [], ◌++◌, ◌+◌, ◌*◌, ◌^◌, ◌<◌, ◌≤◌, length, take, drop, replicate, true, false, Ok, MatchResult};
ghost use Rattle.image_layout.specs.Sizes.{count_size, width_size, response_size, record_size, items_at, past_section, width_at, words_at, responses_at};
ghost use Rattle.image_layout.specs.Format.{number_at, byte, span_at, job_of, held_of};
ghost use Rattle.image_layout.specs.Reading.{Field, scan, count_is, word_count, width_byte, word_field, job_count, job_field, width_in, words_in, records, scanned};
ghost use Rattle.image_parts.specs.Parts.{holds, onward, job_fields, after_words};

use image_layout::{
    A_AT, B_AT, BITS_AT, CARE_AT, CONSTANT_AT, CONSTANT_SIZE, COUNT_SIZE, KEY_AT, KIND_AT,
    MOST_JOBS, P_AT, PLACE_AT, RECORD_SIZE, RESPONSE_SIZE, WIDTH_AT, WIDTH_SIZE, WORD_SIZE,
    WORDS_AT,
};
use job_plans::{Job, Span};
use machine::{BitSlice, Response, ResponseBit};

// ---- what bytes say

// The number that k bytes stand for, low byte first.
pub fn number_at(image: &[u8], at: usize, k: usize) -> u64
    requires { (at + k ≤ length image.now) × (k ≤ 8) }
    ensures { (result ≡ number_at k at image.now) × (result < 2 ^ (8 * k)) }
{
    let mut number = 0;
    for i in (0..k).rev() {
        number = number * 256 + u64::from(image[at + i]);
    }
    number
}

pub fn response_at(image: &[u8], at: usize) -> Response
    requires { at + response_size ≤ length image.now }
    ensures { result ≡ number_at response_size at image.now }
{
    number_at(image, at, RESPONSE_SIZE) as Response
}

pub fn width_in(image: &[u8]) -> u32
    requires { items_at width_at + width_size ≤ length image.now }
    ensures { result ≡ width_in image.now }
{
    number_at(image, WIDTH_AT + COUNT_SIZE, WIDTH_SIZE) as u32
}

pub fn words_in(image: &[u8]) -> usize
    requires { items_at words_at ≤ length image.now }
    ensures { result ≡ words_in image.now }
{
    number_at(image, WORDS_AT, COUNT_SIZE) as usize
}

// ---- a job's record, which begins at this place

fn byte_at(image: &[u8], at: usize, k: usize) -> u8
    requires { (at + record_size ≤ length image.now) × (k < record_size) }
    ensures { result ≡ byte (take record_size (drop at image.now)) k }
{
    image[at + k]
}

fn span_at(image: &[u8], at: usize, k: usize) -> Span
    requires { (at + record_size ≤ length image.now) × (k + 1 < record_size) }
    ensures { result ≡ span_at (take record_size (drop at image.now)) k }
{
    Span {
        low: BitSlice(byte_at(image, at, k)),
        width: byte_at(image, at, k + 1),
    }
}

// The job that a record says.
pub fn job_at(image: &[u8], at: usize) -> Job
    requires { at + record_size ≤ length image.now }
    ensures { result ≡ job_of (take record_size (drop at image.now)) }
{
    Job {
        kind: byte_at(image, at, KIND_AT),
        key: response_at(image, at + KEY_AT),
        care: response_at(image, at + CARE_AT),
        x: ResponseBit(byte_at(image, at, BITS_AT)),
        y: ResponseBit(byte_at(image, at, BITS_AT + 1)),
        a: span_at(image, at, A_AT),
        b: span_at(image, at, B_AT),
        p: span_at(image, at, P_AT),
        phase: byte_at(image, at, PLACE_AT),
        i: byte_at(image, at, PLACE_AT + 1),
        j: byte_at(image, at, PLACE_AT + 2),
        c: number_at(image, at + CONSTANT_AT, CONSTANT_SIZE),
    }
}

// The held job, from its count on.
pub fn held_at(image: &[u8], at: usize) -> Option<Job>
    requires { (items_at at ≤ length image.now) × (past_section at record_size (number_at count_size at image.now) ≤ length image.now) }
    ensures { result ≡ held_of (records (number_at count_size at image.now) (drop (items_at at) image.now)) }
{
    if number_at(image, at, COUNT_SIZE) == 0 {
        return None;
    }
    Some(job_at(image, at + COUNT_SIZE))
}

// ---- one field: whole and right

// A count that must be n.
fn count_is(image: &[u8], at: usize, n: usize) -> bool
    requires { at ≤ length image.now }
    ensures { result ≡ holds (count_is n) (drop at image.now) }
{
    COUNT_SIZE <= image.len() - at && number_at(image, at, COUNT_SIZE) == n as u64
}

fn width_right(image: &[u8]) -> bool
    requires { items_at width_at ≤ length image.now }
    ensures { result ≡ holds width_byte (drop (items_at width_at) image.now) }
{
    WIDTH_SIZE <= image.len() - (WIDTH_AT + COUNT_SIZE) && !machine::bad_width(width_in(image))
}

fn word_count_right(image: &[u8]) -> bool
    requires { words_at ≤ length image.now }
    ensures { result ≡ holds word_count (drop words_at image.now) }
{
    COUNT_SIZE <= image.len() - WORDS_AT && (1..=1024).contains(&words_in(image))
}

fn word_right(image: &[u8], at: usize, width: u32) -> bool
    requires { at ≤ length image.now }
    ensures { result ≡ holds (word_field width) (drop at image.now) }
{
    WORD_SIZE <= image.len() - at && !machine::too_wide(width, number_at(image, at, WORD_SIZE))
}

// "job, count 0 or 1"
fn job_count_right(image: &[u8], at: usize) -> bool
    requires { at ≤ length image.now }
    ensures { result ≡ holds job_count (drop at image.now) }
{
    COUNT_SIZE <= image.len() - at && number_at(image, at, COUNT_SIZE) <= MOST_JOBS
}

// "A place outside the job's table is malformed."
fn job_right(image: &[u8], at: usize, width: u32) -> bool
    requires { at ≤ length image.now }
    ensures { result ≡ holds (job_field width) (drop at image.now) }
{
    RECORD_SIZE <= image.len() - at && job_places::check_held(width, job_at(image, at)).is_ok()
}

// A field at this place: right, or told by its place.
fn judge(at: usize, right: bool) -> Result<(), usize>
    ensures { MatchResult result (λ fine. right ≡ true) (λ place. (right ≡ false) × (place ≡ at)) }
{
    if right { Ok(()) } else { Err(at) }
}

// ---- the fields in order

// After the last field: "the first byte too many".
fn scan_end(image: &[u8], at: usize) -> Result<(), usize>
    requires { at ≤ length image.now }
    ensures { result ≡ scan [] at (drop at image.now) }
{
    if at < image.len() { Err(at) } else { Ok(()) }
}

#[tactic(auto, using(crate::proofs::Parts::judged))]
fn scan_job(image: &[u8], at: usize, width: u32) -> Result<(), usize>
    requires { at ≤ length image.now }
    ensures { result ≡ scan (job_fields width at image.now) at (drop at image.now) }
{
    judge(at, job_count_right(image, at))?;
    let record = at + COUNT_SIZE;
    if number_at(image, at, COUNT_SIZE) == 0 {
        return scan_end(image, record);
    }
    judge(record, job_right(image, record, width))?;
    scan_end(image, record + RECORD_SIZE)
}

// Any bytes are a response: only their count and their end can be wrong.
#[tactic(auto, using(crate::proofs::Parts::judged))]
fn scan_responses(image: &[u8], width: u32, n: usize) -> Result<(), usize>
    requires { (responses_at n ≤ length image.now) × (n ≤ 1024) }
    ensures { result ≡ scan (after_words width n image.now) (responses_at n) (drop (responses_at n) image.now) }
{
    let at = image_layout::responses_at(n);
    judge(at, count_is(image, at, n))?;
    let left = image.len() - (at + COUNT_SIZE);
    judge(
        image.len() - left % RESPONSE_SIZE,
        RESPONSE_SIZE * n <= left,
    )?;
    scan_job(image, image_layout::jobs_at(n), width)
}

#[tactic(auto, using(crate::proofs::Parts::judged))]
fn scan_words(image: &[u8], width: u32, n: usize) -> Result<(), usize>
    requires { (items_at words_at ≤ length image.now) × (n ≤ 1024) }
    ensures { ((fs : List Field) → scan (replicate n (word_field width) ++ fs) (items_at words_at) (drop (items_at words_at) image.now) ≡ onward result (scan fs (responses_at n) (drop (responses_at n) image.now))) × (result ≡ Ok tt → responses_at n ≤ length image.now) }
{
    for i in 0..n {
        let at = WORDS_AT + COUNT_SIZE + WORD_SIZE * i;
        judge(at, word_right(image, at, width))?;
    }
    Ok(())
}

#[tactic(auto, using(crate::proofs::Parts::judged))]
pub fn scan_image(image: &[u8]) -> Result<(), usize>
    ensures { result ≡ scanned image.now }
{
    judge(WIDTH_AT, count_is(image, WIDTH_AT, 1))?;
    judge(WIDTH_AT + COUNT_SIZE, width_right(image))?;
    judge(WORDS_AT, word_count_right(image))?;
    let width = width_in(image);
    let n = words_in(image);
    scan_words(image, width, n)?;
    scan_responses(image, width, n)
}

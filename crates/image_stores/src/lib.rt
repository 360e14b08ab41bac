// The image's bytes, stored part after part: each function stores its own bytes and no other, and answers the next place.
// Document 01, 'The image'.
#![tactic(auto)]

ghost use Rattle.std.specs.Prelude.{◌≡◌, ◌+◌, ◌*◌, ◌≤◌, length};
ghost use Rattle.std.proofs.lemmas.List.Edits.{sets};
ghost use Rattle.machine.specs.Machine.{machine};
ghost use Rattle.image_layout.specs.Sizes.{word_size, response_size, record_size, past_section, responses_at};
ghost use Rattle.image_layout.specs.Format.{bytes, items, section, job_bytes, held_jobs};
ghost use Rattle.image_stores.specs.Stored.{machine_bytes};

use image_layout::{CONSTANT_SIZE, COUNT_SIZE, RESPONSE_SIZE, WIDTH_AT, WIDTH_SIZE, WORD_SIZE};
use job_plans::Job;
use machine::Response;

// k bytes of a number, low byte first.
pub fn put(out: &mut [u8], at: usize, k: usize, x: u64) -> usize
    requires { at + k ≤ length out.old }
    ensures { (result ≡ at + k) × (out.new ≡ sets out.old at (bytes k x)) }
{
    let mut rest = x;
    for j in 0..k {
        out[at + j] = (rest % 256) as u8;
        rest /= 256;
    }
    at + k
}

// "8 bytes each, low byte first"
fn put_words(out: &mut [u8], at: usize, words: &[u64]) -> usize
    requires { at + word_size * length words.now ≤ length out.old }
    ensures { (result ≡ at + word_size * length words.now) × (out.new ≡ sets out.old at (items (bytes word_size) words.now)) }
{
    let mut place = at;
    for word in words {
        place = put(out, place, WORD_SIZE, *word);
    }
    place
}

// Bytes as they are. They go over one by one: for a copy of all at once the archive for C would want `memmove` from outside.
pub fn put_bytes(out: &mut [u8], at: usize, list: &[u8]) -> usize
    requires { at + length list.now ≤ length out.old }
    ensures { (result ≡ at + length list.now) × (out.new ≡ sets out.old at list.now) }
{
    for i in 0..list.len() {
        out[at + i] = list[i];
    }
    at + list.len()
}

// The three sections before the job.
pub fn put_machine(out: &mut [u8], words: &[u64], responses: &[Response], width: u32) -> usize
    requires { past_section (responses_at (length words.now)) response_size (length responses.now) ≤ length out.old }
    ensures { (result ≡ past_section (responses_at (length words.now)) response_size (length responses.now)) × (out.new ≡ sets out.old 0 (machine_bytes (machine width words.now responses.now))) }
{
    let n = words.len();
    let m = responses.len();
    let p0 = put(out, WIDTH_AT, COUNT_SIZE, 1);
    let p1 = put(out, p0, WIDTH_SIZE, u64::from(width));
    let p2 = put(out, p1, COUNT_SIZE, n as u64);
    let p3 = put_words(out, p2, words);
    let p4 = put(out, p3, COUNT_SIZE, m as u64);
    put_bytes(out, p4, responses)
}

// "kind .., key, care, X, Y, lowest bit and width of A, B, P, phase, i, j, then c in 8 bytes, low first"
pub fn put_job(out: &mut [u8], at: usize, o: Job) -> usize
    requires { at + record_size ≤ length out.old }
    ensures { (result ≡ at + record_size) × (out.new ≡ sets out.old at (job_bytes o)) }
{
    let p0 = put_bytes(out, at, &[o.kind]);
    let p1 = put(out, p0, RESPONSE_SIZE, u64::from(o.key));
    let p2 = put(out, p1, RESPONSE_SIZE, u64::from(o.care));
    let small = [
        o.x.0, o.y.0, o.a.low.0, o.a.width, o.b.low.0, o.b.width, o.p.low.0, o.p.width, o.phase,
        o.i, o.j,
    ];
    let p3 = put_bytes(out, p2, &small);
    put(out, p3, CONSTANT_SIZE, o.c)
}

// "job, count 0 or 1"
pub fn put_held(out: &mut [u8], at: usize, held: Option<Job>) -> usize
    requires { past_section at record_size (length (held_jobs held)) ≤ length out.old }
    ensures { (result ≡ past_section at record_size (length (held_jobs held))) × (out.new ≡ sets out.old at (section job_bytes (held_jobs held))) }
{
    match held {
        None => put(out, at, COUNT_SIZE, 0),
        Some(o) => {
            let p = put(out, at, COUNT_SIZE, 1);
            put_job(out, p, o)
        }
    }
}

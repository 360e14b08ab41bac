// The image's layout: how many bytes each part has and where it stands, the bytes of a machine and its held job, and which
// bytes are an image. Sizes and definitions; the code is in `image_stores`, `image_parts` and `image`.
// Document 01: 'The image' and number 9.
#![tactic(auto)]

ghost use Rattle.std.specs.Prelude.{◌≡◌, ◌≤◌};
ghost use Rattle.image_layout.specs.Sizes.{responses_at, jobs_at, image_size, most_jobs};

// ---- how many bytes

pub const COUNT_SIZE: usize = 4;

pub const WIDTH_SIZE: usize = 1;

pub const WORD_SIZE: usize = 8;

pub const RESPONSE_SIZE: usize = 1;

pub const RECORD_SIZE: usize = 22;

// "job, count 0 or 1"
pub const MOST_JOBS: u64 = 1;

// ---- where each section stands, its count first

pub const WIDTH_AT: usize = 0;

pub const WORDS_AT: usize = WIDTH_AT + COUNT_SIZE + WIDTH_SIZE;

// By the number of words.
pub fn responses_at(n: usize) -> usize
    requires { n ≤ 1024 }
    ensures { result ≡ responses_at n }
{
    WORDS_AT + COUNT_SIZE + WORD_SIZE * n
}

pub fn jobs_at(n: usize) -> usize
    requires { n ≤ 1024 }
    ensures { result ≡ jobs_at n }
{
    responses_at(n) + COUNT_SIZE + RESPONSE_SIZE * n
}

// The whole image, by the number of words and of jobs.
pub fn image_size(n: usize, k: usize) -> usize
    requires { (n ≤ 1024) × (k ≤ most_jobs) }
    ensures { result ≡ image_size n k }
{
    jobs_at(n) + COUNT_SIZE + RECORD_SIZE * k
}

// The longest image: 1,024 words and as many jobs as can be held.
pub const LONGEST: usize = WORDS_AT
    + COUNT_SIZE
    + WORD_SIZE * 1024
    + COUNT_SIZE
    + RESPONSE_SIZE * 1024
    + COUNT_SIZE
    + RECORD_SIZE * MOST_JOBS as usize;

// ---- where the parts of a job's record stand in it

pub const KIND_AT: usize = 0;

pub const KEY_AT: usize = KIND_AT + 1;

pub const CARE_AT: usize = KEY_AT + RESPONSE_SIZE;

// X, then Y.
pub const BITS_AT: usize = CARE_AT + RESPONSE_SIZE;

pub const A_AT: usize = BITS_AT + 2;

pub const B_AT: usize = A_AT + 2;

pub const P_AT: usize = B_AT + 2;

// Phase, i, j.
pub const PLACE_AT: usize = P_AT + 2;

pub const CONSTANT_AT: usize = PLACE_AT + 3;

pub const CONSTANT_SIZE: usize = 8;

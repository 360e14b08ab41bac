// The sweeps over all words: loops with a constant number of word operations for each word, however many syllables there are.
// They know nothing of the machine; their contracts say which rule of specs/Rules each word and response takes, and how many words pass.
// Document 01, 'One pulse'. Words and response bits are read before they change: "All results are worked out from the machine before the pulse."
#![tactic(auto)]

mod word;

ghost use Rattle.std.specs.Prelude.{◌≡◌, ℕ, ◌+◌, ◌-◌, ◌<◌, ◌≤◌, min, true, false, length, slice_index};
ghost use Rattle.laws.specs.Lists.{count};
ghost use Rattle.sweeps.specs.Along.{along, each, many};
ghost use Rattle.sweeps.specs.Rules.{flag, chosen, hit, mark, found, answer, choice, gated, changed, takes, flipped};

use machine::Response;
use word::{choice_of, flag_of, flipped_of, hit_of, kept, put_in};
pub use word::{chosen_of, new_word};

// What a search works out of the panel once. In each syllable the word's cared bits, turned by a flip, are held against a limit; the carry out of
// the bits below a syllable's top decides with the top itself. `topcare` and `topflip` are care and flip at the tops of the syllables that ask
// for anything, `lowcare` and `lowflip` at the bits that are no top, `rest` is the limit at those, and `want` what all satisfied gives.
#[derive(Clone, Copy)]
pub struct Masks {
    pub topcare: u64,
    pub topflip: u64,
    pub lowcare: u64,
    pub lowflip: u64,
    pub rest: u64,
    pub limit: u64,
    pub want: u64,
}

// What selects, and what is marked.
#[derive(Clone, Copy)]
pub struct Tags {
    pub key: Response,
    pub care: Response,
    pub target: Response,
}

// What a write and an add work out of the panel once; `low` are the bits that are no syllable's top.
#[derive(Clone, Copy)]
pub struct Changes {
    pub comp: u64,
    pub mor: u64,
    pub addend: u64,
    pub rest: u64,
    pub low: u64,
    pub tops: u64,
}

// Search, first half of a block: a flag for each word.
fn flags(m: Masks, words: &[u64], h: &mut [u8; 64])
    requires { (length words.now ≤ 64) × (length h.old ≡ 64) }
    ensures { ((j : ℕ) → j < length words.now → slice_index h.new j ≡ flag m (slice_index words.now j)) × (length h.new ≡ 64) }
{
    for (i, word) in words.iter().enumerate() {
        h[i] = flag_of(m, *word);
    }
}

// Search, second half: the response bits of a block by its flags.
fn marks(p: Tags, h: &[u8; 64], responses: &mut [Response]) -> u8
    requires { (length responses.old ≤ 64) × (length h.now ≡ 64) }
    ensures value { result ≡ count (hit p) h.now responses.old }
    ensures responses_after { responses.new ≡ along (mark p) h.now responses.old }
{
    let mut n: u8 = 0;
    for (i, response) in responses.iter_mut().enumerate() {
        let r = *response;
        let x = hit_of(p, h[i], r);
        *response = put_in(p.target, x, r);
        // tried: `u8::from(x)`; a search then takes 1.01 to 1.02 of the time
        n += x as u8;
    }
    n
}

// The end of the block that starts at i: 64 words on, or n.
fn block_end(i: usize, n: usize) -> usize
    requires { i < n }
    ensures { (i < result) × (result ≤ n) × (result ≤ i + 64) }
{
    if 64 < n - i { i + 64 } else { n }
}

// Search alone.
pub fn search(m: Masks, p: Tags, words: &[u64], responses: &mut [Response]) -> usize
    ensures value { result ≡ count (found m p) words.now responses.old }
    ensures responses_after { responses.new ≡ along (answer m p) words.now responses.old }
{
    let mut n: usize = 0;
    let mut h: [u8; 64] = [0; 64];
    let all = words.len().min(responses.len());
    let mut i: usize = 0;
    // tried: `step_by(64)`; the end of a block is worked out all the same, and the proof then has two ends of the loop
    while i < all {
        let e = block_end(i, all);
        flags(m, &words[i..e], &mut h);
        n += usize::from(marks(p, &h, &mut responses[i..e]));
        i = e;
    }
    n
}

// Complement.
pub fn flip(p: Tags, responses: &mut [Response])
    ensures { responses.new ≡ each (flipped p) responses.old }
{
    for response in responses.iter_mut() {
        *response = flipped_of(p, *response);
    }
}

// A change of words, first half of a block: which words are chosen, and how many.
fn choices(p: Tags, responses: &[Response], g: &mut [u8; 64]) -> u8
    requires { (length responses.now ≤ 64) × (length g.old ≡ 64) }
    ensures value { result ≡ many (chosen p) responses.now }
    ensures by_index { ((j : ℕ) → j < length responses.now → slice_index g.new j ≡ choice p (slice_index responses.now j)) × (length g.new ≡ 64) }
{
    let mut n: u8 = 0;
    for (i, response) in responses.iter().enumerate() {
        let x = choice_of(p, *response);
        g[i] = x;
        n += x;
    }
    n
}

// Second half: multiwrite, multiadd or both.
fn multi<const WRITE: bool, const ADD: bool>(q: Changes, g: &[u8; 64], words: &mut [u64])
    requires { (length words.old ≤ 64) × (length g.now ≡ 64) }
    ensures { words.new ≡ along (gated WRITE ADD q) g.now words.old }
{
    for (i, word) in words.iter_mut().enumerate() {
        let w = *word;
        *word = kept(g[i] == 1, new_word(q, WRITE, ADD, w), w);
    }
}

fn change_block(q: Changes, write: bool, add: bool, g: &[u8; 64], words: &mut [u64])
    requires { (length words.old ≤ 64) × (length g.now ≡ 64) }
    ensures { words.new ≡ along (gated write add q) g.now words.old }
{
    match (write, add) {
        (false, false) => {}
        (false, true) => multi::<false, true>(q, g, words),
        (true, false) => multi::<true, false>(q, g, words),
        (true, true) => multi::<true, true>(q, g, words),
    }
}

// Every chosen word written or not, added to or not; and how many are chosen.
pub fn change(
    q: Changes,
    p: Tags,
    write: bool,
    add: bool,
    words: &mut [u64],
    responses: &[Response],
) -> usize
    ensures value { result ≡ count (takes p) responses.now words.old }
    ensures words_after { words.new ≡ along (changed write add q p) responses.now words.old }
{
    let mut n: usize = 0;
    let mut g: [u8; 64] = [0; 64];
    let all = words.len().min(responses.len());
    let mut i: usize = 0;
    // tried: `step_by(64)`; the end of a block is worked out all the same, and the proof then has two ends of the loop
    while i < all {
        let e = block_end(i, all);
        n += usize::from(choices(p, &responses[i..e], &mut g));
        change_block(q, write, add, &g, &mut words[i..e]);
        i = e;
    }
    n
}

// Search together with a change of words: a block's flags and choices first, from its words and response bits as they stood, then its words, then
// its response bits.
pub fn search_change(
    m: Masks,
    q: Changes,
    p: Tags,
    write: bool,
    add: bool,
    words: &mut [u64],
    responses: &mut [Response],
) -> usize
    ensures value { result ≡ count (found m p) words.old responses.old }
    ensures words_after { words.new ≡ along (changed write add q p) responses.old words.old }
    ensures responses_after { responses.new ≡ along (answer m p) words.old responses.old }
{
    let mut n: usize = 0;
    let mut h: [u8; 64] = [0; 64];
    let mut g: [u8; 64] = [0; 64];
    let all = words.len().min(responses.len());
    let mut i: usize = 0;
    // tried: `step_by(64)`; the end of a block is worked out all the same, and the proof then has two ends of the loop
    while i < all {
        let e = block_end(i, all);
        flags(m, &words[i..e], &mut h);
        choices(p, &responses[i..e], &mut g);
        change_block(q, write, add, &g, &mut words[i..e]);
        n += usize::from(marks(p, &h, &mut responses[i..e]));
        i = e;
    }
    n
}

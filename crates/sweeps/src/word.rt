// What a sweep does to one word and its response, rule by rule of specs/Rules.
#![tactic(auto, unfolding(crate::specs::Rules::test, crate::specs::Rules::flag, crate::specs::Rules::chosen, crate::specs::Rules::hit, crate::specs::Rules::written, crate::specs::Rules::summed, crate::specs::Rules::asked, crate::specs::Rules::both, crate::specs::Rules::new, crate::specs::Rules::choice, crate::specs::Rules::flipped))]

ghost use Rattle.std.specs.Prelude.{◌≡◌, ◌-◌};
ghost use Rattle.laws.specs.Bits.{pick};
ghost use Rattle.sweeps.specs.Rules.{test, flag, chosen, hit, put, written, summed, asked, both, new, choice, flipped};

use crate::{Changes, Masks, Tags};
use machine::Response;

pub(crate) fn test_of(m: Masks, w: u64) -> u64
    ensures { result ≡ test m w }
{
    let low = m.rest.wrapping_add((w & m.lowcare) ^ m.lowflip);
    ((w & m.topcare) ^ m.topflip) & (low ^ m.limit)
}

pub(crate) fn flag_of(m: Masks, w: u64) -> u8
    ensures { result ≡ flag m w }
{
    u8::from(test_of(m, w) == m.want)
}

pub fn chosen_of(p: Tags, r: Response) -> bool
    ensures { result ≡ chosen p r }
{
    (r & p.care) == (p.key & p.care)
}

pub(crate) fn choice_of(p: Tags, r: Response) -> u8
    ensures { result ≡ choice p r }
{
    u8::from(chosen_of(p, r))
}

pub(crate) fn hit_of(p: Tags, x: u8, r: Response) -> bool
    ensures { result ≡ hit p x r }
{
    (x == 1) & chosen_of(p, r)
}

pub(crate) fn put_in(target: Response, h: bool, r: Response) -> Response
    ensures { result ≡ put target h r }
{
    if h { r | target } else { r & !target }
}

pub(crate) fn written_of(q: Changes, w: u64) -> u64
    ensures { result ≡ written q w }
{
    w ^ ((w ^ q.comp) & q.mor)
}

// "a 64-bit syllable at 2^64-1 plus 1 gives 0"
pub(crate) fn summed_of(q: Changes, w: u64) -> u64
    ensures { result ≡ summed q w }
{
    let low = (w & q.low).wrapping_add(q.rest);
    low ^ ((w ^ q.addend) & q.tops)
}

// The sum against the word, bit by bit: in fewer operations than by the sum itself.
pub(crate) fn asked_of(q: Changes, w: u64) -> u64
    ensures { result ≡ asked q w }
{
    let low = w & q.low;
    low.wrapping_add(q.rest) ^ low ^ (q.addend & q.tops)
}

// "a bit flips if either asks"
pub(crate) fn both_of(q: Changes, w: u64) -> u64
    ensures { result ≡ both q w }
{
    w ^ ((w ^ written_of(q, w)) | asked_of(q, w))
}

pub(crate) fn kept(h: bool, x: u64, y: u64) -> u64
    ensures { result ≡ pick h x y }
{
    if h { x } else { y }
}

pub(crate) fn flipped_of(p: Tags, r: Response) -> Response
    ensures { result ≡ flipped p r }
{
    if chosen_of(p, r) { r ^ p.target } else { r }
}

pub fn new_word(q: Changes, write: bool, add: bool, w: u64) -> u64
    ensures { result ≡ new write add q w }
{
    match (write, add) {
        (false, false) => w,
        (false, true) => summed_of(q, w),
        (true, false) => written_of(q, w),
        (true, true) => both_of(q, w),
    }
}

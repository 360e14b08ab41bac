// What a pulse works out of the panel once, by whole words: masks, tags and changes for the sweeps.
// Document 01, 'One pulse', and document 02, request c; that they do what these say is the law proofs/Plan.
#![tactic(auto)]

ghost use Rattle.std.specs.Prelude.{◌≡◌, ◌^◌, ◌<◌, ◌≤◌};
ghost use Rattle.fields.specs.Fields.{fields, add_in, above_in};
ghost use Rattle.fields.specs.Tops.{tops_of, Topped};
ghost use Rattle.fields.specs.Codes.{clash};
ghost use Rattle.masks.specs.Plan.{Fit, masks_of, tags_of, changes_of};

use machine::Panel;
use sweeps::{Changes, Masks, Tags};

// ---- whole words, all syllables at once

// The top bit of each syllable: "Bit N-1 always starts a syllable (house)."
pub fn tops_of(width: u32, sdr: u64) -> u64
    requires { (0 < width) × (width ≤ 64) }
    ensures { result ≡ tops_of width sdr }
{
    sdr | (1u64 << (width - 1))
}

// Each syllable of w plus that of a, modulo 2 to its width.
fn add_word(width: u32, t: u64, w: u64, a: u64) -> u64
    requires { (0 < width) × (width ≤ 64) }
    ensures { result ≡ add_in (fields width t) w a 0 }
{
    let low = (w & !t).wrapping_add(a & !t);
    (low ^ ((w ^ a) & t)) & machine::low_bits(width)
}

// A one at the top of each syllable that is not 0.
pub fn filled(width: u32, t: u64, q: u64) -> u64
    requires topped { Topped width t }
    requires q_bound { q < 2 ^ width }
    ensures { result ≡ above_in (fields width t) q 0 0 }
{
    let u = machine::low_bits(width);
    let low = (q & !t).wrapping_add(u & !t);
    ((q & u) | ((q | u) & low)) & t
}

// A one at the top of each syllable in which both numbers have ones, and not the same.
pub fn mixed(width: u32, t: u64, x: u64, y: u64) -> u64
    requires topped { Topped width t }
    requires x_bound { (x < 2 ^ width) × (y < 2 ^ width) }
    ensures { result ≡ clash (fields width t) x y }
{
    filled(width, t, x) & filled(width, t, y) & filled(width, t, x ^ y)
}

// ---- what a pulse works out of the panel once

#[tactic(auto, unfolding(crate::specs::Plan::tags_of))]
pub fn make_tags(panel: Panel) -> Tags
    ensures { result ≡ tags_of panel }
{
    Tags {
        key: panel.key,
        care: panel.care,
        target: panel.target,
    }
}

// At least is not smaller, at most is not larger: under SC3 the two codes are swapped, and at the top the contrary is wanted.
pub fn make_masks(width: u32, panel: Panel) -> Masks
    requires { Fit width panel }
    ensures { result ≡ masks_of width panel }
{
    let t = tops_of(width, panel.sdr);
    let mask = machine::low_bits(width);
    let care = panel.sc1 | panel.sc2;
    let second = panel.sc2 ^ panel.sc3;
    let smaller = panel.sc1 & second;
    let exact = second ^ smaller;
    let larger = panel.sc1 ^ smaller;
    let less = add_word(width, t, exact, mask);
    let need = filled(width, t, care);
    let contrary = filled(width, t, panel.sc3);
    let limit = (exact ^ (exact & less)) ^ ((panel.comp & panel.sc1) ^ larger);
    let flip = mask ^ (larger ^ (panel.comp & exact));
    Masks {
        topcare: care & need,
        topflip: (flip ^ limit) & need,
        lowcare: care & !t,
        lowflip: flip & !t,
        rest: limit & !t,
        limit,
        want: (need & !limit) ^ contrary,
    }
}

#[tactic(auto, unfolding(crate::specs::Plan::changes_of))]
pub fn make_changes(width: u32, panel: Panel) -> Changes
    requires { Fit width panel }
    ensures { result ≡ changes_of width panel }
{
    let t = tops_of(width, panel.sdr);
    let addend = panel.comp & panel.mor;
    Changes {
        comp: panel.comp,
        mor: panel.mor,
        addend,
        rest: addend & !t,
        low: !t,
        tops: t,
    }
}

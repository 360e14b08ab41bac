// The syllables of a word: the bits that start one, and the bits of each.
ghost use Rattle.std.specs.Prelude.{◌≡◌, ◌+◌, ◌≤◌, ◌<◌};
ghost use Rattle.machine.specs.Machine.{is_top, bottom, down_from};
ghost use Rattle.chains.specs.Walks.{syllable};

use crate::bits::bit_of;

// From bit `low` up, `width` bits.
#[derive(Clone, Copy)]
pub struct Syllable {
    pub low: u32,
    pub width: u32,
    pub ghost within: { low + width ≤ 64 },
}

pub fn is_top(n: u32, sdr: u64, i: u32) -> bool
    requires { i < 64 }
    ensures { result ≡ is_top n sdr i }
{
    (bit_of(sdr, i) == 1) | (i + 1 == n)
}

// The lowest bit of the syllable whose top bit is bit i.
fn bottom_of(sdr: u64, i: u32) -> u32
    requires { i < 64 }
    ensures { (result ≡ bottom sdr i) × (result ≤ i) }
{
    for below in (0..i).rev() {
        if bit_of(sdr, below) == 1 {
            return below + 1;
        }
    }
    0
}

// The syllable whose top bit is bit i.
pub fn down_from(sdr: u64, i: u32) -> Syllable
    requires { i < 64 }
    ensures { (syllable result.low result.width ≡ down_from sdr i) × (result.low ≤ i) }
{
    let low = bottom_of(sdr, i);
    Syllable {
        low,
        width: i + 1 - low,
    }
}

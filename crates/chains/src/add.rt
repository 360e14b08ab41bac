// Write and add, cell by cell.
ghost use Rattle.std.specs.Prelude.{◌≡◌, ◌+◌, ◌*◌, ◌^◌, ◌≤◌, ◌<◌};
ghost use Rattle.laws.specs.Bits.{number};
ghost use Rattle.machine.specs.Pulse.{written, addend, added, change};
ghost use Rattle.chains.specs.Walks.{syllable, kept, kept_at};

use crate::bits::{at_place, bit_of, merge};
use crate::syllables::{Syllable, down_from, is_top};
use machine::Panel;

// COMP's bit under a one of MOR, 0 elsewhere.
fn addend_at(panel: Panel, i: u32) -> u64
    requires { i < 64 }
    ensures { (result ≡ addend panel i) × (result ≤ 1) }
{
    if bit_of(panel.mor, i) == 1 {
        bit_of(panel.comp, i)
    } else {
        0
    }
}

// A syllable's cells from bottom to top: each keeps the sum's low bit and passes its carry on.
fn add_cells(panel: Panel, w: u64, y: Syllable) -> u64
    ensures { (result ≡ kept panel w (syllable y.low y.width)) × (result < 2 ^ y.width) }
{
    let mut sum: u64 = 0;
    let mut carry: u64 = 0;
    for j in 0..y.width {
        let i = y.low + j;
        let t = bit_of(w, i) + addend_at(panel, i) + carry;
        sum += at_place(t % 2, j);
        carry = t / 2;
    }
    sum
}

// At bit i: the sum of the syllable that it starts, at its place, or 0 where it starts none.
fn add_at(n: u32, panel: Panel, w: u64, i: u32) -> u64
    requires { i < 64 }
    ensures { result ≡ kept_at n panel w i }
{
    if is_top(n, panel.sdr, i) {
        let y = down_from(panel.sdr, i);
        add_cells(panel, w, y) << y.low
    } else {
        0
    }
}

fn add_word(n: u32, panel: Panel, w: u64) -> u64
    requires { n ≤ 64 }
    ensures { result ≡ added n panel w }
{
    let mut word: u64 = 0;
    for i in 0..n {
        word += add_at(n, panel, w, i);
    }
    word
}

// A word that is neither written nor added to, written, added to, or both.
pub fn change_word(n: u32, panel: Panel, write: bool, add: bool, w: u64) -> u64
    requires { n ≤ 64 }
    ensures { result ≡ change n write add w (written n panel w) (added n panel w) }
{
    let wrote = merge(n, panel.mor, panel.comp, w);
    let sum = add_word(n, panel, w);
    match (write, add) {
        (false, false) => w,
        (false, true) => sum,
        (true, false) => wrote,
        // where the write asks to flip the bit is the write's, and elsewhere it flips if the add asks
        (true, true) => merge(n, wrote ^ w, wrote, sum),
    }
}

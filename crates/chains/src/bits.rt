// One cell's bit, and a word put together from the bits of its cells.
ghost use Rattle.std.specs.Prelude.{◌≡◌, ◌+◌, ◌*◌, ◌^◌, ◌≤◌, ◌<◌};
ghost use Rattle.laws.specs.Bits.{bit, number, under};

pub fn bit_of(x: u64, i: u32) -> u64
    requires { i < 64 }
    ensures { (result ≡ bit x i) × (result ≤ 1) }
{
    (x >> i) % 2
}

// A bit at its place.
pub fn at_place(b: u64, i: u32) -> u64
    requires { (b ≤ 1) × (i < 64) }
    ensures { result ≡ b * 2 ^ i }
{
    b << i
}

// One cell of a merge.
fn merged_bit(mask: u64, x: u64, y: u64, i: u32) -> u64
    requires { i < 64 }
    ensures { (result ≡ under mask (bit x) (bit y) i) × (result ≤ 1) }
{
    if bit_of(mask, i) == 1 {
        bit_of(x, i)
    } else {
        bit_of(y, i)
    }
}

// Cell by cell: x's bit under a one of the mask, y's elsewhere.
pub fn merge(n: u32, mask: u64, x: u64, y: u64) -> u64
    requires { n ≤ 64 }
    ensures { (result ≡ number n (under mask (bit x) (bit y))) × (result < 2 ^ n) }
{
    let mut word: u64 = 0;
    for i in 0..n {
        word += at_place(merged_bit(mask, x, y, i), i);
    }
    word
}

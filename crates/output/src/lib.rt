// The bytes of an answer of the board's console, put one after the other into a lent buffer and written at once. Each call takes how many bytes are used and
// answers how many are used then; what no longer fits is left out, and the caller lends enough for its longest answer.
#![tactic(auto)]

ghost use Rattle.std.specs.Prelude.{◌≡◌, ◌++◌, ◌+◌, ◌<◌, ◌≤◌, length, set, take, OnOk};
ghost use Rattle.std.proofs.lemmas.List.Edits.{sets};
ghost use Rattle.output.specs.Digits.{capital, pair, hex_digits, decimal_digits};
ghost use Rattle.output.specs.Puts.{Puts};
ghost use Rattle.std.specs.Io.KnownBytes.{Appends};

use std::io;
use std::io::Write;

pub fn put_byte(out: &mut [u8], at: usize, byte: u8) -> usize
    ensures { at < length out.old → (result ≡ at + 1) × (out.new ≡ set out.old at byte) }
{
    if at < out.len() {
        out[at] = byte;
        return at + 1;
    }
    at
}

pub fn put(out: &mut [u8], at: usize, s: &[u8]) -> usize
    ensures { Puts s.now at out.old out.new result }
{
    let mut n = at;
    for byte in s {
        n = put_byte(out, n, *byte);
    }
    n
}

// "Other numbers are printed in decimal": at most 20 digits, as many as a number below 2^64 can have.
fn put_decimal(out: &mut [u8], at: usize, x: u64) -> usize
    ensures { Puts (decimal_digits 20 x) at out.old out.new result }
{
    let last = b'0' + (x % 10) as u8;
    if x < 10 {
        return put_byte(out, at, last);
    }
    let n = put_decimal(out, at, x / 10);
    put_byte(out, n, last)
}

// "Contents are printed in hex with capital digits."
#[tactic(auto, using(std::proofs::lemmas::Bool::Decides::nat_tests), unfolding(crate::specs::Digits::capital))]
fn hex_digit(x: u64) -> u8
    ensures { result ≡ capital x }
{
    match (x % 16) as u8 {
        d @ 0..=9 => b'0' + d,
        d => b'A' - 10 + d,
    }
}

// So many digits in hex, the highest first: "16 of them for a word or an N-bit register", "2 for a response or an 8-bit register". Of
// a larger number they are its last ones.
fn put_hex(out: &mut [u8], at: usize, x: u64, digits: u32) -> usize
    requires { digits ≤ 16 }
    ensures { Puts (hex_digits digits x) at out.old out.new result }
{
    let mut n = at;
    for left in (0..digits).rev() {
        n = put_byte(out, n, hex_digit(x >> (4 * left)));
    }
    n
}

// ---- a name and what follows it: three functions of two calls each, for one that takes what follows would first have to be told
// whether that is a number in decimal or how many hex digits

// A name and a number in decimal.
pub fn put_named(out: &mut [u8], at: usize, name: &[u8], x: u64) -> usize
    ensures { Puts (name.now ++ decimal_digits 20 x) at out.old out.new result }
{
    let n = put(out, at, name);
    put_decimal(out, n, x)
}

// A name and an N-bit register or word.
pub fn put_named16(out: &mut [u8], at: usize, name: &[u8], x: u64) -> usize
    ensures { Puts (name.now ++ hex_digits 16 x) at out.old out.new result }
{
    let n = put(out, at, name);
    put_hex(out, n, x, 16)
}

// A byte of an image.
pub fn put_pair(out: &mut [u8], at: usize, x: u8) -> usize
    ensures { Puts (pair x) at out.old out.new result }
{
    put_hex(out, at, u64::from(x), 2)
}

// A name and an 8-bit register, or a response.
pub fn put_named2(out: &mut [u8], at: usize, name: &[u8], x: u8) -> usize
    ensures { Puts (name.now ++ pair x) at out.old out.new result }
{
    let n = put(out, at, name);
    put_pair(out, n, x)
}

// ---- the whole answer

// Writes the first `n` bytes.
pub fn write<W: Write>(to: &mut W, out: &[u8], n: usize) -> io::Result<()>
    ensures { OnOk result (n ≤ length out.now → Appends (W.contents to.old) (W.contents to.new) (take n out.now)) }
{
    if n <= out.len() {
        to.write_all(&out[0..n])?;
    }
    Ok(())
}

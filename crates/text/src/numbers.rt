// Numbers as a line writes them: "HEX is 1 to 16 digits, either case"; "every other number is decimal digits with no sign; leading
// zeros are taken". A number of 2^64 or more is a bad one, and none. Also an image's bytes, each a pair of hex digits.
ghost use Rattle.std.specs.Prelude.{◌≡◌, ◌+◌, ◌*◌, ◌<◌, ◌≤◌, ◌%◌, ◌&&◌, ltb, length, take, Option, Some, None, MatchOption};
ghost use Rattle.std.proofs.lemmas.List.Edits.{sets};
ghost use Rattle.laws.specs.Bits.{pick};
ghost use Rattle.text.specs.Numbers.{digit_of, number_of, decimal_of, hex_of, at_most, pairs, bytes_of};

// What a byte stands for as a digit of either case.
#[tactic(auto, using(std::proofs::lemmas::Bool::Decides::nat_tests), unfolding(crate::specs::Numbers::digit_of))]
fn digit(byte: u8) -> Option<u64>
    ensures { MatchOption result (16 ≤ digit_of byte) (λ d. (d ≡ digit_of byte) × (d < 16)) }
{
    match byte {
        b'0'..=b'9' => Some(u64::from(byte - b'0')),
        b'A'..=b'F' => Some(u64::from(byte - b'A' + 10)),
        b'a'..=b'f' => Some(u64::from(byte - b'a' + 10)),
        _ => None,
    }
}

// A number by its digits to this base, of which there is at least one.
fn number(s: &[u8], base: u64) -> Option<u64>
    requires { (2 ≤ base) × (base ≤ 16) }
    ensures { result ≡ number_of base s.now }
{
    if s.is_empty() {
        return None;
    }
    let mut value: u64 = 0;
    for byte in s {
        let d = digit(*byte)?;
        if base <= d {
            return None;
        }
        if (u64::MAX - d) / base < value {
            return None;
        }
        value = value * base + d;
    }
    Some(value)
}

pub fn decimal(s: &[u8]) -> Option<u64>
    ensures { result ≡ decimal_of s.now }
{
    number(s, 10)
}

// "so 17 digits are a bad line even with leading zeros"
pub(crate) fn hex(s: &[u8]) -> Option<u64>
    ensures { result ≡ hex_of s.now }
{
    if 16 < s.len() {
        return None;
    }
    number(s, 16)
}

// A number outside its range is a bad one.
#[tactic(auto, using(std::proofs::lemmas::Bool::Decides::nat_tests), unfolding(crate::specs::Numbers::at_most))]
pub(crate) fn at_most(x: Option<u64>, most: u64) -> Option<u64>
    ensures { result ≡ at_most most x }
{
    x.filter(|value| *value <= most)
}

// The low 8 bits: the number itself where it was read as one to 255.
pub fn byte(x: u64) -> u8
    ensures { result ≡ x % 256 }
{
    (x % 256) as u8
}

// The byte that two digits stand for.
fn pair(high: u8, low: u8) -> Option<u64>
    ensures { result ≡ pick (ltb (digit_of high) 16 && ltb (digit_of low) 16) (Some (digit_of high * 16 + digit_of low)) None }
{
    Some(digit(high)? * 16 + digit(low)?)
}

// An image's digit pairs as bytes, from the start of `out`: how many; none where a digit is none or has no partner, or `out` has no room.
pub fn bytes(s: &[u8], out: &mut [u8]) -> Option<u64>
    ensures value { result ≡ bytes_of (length out.old) s.now }
    ensures out_after { out.new ≡ sets out.old 0 (take (length out.old) (pairs s.now)) }
{
    let mut i: usize = 0;
    let mut n: usize = 0;
    // two at a time by a count, since a proof does not learn the length of a slice that shrinks from turn to turn
    while i < s.len() {
        if s.len() - i < 2 {
            return None;
        }
        if out.len() <= n {
            return None;
        }
        let value = pair(s[i], s[i + 1])?;
        out[n] = byte(value);
        n += 1;
        i += 2;
    }
    Some(n as u64)
}

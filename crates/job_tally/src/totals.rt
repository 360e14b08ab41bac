// Document 01, 'Jobs': the number of pulses a job takes, told while it stands at its first place.
ghost use Rattle.std.specs.Prelude.{◌≡◌, true, false, ℕ, ◌+◌, ◌-◌, ◌*◌, ◌^◌, ◌≤◌, ◌<◌, min, max, ltb, length};
ghost use Rattle.laws.specs.Bits.{pick, digit};
ghost use Rattle.machine.specs.Machine.{machine, selected};
ghost use Rattle.job_tally.specs.Totals.{sum_below, ones, zeros, value_of, values, greatest_of, smallest_of, pulses, is_first, total_check, total_of};

use job_places::{check_step, is_at_first};
use job_plans::{Job, Kind, Span};
use machine::{Refusal, Response, is_selected, low_bits, refuse};

// ---- extremes: "the number of ones in the greatest syllable (of zeros in the smallest)"

// A syllable of a word, as a number.
fn value_of(s: Span, w: u64) -> u64
    requires { (0 < s.width) × (s.low.0 + s.width ≤ 64) }
    ensures { result ≡ value_of s w }
{
    (w >> s.low.0) & low_bits(u32::from(s.width))
}

fn further(small: bool, x: u64, y: u64) -> u64
    ensures { result ≡ pick small (min x y) (max x y) }
{
    if small { x.min(y) } else { x.max(y) }
}

// The extreme so far, with one word more.
fn with_word(o: Job, small: bool, best: u64, w: u64, r: Response) -> u64
    requires { (0 < o.a.width) × (o.a.low.0 + o.a.width ≤ 64) }
    ensures { result ≡ pick (selected o.key o.care r) (pick small (min best (value_of o.a w)) (max best (value_of o.a w))) best }
{
    if is_selected(o.key, o.care, r) {
        further(small, best, value_of(o.a, w))
    } else {
        best
    }
}

// The smallest or the greatest of A's values in the words that the criterion selects; where there is none, all ones or 0.
// By an index: a `zip` of the two takes half as much again.
fn extreme_of(words: &[u64], responses: &[Response], o: Job, small: bool, none: u64) -> u64
    requires width_nonzero { (0 < o.a.width) × (o.a.low.0 + o.a.width ≤ 64) }
    requires none_value { none ≡ pick small (2 ^ o.a.width - 1) 0 }
    ensures { (result ≡ pick small (smallest_of (2 ^ o.a.width - 1) (values o words.now responses.now)) (greatest_of (values o words.now responses.now))) × (result < 2 ^ o.a.width) }
{
    let mut best = none;
    let n = words.len().min(responses.len());
    for k in 0..n {
        best = with_word(o, small, best, words[k], responses[k]);
    }
    best
}

fn greatest_pulses(words: &[u64], responses: &[Response], o: Job) -> u64
    requires width_nonzero { (0 < o.a.width) × (o.a.low.0 + o.a.width ≤ 64) }
    ensures { result ≡ 1 + o.a.width + ones o.a.width (greatest_of (values o words.now responses.now)) }
{
    let greatest = extreme_of(words, responses, o, false, 0);
    1 + u64::from(o.a.width) + u64::from(greatest.count_ones())
}

// Not one function with the greatest: ones and zeros are counted of it, and every line would ask which.
fn smallest_pulses(words: &[u64], responses: &[Response], o: Job) -> u64
    requires width_nonzero { (0 < o.a.width) × (o.a.low.0 + o.a.width ≤ 64) }
    ensures { result ≡ 1 + o.a.width + zeros o.a.width (smallest_of (2 ^ o.a.width - 1) (values o words.now responses.now)) }
{
    let all = low_bits(u32::from(o.a.width));
    let smallest = extreme_of(words, responses, o, true, all);
    1 + u64::from(o.a.width) + u64::from((all - smallest).count_ones())
}

// ---- product: "twice the number of pairs with i+j below p"

// How many j below b have i+j below p.
fn pairs_at(i: u8, b: u8, p: u8) -> u64
    ensures { (result ≡ sum_below b (λ (j : ℕ). digit (ltb (i + j) p))) × (result < 256) }
{
    u64::from(b.min(p.saturating_sub(i)))
}

fn pairs_of(a: u8, b: u8, p: u8) -> u64
    ensures { (result ≡ sum_below a (λ (i : ℕ). sum_below b (λ (j : ℕ). digit (ltb (i + j) p)))) × (result ≤ 65536) }
{
    let mut pairs: u64 = 0;
    for i in 0..a {
        pairs += pairs_at(i, b, p);
    }
    pairs
}

// ---- every kind, whatever the machine's width

#[tactic(auto, using(crate::proofs::Sums::any_ones, crate::proofs::Sums::any_zeros), unfolding(crate::specs::Totals::pulses))]
fn pulses_of(words: &[u64], responses: &[Response], o: Job) -> u64
    requires width_nonzero { (0 < o.a.width) × (o.a.low.0 + o.a.width ≤ 64) }
    ensures { (n : ℕ) → result ≡ pulses (machine n words.now responses.now) o }
{
    match Kind::try_from(o.kind) {
        Ok(Kind::Greatest) => greatest_pulses(words, responses, o),
        Ok(Kind::Smallest) => smallest_pulses(words, responses, o),
        Ok(Kind::ScaledAdd) => 2 * u64::from(o.a.width.min(o.p.width)),
        Ok(Kind::Product) => 2 * pairs_of(o.a.width, o.b.width, o.p.width),
        Err(_) => 0,
    }
}

// ---- the call

fn is_first(held: Option<Job>) -> bool
    ensures { result ≡ is_first held }
{
    held.is_some_and(|o| is_at_first(o))
}

#[tactic(auto, using(machine::proofs::Refusals::handed), unfolding(crate::specs::Totals::total_check))]
pub fn check_total(
    words: &[u64],
    responses: &[Response],
    width: u32,
    held: Option<Job>,
) -> Result<(), Refusal>
    ensures { result ≡ total_check (machine width words.now responses.now) held }
{
    check_step(words, responses, width, held)?;
    refuse(Refusal::WrongJob, !is_first(held))
}

// Refused as a step is, and with 25 where the job does not stand at its first place.
#[tactic(auto, using(machine::proofs::Refusals::handed, crate::proofs::Telling::total_room), unfolding(crate::specs::Totals::total_of))]
pub fn total(
    words: &[u64],
    responses: &[Response],
    width: u32,
    held: Option<Job>,
) -> Result<u64, Refusal>
    ensures { result ≡ total_of (machine width words.now responses.now) held }
{
    check_total(words, responses, width, held)?;
    match held {
        None => Ok(0),
        Some(o) => Ok(pulses_of(words, responses, o)),
    }
}

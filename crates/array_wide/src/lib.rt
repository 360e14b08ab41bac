// The word-wide machine of the array: one operation with a few operations on whole numbers for each word, however many cells it has.
// Its contract is the plain machine's. Document 02, request a.
#![tactic(auto)]

ghost use Rattle.std.specs.Prelude.{◌≡◌, length};
ghost use Rattle.std.specs.Int.Bits.{bit_and, bit_or};
ghost use Rattle.laws.specs.Bits.{pick};
ghost use Rattle.array.specs.Words.{word, words, each, how_many};
ghost use Rattle.array.specs.Selectors.{selected, marked};
ghost use Rattle.array.specs.Operations as operations;
ghost use Rattle.array.specs.Refusals.{answer_of, after};
ghost use Rattle.array_wide.specs.Rules as rules;

use array::{
    Answer, Combine, Form, Kind, Latches, Operation, Refusal, Registers, Selector, Wanted,
};

// ---- one word

fn is_agreeing(datum: u64, mask: u64, ones: u64, xs: u64) -> bool
    ensures { result ≡ rules.agreeing datum mask (word ones xs 0) }
{
    mask & !xs & (ones ^ datum) == 0
}

fn filled(mask: u64, fill: u64, plane: u64) -> u64
    ensures { result ≡ rules.filled mask fill plane }
{
    (plane & !mask) | fill
}

fn fill_ones(kind: Kind, datum: u64, mask: u64) -> u64
    ensures { result ≡ rules.fill_ones kind datum mask }
{
    match kind {
        Kind::Normal => datum & mask,
        Kind::Special => 0,
    }
}

fn fill_xs(kind: Kind, mask: u64) -> u64
    ensures { result ≡ rules.fill_xs kind mask }
{
    match kind {
        Kind::Normal => 0,
        Kind::Special => mask,
    }
}

// ---- all words: the three buffers are lent one by one, since a contract says of each what it holds afterwards

fn search_words(
    datum: u64,
    mask: u64,
    wanted: Wanted,
    destination: Latches,
    combine: Combine,
    ones: &[u64],
    xs: &[u64],
    selectors: &mut [u8],
) -> usize
    requires { (length xs.now ≡ length ones.now) × (length selectors.old ≡ length ones.now) }
    ensures value { result ≡ how_many (rules.agreeing datum mask) (words ones.now xs.now selectors.old) }
    ensures selectors_after { selectors.new ≡ each (λ w. marked wanted destination combine (rules.agreeing datum mask w) w.selectors) (words ones.now xs.now selectors.old) }
{
    let mut count: usize = 0;
    for k in 0..ones.len() {
        let agree = is_agreeing(datum, mask, ones[k], xs[k]);
        selectors[k] = array::mark(wanted, destination, combine, agree, selectors[k]);
        count += usize::from(agree);
    }
    count
}

// The OR of the selected words' ones, in which an X is 0, and how many were selected.
#[derive(Clone, Copy)]
struct Bus {
    value: u64,
    count: usize,
}

fn read_words(selector: Selector, form: Form, ones: &[u64], xs: &[u64], selectors: &[u8]) -> Bus
    requires { (length xs.now ≡ length ones.now) × (length selectors.now ≡ length ones.now) }
    ensures value_value { result.value ≡ rules.union (selected selector form) (words ones.now xs.now selectors.now) }
    ensures count_value { result.count ≡ how_many (λ w. selected selector form w.selectors) (words ones.now xs.now selectors.now) }
{
    let mut value: u64 = 0;
    let mut count: usize = 0;
    for k in 0..ones.len() {
        if array::is_selected(selector, form, selectors[k]) {
            value |= ones[k];
            count += 1;
        }
    }
    Bus { value, count }
}

// What stands under the mask afterwards: `fill` in the plane of ones, `xfill` in the plane of X's.
fn write_words(
    mask: u64,
    fill: u64,
    xfill: u64,
    selector: Selector,
    form: Form,
    ones: &mut [u64],
    xs: &mut [u64],
    selectors: &[u8],
) -> usize
    requires { (length xs.old ≡ length ones.old) × (length selectors.now ≡ length ones.old) }
    ensures value { result ≡ how_many (λ w. selected selector form w.selectors) (words ones.old xs.old selectors.now) }
    ensures ones_after { ones.new ≡ each (λ w. pick (selected selector form w.selectors) (rules.filled mask fill w.ones) w.ones) (words ones.old xs.old selectors.now) }
    ensures xs_after { xs.new ≡ each (λ w. pick (selected selector form w.selectors) (rules.filled mask xfill w.xs) w.xs) (words ones.old xs.old selectors.now) }
{
    let mut count: usize = 0;
    for k in 0..ones.len() {
        if array::is_selected(selector, form, selectors[k]) {
            ones[k] = filled(mask, fill, ones[k]);
            xs[k] = filled(mask, xfill, xs[k]);
            count += 1;
        }
    }
    count
}

// ---- one operation

// One operation, or a refusal: what is lent is changed only where nothing is refused.
#[tactic(auto, using(machine::proofs::Refusals::handed), unfolding(array::specs::Refusals::answer_of, array::specs::Refusals::after))]
pub fn operate(
    ones: &mut [u64],
    xs: &mut [u64],
    selectors: &mut [u8],
    width: u32,
    registers: Registers,
    operation: Operation,
) -> Result<Answer, Refusal>
    ensures value { result ≡ answer_of (operations.array width ones.old xs.old selectors.old) registers operation }
    ensures ones_after { ones.new ≡ (after (operations.array width ones.old xs.old selectors.old) registers operation).ones }
    ensures xs_after { xs.new ≡ (after (operations.array width ones.old xs.old selectors.old) registers operation).xs }
    ensures selectors_after { selectors.new ≡ (after (operations.array width ones.old xs.old selectors.old) registers operation).selectors }
{
    array::check_call(ones, xs, selectors, width, registers)?;
    match operation {
        Operation::Search {
            source,
            mask,
            wanted,
            destination,
            combine,
        } => {
            let datum = array::data_of(registers, source);
            let under = array::mask_of(width, registers, mask);
            let count = search_words(
                datum,
                under,
                wanted,
                destination,
                combine,
                ones,
                xs,
                selectors,
            );
            Ok(Answer { registers, count })
        }
        Operation::Read {
            selector,
            form,
            sink,
            mask,
        } => {
            let under = array::mask_of(width, registers, mask);
            let old = array::sink_of(registers, sink);
            let bus = read_words(selector, form, ones, xs, selectors);
            let value = filled(under, bus.value & under, old);
            Ok(Answer {
                registers: array::load(registers, sink, value),
                count: bus.count,
            })
        }
        Operation::Write {
            kind,
            source,
            mask,
            selector,
            form,
        } => {
            let datum = array::data_of(registers, source);
            let under = array::mask_of(width, registers, mask);
            let count = write_words(
                under,
                fill_ones(kind, datum, under),
                fill_xs(kind, under),
                selector,
                form,
                ones,
                xs,
                selectors,
            );
            Ok(Answer { registers, count })
        }
    }
}

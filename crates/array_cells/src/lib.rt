// The plain machine of the array: one operation, cell by cell, by the truth tables of source document 001. Document 02, request a.
#![tactic(auto)]

ghost use Rattle.std.specs.Prelude.{◌≡◌, false, ◌≤◌, ◌<◌, length};
ghost use Rattle.machine.specs.Refusals.{bad_width};
ghost use Rattle.array.specs.Cells as tables;
ghost use Rattle.array.specs.Words as stored;
ghost use Rattle.array.specs.Words.{words, each, how_many};
ghost use Rattle.array.specs.Selectors.{selected};
ghost use Rattle.array.specs.Operations as operations;
ghost use Rattle.array.specs.Refusals.{answer_of, after};

use array::{Answer, Cell, Form, Kind, Operation, Refusal, Registers, Selector};
use chains::bits;

// ---- one cell

fn one_of(cell: Cell) -> u64
    ensures { (result ≡ tables.one_of cell) × (result ≤ 1) }
{
    match cell {
        Cell::One => 1,
        Cell::Zero | Cell::X => 0,
    }
}

fn x_of(cell: Cell) -> u64
    ensures { (result ≡ tables.x_of cell) × (result ≤ 1) }
{
    match cell {
        Cell::X => 1,
        Cell::Zero | Cell::One => 0,
    }
}

// "Generation of search arguments"
fn argument_at(datum: u64, mask: u64, i: u32) -> Cell
    requires { i < 64 }
    ensures { result ≡ operations.argument_at datum mask i }
{
    match (bits::bit_of(mask, i), bits::bit_of(datum, i)) {
        (0, _) => Cell::X,
        (_, 0) => Cell::Zero,
        _ => Cell::One,
    }
}

// "Generation of mismatch signals"
fn is_mismatch(argument: Cell, content: Cell) -> bool
    ensures { result ≡ tables.mismatch argument content }
{
    matches!(
        (argument, content),
        (Cell::Zero, Cell::One) | (Cell::One, Cell::Zero)
    )
}

// "an X state reads as zero": another table than one_of's, which happens to agree
fn read_of(content: Cell) -> u64
    ensures { (result ≡ tables.reads content) × (result ≤ 1) }
{
    match content {
        Cell::One => 1,
        Cell::Zero | Cell::X => 0,
    }
}

// "Write Normal", "Write Special"
fn written_of(kind: Kind, argument: Cell, content: Cell) -> Cell
    ensures { result ≡ tables.written kind argument content }
{
    match (kind, argument) {
        (_, Cell::X) => content,
        (Kind::Normal, _) => argument,
        (Kind::Special, _) => Cell::X,
    }
}

// ---- one word

// Its two planes and its selector byte.
#[derive(Clone, Copy)]
struct Word {
    ones: u64,
    xs: u64,
    selectors: u8,
}

fn cell_at(word: Word, i: u32) -> Cell
    requires { i < 64 }
    ensures { result ≡ stored.cell_at (stored.word word.ones word.xs word.selectors) i }
{
    match (bits::bit_of(word.xs, i), bits::bit_of(word.ones, i)) {
        (0, 0) => Cell::Zero,
        (0, _) => Cell::One,
        _ => Cell::X,
    }
}

fn is_agreeing(width: u32, datum: u64, mask: u64, word: Word) -> bool
    requires { width ≤ 64 }
    ensures { result ≡ operations.agrees width datum mask (stored.word word.ones word.xs word.selectors) }
{
    for i in 0..width {
        if is_mismatch(argument_at(datum, mask, i), cell_at(word, i)) {
            return false;
        }
    }
    true
}

fn write_cells(width: u32, kind: Kind, datum: u64, mask: u64, word: Word) -> Word
    requires { width ≤ 64 }
    ensures { stored.word result.ones result.xs result.selectors ≡ operations.written_to width kind datum mask (stored.word word.ones word.xs word.selectors) }
{
    let mut ones: u64 = 0;
    let mut xs: u64 = 0;
    for i in 0..width {
        let cell = written_of(kind, argument_at(datum, mask, i), cell_at(word, i));
        ones += bits::at_place(one_of(cell), i);
        xs += bits::at_place(x_of(cell), i);
    }
    Word { ones, xs, ..word }
}

// What an operation makes of one word, and whether the word counts.
#[derive(Clone, Copy)]
struct Turned {
    word: Word,
    counted: bool,
}

#[tactic(auto, using(machine::proofs::Refusals::width_le), unfolding(array::specs::Operations::word_after, array::specs::Operations::counted))]
fn turn(width: u32, registers: Registers, operation: Operation, word: Word) -> Turned
    requires { bad_width width ≡ false }
    ensures selectors_value { stored.word result.word.ones result.word.xs result.word.selectors ≡ operations.word_after width registers operation (stored.word word.ones word.xs word.selectors) }
    ensures counted_value { result.counted ≡ operations.counted width registers operation (stored.word word.ones word.xs word.selectors) }
{
    match operation {
        Operation::Search {
            source,
            mask,
            wanted,
            destination,
            combine,
        } => {
            let datum = array::data_of(registers, source);
            let under = array::mask_of(width, registers, mask);
            let agree = is_agreeing(width, datum, under, word);
            let selectors = array::mark(wanted, destination, combine, agree, word.selectors);
            Turned {
                word: Word { selectors, ..word },
                counted: agree,
            }
        }
        Operation::Read {
            selector,
            form,
            sink: _,
            mask: _,
        } => Turned {
            word,
            counted: array::is_selected(selector, form, word.selectors),
        },
        Operation::Write {
            kind,
            source,
            mask,
            selector,
            form,
        } => {
            if !array::is_selected(selector, form, word.selectors) {
                return Turned {
                    word,
                    counted: false,
                };
            }
            let datum = array::data_of(registers, source);
            let under = array::mask_of(width, registers, mask);
            Turned {
                word: write_cells(width, kind, datum, under, word),
                counted: true,
            }
        }
    }
}

// ---- the read bus, bit by bit

fn bus_at(selector: Selector, form: Form, ones: &[u64], xs: &[u64], selectors: &[u8], i: u32) -> u64
    requires xs_len { (length xs.now ≡ length ones.now) × (length selectors.now ≡ length ones.now) }
    requires i_bound { i < 64 }
    ensures { (result ≡ operations.bus (selected selector form) (words ones.now xs.now selectors.now) i) × (result ≤ 1) }
{
    let mut on: u64 = 0;
    for k in 0..ones.len() {
        if array::is_selected(selector, form, selectors[k]) {
            let word = Word {
                ones: ones[k],
                xs: xs[k],
                selectors: selectors[k],
            };
            on |= read_of(cell_at(word, i));
        }
    }
    on
}

// "Effect of Read operation on specified register", one bit.
fn loaded_at(
    mask: u64,
    old: u64,
    selector: Selector,
    form: Form,
    ones: &[u64],
    xs: &[u64],
    selectors: &[u8],
    i: u32,
) -> u64
    requires xs_len { (length xs.now ≡ length ones.now) × (length selectors.now ≡ length ones.now) }
    requires i_bound { i < 64 }
    ensures { (result ≡ operations.loaded_at mask old (selected selector form) (words ones.now xs.now selectors.now) i) × (result ≤ 1) }
{
    if bits::bit_of(mask, i) == 1 {
        bus_at(selector, form, ones, xs, selectors, i)
    } else {
        bits::bit_of(old, i)
    }
}

fn read_cells(
    width: u32,
    mask: u64,
    old: u64,
    selector: Selector,
    form: Form,
    ones: &[u64],
    xs: &[u64],
    selectors: &[u8],
) -> u64
    requires xs_len { (length xs.now ≡ length ones.now) × (length selectors.now ≡ length ones.now) }
    requires width_bound { width ≤ 64 }
    ensures { result ≡ operations.read_into width mask old (selected selector form) (words ones.now xs.now selectors.now) }
{
    let mut value: u64 = 0;
    for i in 0..width {
        value += bits::at_place(
            loaded_at(mask, old, selector, form, ones, xs, selectors, i),
            i,
        );
    }
    value
}

#[tactic(auto, using(machine::proofs::Refusals::width_le), unfolding(array::specs::Operations::registers_after))]
fn registers_after(
    width: u32,
    registers: Registers,
    operation: Operation,
    ones: &[u64],
    xs: &[u64],
    selectors: &[u8],
) -> Registers
    requires xs_len { (length xs.now ≡ length ones.now) × (length selectors.now ≡ length ones.now) }
    requires width_value { bad_width width ≡ false }
    ensures { result ≡ operations.registers_after width registers operation (words ones.now xs.now selectors.now) }
{
    match operation {
        Operation::Read {
            selector,
            form,
            sink,
            mask,
        } => {
            let under = array::mask_of(width, registers, mask);
            let old = array::sink_of(registers, sink);
            let value = read_cells(width, under, old, selector, form, ones, xs, selectors);
            array::load(registers, sink, value)
        }
        _ => registers,
    }
}

// ---- all words: the three buffers are lent one by one, since a contract says of each what it holds afterwards

fn turn_all(
    width: u32,
    registers: Registers,
    operation: Operation,
    ones: &mut [u64],
    xs: &mut [u64],
    selectors: &mut [u8],
) -> usize
    requires xs_len { (length xs.old ≡ length ones.old) × (length selectors.old ≡ length ones.old) }
    requires width_value { bad_width width ≡ false }
    ensures value { result ≡ how_many (operations.counted width registers operation) (words ones.old xs.old selectors.old) }
    ensures ones_after { ones.new ≡ each (λ w. (operations.word_after width registers operation w).ones) (words ones.old xs.old selectors.old) }
    ensures xs_after { xs.new ≡ each (λ w. (operations.word_after width registers operation w).xs) (words ones.old xs.old selectors.old) }
    ensures selectors_after { selectors.new ≡ each (λ w. (operations.word_after width registers operation w).selectors) (words ones.old xs.old selectors.old) }
{
    let mut counted: usize = 0;
    for k in 0..ones.len() {
        let word = Word {
            ones: ones[k],
            xs: xs[k],
            selectors: selectors[k],
        };
        let turned = turn(width, registers, operation, word);
        ones[k] = turned.word.ones;
        xs[k] = turned.word.xs;
        selectors[k] = turned.word.selectors;
        counted += usize::from(turned.counted);
    }
    counted
}

// ---- one operation

// One operation, or a refusal: what is lent is changed only where nothing is refused.
#[tactic(auto, using(machine::proofs::Refusals::handed), unfolding(array::specs::Refusals::answer_of, array::specs::Refusals::after))]
pub fn operate(
    ones: &mut [u64],
    xs: &mut [u64],
    selectors: &mut [u8],
    width: u32,
    registers: Registers,
    operation: Operation,
) -> Result<Answer, Refusal>
    ensures value { result ≡ answer_of (operations.array width ones.old xs.old selectors.old) registers operation }
    ensures ones_after { ones.new ≡ (after (operations.array width ones.old xs.old selectors.old) registers operation).ones }
    ensures xs_after { xs.new ≡ (after (operations.array width ones.old xs.old selectors.old) registers operation).xs }
    ensures selectors_after { selectors.new ≡ (after (operations.array width ones.old xs.old selectors.old) registers operation).selectors }
{
    array::check_call(ones, xs, selectors, width, registers)?;
    let loaded = registers_after(width, registers, operation, ones, xs, selectors);
    let count = turn_all(width, registers, operation, ones, xs, selectors);
    Ok(Answer {
        registers: loaded,
        count,
    })
}

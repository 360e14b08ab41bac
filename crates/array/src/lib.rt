// The associative processing array of source document 001, as document 02, request a, asks for it: words of three-state cells, two
// data registers and a mask register, two sets of selectors. Its types, what the word control unit and the bit control unit do for
// every operation, and the checks of a call. The operations stand in `array_cells` and `array_wide`.
#![tactic(auto)]

ghost use Rattle.std.specs.Prelude.{◌≡◌, false, ◌≤◌, None, length};
ghost use Rattle.machine.specs.Refusals.{bad_width};
ghost use Rattle.array.specs.Selectors as selectors;
ghost use Rattle.array.specs.Words.{words};
ghost use Rattle.array.specs.Operations.{array};
ghost use Rattle.array.specs.Registers as registering;
ghost use Rattle.array.specs.Refusals as refusals;

use machine::{WordSlice, bad_width, refuse, too_wide};

// "three state (0, 1, X="don't care") associative storage cells"
#[derive(Clone, Copy, PartialEq, Eq)]
pub enum Cell {
    Zero,
    One,
    X,
}

// "two data registers (R1, R2) .. and one mask register (M)"
#[derive(Clone, Copy, PartialEq, Eq)]
pub struct Registers {
    pub r1: u64,
    pub r2: u64,
    pub m: u64,
}

// ---- the choices that an operation makes

// "the specified data register (R1, R2)"
#[derive(Clone, Copy, PartialEq, Eq)]
pub enum Source {
    R1,
    R2,
}

// "the specified mask (M, all 1's, all 0's)"
#[derive(Clone, Copy, PartialEq, Eq)]
pub enum Mask {
    M,
    Ones,
    Zeros,
}

// "one of two sets of selector latches (P and S)"
#[derive(Clone, Copy, PartialEq, Eq)]
pub enum Latches {
    P,
    S,
}

// "a specified set of selector latches (P, S, all 0's) .."
#[derive(Clone, Copy, PartialEq, Eq)]
pub enum Selector {
    P,
    S,
    Zeros,
}

// ".. in true or complement form"
#[derive(Clone, Copy, PartialEq, Eq)]
pub enum Form {
    True,
    Complement,
}

// "with the words that agree, or with those that don't"
#[derive(Clone, Copy, PartialEq, Eq)]
pub enum Wanted {
    Agree,
    Disagree,
}

// "may be ANDed or ORed with, or replace the contents"
#[derive(Clone, Copy, PartialEq, Eq)]
pub enum Combine {
    Replace,
    And,
    Or,
}

// "a specified register (R1, R2, M)"
#[derive(Clone, Copy, PartialEq, Eq)]
pub enum Sink {
    R1,
    R2,
    M,
}

// "Two write commands are provided: Write Normal, and Write Special."
#[derive(Clone, Copy, PartialEq, Eq)]
pub enum Kind {
    Normal,
    Special,
}

// "Three basic operations may be performed on the array: search, read, and write."
#[derive(Clone, Copy, PartialEq, Eq)]
pub enum Operation {
    Search {
        source: Source,
        mask: Mask,
        wanted: Wanted,
        destination: Latches,
        combine: Combine,
    },
    Read {
        selector: Selector,
        form: Form,
        sink: Sink,
        mask: Mask,
    },
    Write {
        kind: Kind,
        source: Source,
        mask: Mask,
        selector: Selector,
        form: Form,
    },
}

// Why an operation is turned down: "1 to 4 as before, 12 for a cell coded as neither 0, 1 nor X".
#[derive(Clone, Copy)]
pub enum Refusal {
    Size,
    Width,
    WordTooWide(WordSlice),
    NoCell,
    RegisterTooWide,
}

// What an operation that is not turned down answers: the registers after it and the count.
#[derive(Clone, Copy)]
pub struct Answer {
    pub registers: Registers,
    pub count: usize,
}

// Document 02's number of each.
pub fn number_of(why: Refusal) -> u64
    ensures { (result ≡ refusals.number_of why) × (result ≤ 12) }
{
    match why {
        Refusal::Size => 1,
        Refusal::Width => 2,
        Refusal::WordTooWide(_) => 3,
        Refusal::NoCell => 12,
        Refusal::RegisterTooWide => 4,
    }
}

// ---- the bit control unit: registers and masks

pub fn data_of(registers: Registers, source: Source) -> u64
    ensures { result ≡ registering.data_of registers source }
{
    match source {
        Source::R1 => registers.r1,
        Source::R2 => registers.r2,
    }
}

// All 1's are the `width` bits of a register (house).
pub fn mask_of(width: u32, registers: Registers, mask: Mask) -> u64
    requires { bad_width width ≡ false }
    ensures { result ≡ registering.mask_of width registers mask }
{
    match mask {
        Mask::M => registers.m,
        Mask::Ones => machine::low_bits(width),
        Mask::Zeros => 0,
    }
}

pub fn sink_of(registers: Registers, sink: Sink) -> u64
    ensures { result ≡ registering.sink_of registers sink }
{
    match sink {
        Sink::R1 => registers.r1,
        Sink::R2 => registers.r2,
        Sink::M => registers.m,
    }
}

pub fn load(registers: Registers, sink: Sink, value: u64) -> Registers
    ensures { result ≡ registering.load sink value registers }
{
    match sink {
        Sink::R1 => Registers {
            r1: value,
            ..registers
        },
        Sink::R2 => Registers {
            r2: value,
            ..registers
        },
        Sink::M => Registers {
            m: value,
            ..registers
        },
    }
}

// ---- the word control unit: selectors

// A set's latch in a word's selector byte.
fn latch(byte: u8, set: Latches) -> bool
    ensures { result ≡ selectors.latch set byte }
{
    match set {
        Latches::P => byte % 2 == 1,
        Latches::S => (byte >> 1) % 2 == 1,
    }
}

fn signal(byte: u8, selector: Selector) -> bool
    ensures { result ≡ selectors.signal selector byte }
{
    match selector {
        Selector::P => latch(byte, Latches::P),
        Selector::S => latch(byte, Latches::S),
        Selector::Zeros => false,
    }
}

pub fn is_selected(selector: Selector, form: Form, byte: u8) -> bool
    ensures { result ≡ selectors.selected selector form byte }
{
    match form {
        Form::True => signal(byte, selector),
        Form::Complement => !signal(byte, selector),
    }
}

fn combined(combine: Combine, old: bool, new: bool) -> bool
    ensures { result ≡ selectors.combined combine old new }
{
    match combine {
        Combine::Replace => new,
        Combine::And => old & new,
        Combine::Or => old | new,
    }
}

fn is_wanted(wanted: Wanted, agree: bool) -> bool
    ensures { result ≡ selectors.wants wanted agree }
{
    match wanted {
        Wanted::Agree => agree,
        Wanted::Disagree => !agree,
    }
}

// One latch set to a bit, the byte's other bits as they were.
fn put_latch(byte: u8, set: Latches, on: bool) -> u8
    ensures { result ≡ selectors.put set on byte }
{
    match set {
        Latches::P => { if on { byte | 1 } else { byte & 254 } }
        Latches::S => { if on { byte | 2 } else { byte & 253 } }
    }
}

// What a search makes of a word's selector byte.
pub fn mark(wanted: Wanted, destination: Latches, combine: Combine, agree: bool, byte: u8) -> u8
    ensures { result ≡ selectors.marked wanted destination combine agree byte }
{
    let new = is_wanted(wanted, agree);
    let old = latch(byte, destination);
    put_latch(byte, destination, combined(combine, old, new))
}

// ---- the checks of a call, in their order

// 1
fn bad_size(ones: usize, xs: usize, selectors: usize) -> bool
    ensures { result ≡ refusals.bad_sizes ones xs selectors }
{
    machine::bad_size(ones, xs) | machine::bad_size(ones, selectors)
}

// 3
fn first_too_wide(width: u32, ones: &[u64], xs: &[u64], selectors: &[u8]) -> Option<WordSlice>
    requires { (length xs.now ≡ length ones.now) × (length selectors.now ≡ length ones.now) }
    ensures { result ≡ refusals.first_too_wide width (words ones.now xs.now selectors.now) }
{
    for k in 0..ones.len() {
        if too_wide(width, ones[k]) | too_wide(width, xs[k]) {
            return Some(WordSlice(k));
        }
    }
    None
}

fn refuse_word(found: Option<WordSlice>) -> Result<(), Refusal>
    ensures { result ≡ refusals.refuse_word found }
{
    match found {
        Some(k) => Err(Refusal::WordTooWide(k)),
        None => Ok(()),
    }
}

// 12: where no word is too wide, a cell has ones in both planes exactly if the planes have a one in common.
fn bad_cells(width: u32, ones: &[u64], xs: &[u64], selectors: &[u8]) -> bool
    requires xs_len { (length xs.now ≡ length ones.now) × (length selectors.now ≡ length ones.now) }
    requires selectors_value { refusals.first_too_wide width (words ones.now xs.now selectors.now) ≡ None }
    ensures { result ≡ refusals.bad_cells width (words ones.now xs.now selectors.now) }
{
    let mut common: u64 = 0;
    for k in 0..ones.len() {
        common |= ones[k] & xs[k];
    }
    common != 0
}

// 4
fn bad_registers(width: u32, registers: Registers) -> bool
    ensures { result ≡ refusals.bad_registers width registers }
{
    too_wide(width, registers.r1) | too_wide(width, registers.r2) | too_wide(width, registers.m)
}

// 12 and 4, where 1 to 3 are passed.
#[tactic(auto, using(machine::proofs::Refusals::handed))]
fn check_rest(
    width: u32,
    registers: Registers,
    ones: &[u64],
    xs: &[u64],
    selectors: &[u8],
) -> Result<(), Refusal>
    requires xs_len { (length xs.now ≡ length ones.now) × (length selectors.now ≡ length ones.now) }
    requires selectors_value { refusals.first_too_wide width (words ones.now xs.now selectors.now) ≡ None }
    ensures { result ≡ refusals.rest_check width registers (words ones.now xs.now selectors.now) }
{
    refuse(Refusal::NoCell, bad_cells(width, ones, xs, selectors))?;
    refuse(Refusal::RegisterTooWide, bad_registers(width, registers))
}

// "1 to 4 as before, 12 for a cell coded as neither 0, 1 nor X, after 3"
#[tactic(auto, using(machine::proofs::Refusals::handed), unfolding(crate::specs::Refusals::call_check))]
pub fn check_call(
    ones: &[u64],
    xs: &[u64],
    selectors: &[u8],
    width: u32,
    registers: Registers,
) -> Result<(), Refusal>
    ensures { result ≡ refusals.call_check (array width ones.now xs.now selectors.now) registers }
{
    refuse(
        Refusal::Size,
        bad_size(ones.len(), xs.len(), selectors.len()),
    )?;
    refuse(Refusal::Width, bad_width(width))?;
    refuse_word(first_too_wide(width, ones, xs, selectors))?;
    check_rest(width, registers, ones, xs, selectors)
}

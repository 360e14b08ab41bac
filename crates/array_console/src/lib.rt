// The console's commands for the array of three-state cells: what the host does to its array, and the three operations. docs/BOARD.md has
// the language.
#![tactic(auto)]

ghost use Rattle.std.specs.Prelude.{◌≡◌};
ghost use Rattle.text.specs.Words.{words_of};
ghost use Rattle.text.specs.Rows.{fits};
ghost use Rattle.array.specs.Operations.{array};
ghost use Rattle.array_console.specs.Commands as commands;
ghost use Rattle.array_console.specs.Obeying as obeying;

use array::{Operation, Refusal, Registers};
use array_lines::choose;
use text::{arguments, numbers, words};

// The array but for its three lent buffers, of which it says how many entries are its own.
#[derive(Clone, Copy, PartialEq, Eq)]
pub struct Rack {
    pub width: u32,
    pub words: usize,
    pub registers: Registers,
}

// What is to be printed of a line.
#[derive(Clone, Copy)]
pub enum Outcome {
    BadLine,
    Fine,
    Refused(Refusal),
    Counted(usize),
    Listing,
}

// The rack after a line, and what is to be printed.
#[derive(Clone, Copy)]
pub struct Turn {
    pub rack: Rack,
    pub outcome: Outcome,
}

// "cells3 N n", but for the buffers.
pub fn fresh(width: u32, words: usize) -> Rack
    ensures { result ≡ commands.fresh_rack width words }
{
    Rack {
        width,
        words,
        registers: Registers { r1: 0, r2: 0, m: 0 },
    }
}

// ---- how a command ends

fn ended(rack: Rack, outcome: Outcome) -> Turn
    ensures { result ≡ commands.ended rack outcome }
{
    Turn { rack, outcome }
}

// ---- what the host does to its array

// cells3 N n
fn make(rack: Rack, rest: &[u8], ones: &mut [u64], xs: &mut [u64], selectors: &mut [u8]) -> Turn
    ensures value { result ≡ commands.made rack (words_of rest.now) }
    ensures ones_after { ones.new ≡ commands.cleared (fits "bn" (words_of rest.now)) ones.old }
    ensures xs_after { xs.new ≡ commands.cleared (fits "bn" (words_of rest.now)) xs.old }
    ensures selectors_after { selectors.new ≡ commands.cleared (fits "bn" (words_of rest.now)) selectors.old }
{
    let Some(row) = arguments::read(rest, b"bn") else {
        return ended(rack, Outcome::BadLine);
    };
    ones.fill(0);
    xs.fill(0);
    selectors.fill(0);
    let made = fresh(u32::from(numbers::byte(row[0])), row[1] as usize);
    ended(made, Outcome::Fine)
}

// cell3 I ONES XS
fn write_cells(rest: &[u8], ones: &mut [u64], xs: &mut [u64]) -> Outcome
    ensures value { result ≡ commands.cells_outcome (words_of rest.now) ones.old xs.old }
    ensures ones_after { ones.new ≡ commands.cells_written 1 (words_of rest.now) ones.old xs.old ones.old }
    ensures xs_after { xs.new ≡ commands.cells_written 2 (words_of rest.now) ones.old xs.old xs.old }
{
    let Some(row) = arguments::read(rest, b"axx") else {
        return Outcome::BadLine;
    };
    let i = row[0] as usize;
    if ones.len() <= i || xs.len() <= i {
        return Outcome::BadLine;
    }
    ones[i] = row[1];
    xs[i] = row[2];
    Outcome::Fine
}

// select3 I HEX
fn write_selectors(rest: &[u8], selectors: &mut [u8]) -> Outcome
    ensures value { result ≡ commands.selectors_outcome (words_of rest.now) selectors.old }
    ensures selectors_after { selectors.new ≡ commands.selectors_written (words_of rest.now) selectors.old }
{
    let Some(row) = arguments::read(rest, b"ah") else {
        return Outcome::BadLine;
    };
    let i = row[0] as usize;
    if selectors.len() <= i {
        return Outcome::BadLine;
    }
    selectors[i] = numbers::byte(row[1]);
    Outcome::Fine
}

// load3 R HEX
fn load(rack: Rack, rest: &[u8]) -> Turn
    ensures { result ≡ commands.loaded rack (words_of rest.now) }
{
    let Ok(register) = choose(rest, 0, b"r1 r2 m", 3) else {
        return ended(rack, Outcome::BadLine);
    };
    let Some(row) = arguments::read(&rest[register.to..], b"x") else {
        return ended(rack, Outcome::BadLine);
    };
    let sink = array_lines::sink_at(register.place);
    let registers = array::load(rack.registers, sink, row[0]);
    ended(Rack { registers, ..rack }, Outcome::Fine)
}

// list3
fn list(rest: &[u8]) -> Outcome
    ensures { result ≡ commands.list_outcome (words_of rest.now) }
{
    if arguments::none(rest) {
        Outcome::Listing
    } else {
        Outcome::BadLine
    }
}

// ---- the three operations

fn operate(
    rack: Rack,
    asked: Option<Operation>,
    ones: &mut [u64],
    xs: &mut [u64],
    selectors: &mut [u8],
) -> Turn
    ensures value { result ≡ commands.operate_turn rack asked (array rack.width ones.old xs.old selectors.old) }
    ensures ones_after { ones.new ≡ (commands.operate_after rack asked (array rack.width ones.old xs.old selectors.old)).ones }
    ensures xs_after { xs.new ≡ (commands.operate_after rack asked (array rack.width ones.old xs.old selectors.old)).xs }
    ensures selectors_after { selectors.new ≡ (commands.operate_after rack asked (array rack.width ones.old xs.old selectors.old)).selectors }
{
    let Some(operation) = asked else {
        return ended(rack, Outcome::BadLine);
    };
    match array_wide::operate(ones, xs, selectors, rack.width, rack.registers, operation) {
        Ok(done) => ended(
            Rack {
                registers: done.registers,
                ..rack
            },
            Outcome::Counted(done.count),
        ),
        Err(why) => ended(rack, Outcome::Refused(why)),
    }
}

// ---- which command a line is

// The commands that are lent just the array's own entries.
#[tactic(auto, unfolding(crate::specs::Obeying::on_own))]
fn on_own(
    rack: Rack,
    name: &[u8],
    rest: &[u8],
    ones: &mut [u64],
    xs: &mut [u64],
    selectors: &mut [u8],
) -> Turn
    ensures value { result ≡ (obeying.on_own (obeying.bench rack ones.old xs.old selectors.old) name.now (words_of rest.now)).turn }
    ensures ones_after { ones.new ≡ (obeying.on_own (obeying.bench rack ones.old xs.old selectors.old) name.now (words_of rest.now)).ones }
    ensures xs_after { xs.new ≡ (obeying.on_own (obeying.bench rack ones.old xs.old selectors.old) name.now (words_of rest.now)).xs }
    ensures selectors_after { selectors.new ≡ (obeying.on_own (obeying.bench rack ones.old xs.old selectors.old) name.now (words_of rest.now)).selectors }
{
    match words::which(b"cell3 select3 load3 search3 read3 write3 list3", name) {
        0 => ended(rack, write_cells(rest, ones, xs)),
        1 => ended(rack, write_selectors(rest, selectors)),
        2 => load(rack, rest),
        3 => operate(rack, array_lines::search_of(rest), ones, xs, selectors),
        4 => operate(rack, array_lines::read_of(rest), ones, xs, selectors),
        5 => operate(rack, array_lines::write_of(rest), ones, xs, selectors),
        6 => ended(rack, list(rest)),
        _ => ended(rack, Outcome::BadLine),
    }
}

#[tactic(auto, unfolding(crate::specs::Obeying::named))]
fn by_name(
    rack: Rack,
    name: &[u8],
    rest: &[u8],
    ones: &mut [u64],
    xs: &mut [u64],
    selectors: &mut [u8],
) -> Turn
    ensures value { result ≡ (obeying.named (obeying.bench rack ones.old xs.old selectors.old) name.now (words_of rest.now)).turn }
    ensures ones_after { ones.new ≡ (obeying.named (obeying.bench rack ones.old xs.old selectors.old) name.now (words_of rest.now)).ones }
    ensures xs_after { xs.new ≡ (obeying.named (obeying.bench rack ones.old xs.old selectors.old) name.now (words_of rest.now)).xs }
    ensures selectors_after { selectors.new ≡ (obeying.named (obeying.bench rack ones.old xs.old selectors.old) name.now (words_of rest.now)).selectors }
{
    if words::which(b"cells3", name) == 0 {
        return make(rack, rest, ones, xs, selectors);
    }
    let n = rack.words;
    if ones.len() < n || xs.len() < n || selectors.len() < n {
        return ended(rack, Outcome::BadLine);
    }
    on_own(
        rack,
        name,
        rest,
        &mut ones[..n],
        &mut xs[..n],
        &mut selectors[..n],
    )
}

// One line, on buffers that are as long as any array of the console needs.
pub fn obey(rack: Rack, line: &[u8], ones: &mut [u64], xs: &mut [u64], selectors: &mut [u8]) -> Turn
    ensures value { result ≡ (obeying.obeyed (obeying.bench rack ones.old xs.old selectors.old) (words_of line.now)).turn }
    ensures ones_after { ones.new ≡ (obeying.obeyed (obeying.bench rack ones.old xs.old selectors.old) (words_of line.now)).ones }
    ensures xs_after { xs.new ≡ (obeying.obeyed (obeying.bench rack ones.old xs.old selectors.old) (words_of line.now)).xs }
    ensures selectors_after { selectors.new ≡ (obeying.obeyed (obeying.bench rack ones.old xs.old selectors.old) (words_of line.now)).selectors }
{
    let word = words::next(line, 0);
    if word.from == word.to {
        return ended(rack, Outcome::BadLine);
    }
    by_name(
        rack,
        &line[word.from..word.to],
        &line[word.to..],
        ones,
        xs,
        selectors,
    )
}

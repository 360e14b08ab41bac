// What the console prints of each outcome of the array's commands: one line, but for the list. docs/BOARD.md has the language.
#![tactic(auto)]

ghost use Rattle.std.specs.Prelude.{◌∷◌, [], ◌++◌};
ghost use Rattle.output.specs.Puts.{Puts};
ghost use Rattle.array_replies.specs.Texts as texts;

use array::Refusal;
use array_console::{Outcome, Rack};

const NEWLINE: u8 = 10;

// "`refused K`, for number 3 `refused 3 word I`"
fn put_refusal(out: &mut [u8], why: Refusal) -> usize
    ensures { Puts (texts.refusal_text why) 0 out.old out.new result }
{
    let n = output::put_named(out, 0, b"refused ", array::number_of(why));
    match why {
        Refusal::WordTooWide(word) => output::put_named(out, n, b" word ", word.0 as u64),
        _ => n,
    }
}

// ---- the list

// "cells WORDS width N r1 HEX r2 HEX m HEX"
fn put_head(out: &mut [u8], rack: Rack) -> usize
    ensures { Puts (texts.head_text rack) 0 out.old out.new result }
{
    let registers = rack.registers;
    let words = output::put_named(out, 0, b"cells ", rack.words as u64);
    let width = output::put_named(out, words, b" width ", rack.width as u64);
    let r1 = output::put_named16(out, width, b" r1 ", registers.r1);
    let r2 = output::put_named16(out, r1, b" r2 ", registers.r2);
    output::put_named16(out, r2, b" m ", registers.m)
}

// "I ONES XS SELECTORS"
fn put_line(out: &mut [u8], at: usize, i: usize, one: u64, x: u64, selectors: u8) -> usize
    ensures { Puts (texts.word_text i one x selectors) at out.old out.new result }
{
    let number = output::put_named(out, at, b"\n", i as u64);
    let plane = output::put_named16(out, number, b" ", one);
    let planes = output::put_named16(out, plane, b" ", x);
    output::put_named2(out, planes, b" ", selectors)
}

fn put_entry(
    out: &mut [u8],
    at: usize,
    i: usize,
    ones: &[u64],
    xs: &[u64],
    selectors: &[u8],
) -> usize
    ensures { Puts (texts.entry_text i ones.now xs.now selectors.now) at out.old out.new result }
{
    match (ones.get(i), xs.get(i), selectors.get(i)) {
        (Some(one), Some(x), Some(byte)) => put_line(out, at, i, *one, *x, *byte),
        _ => at,
    }
}

fn put_list(out: &mut [u8], rack: Rack, ones: &[u64], xs: &[u64], selectors: &[u8]) -> usize
    ensures { Puts (texts.list_text rack ones.now xs.now selectors.now) 0 out.old out.new result }
{
    let mut end = put_head(out, rack);
    for i in 0..rack.words {
        end = put_entry(out, end, i, ones, xs, selectors);
    }
    end
}

// ---- every outcome

fn put_outcome(
    out: &mut [u8],
    outcome: Outcome,
    rack: Rack,
    ones: &[u64],
    xs: &[u64],
    selectors: &[u8],
) -> usize
    ensures { Puts (texts.printed outcome rack ones.now xs.now selectors.now) 0 out.old out.new result }
{
    match outcome {
        Outcome::BadLine => output::put(out, 0, b"bad line"),
        Outcome::Fine => output::put(out, 0, b"ok"),
        Outcome::Refused(why) => put_refusal(out, why),
        Outcome::Counted(count) => output::put_named(out, 0, b"count ", count as u64),
        Outcome::Listing => put_list(out, rack, ones, xs, selectors),
    }
}

// The answer to an outcome with its newline, from the start of `out`.
pub fn put(
    out: &mut [u8],
    outcome: Outcome,
    rack: Rack,
    ones: &[u64],
    xs: &[u64],
    selectors: &[u8],
) -> usize
    ensures { Puts (texts.printed outcome rack ones.now xs.now selectors.now ++ (10 ∷ [])) 0 out.old out.new result }
{
    let n = put_outcome(out, outcome, rack, ones, xs, selectors);
    output::put_byte(out, n, NEWLINE)
}

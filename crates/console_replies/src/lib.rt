// What the console prints of each outcome: one line, but for the list. docs/BOARD.md has the language.
#![tactic(auto)]

ghost use Rattle.std.specs.Prelude.{◌∷◌, [], ◌++◌};
ghost use Rattle.laws.specs.Bits.{pick};
ghost use Rattle.text.specs.Ascii.{ascii};
ghost use Rattle.listing.specs.Lists.{list_text};
ghost use Rattle.output.specs.Puts.{Puts};
ghost use Rattle.console_replies.specs.Texts as texts;

use console_commands::Outcome;
use explainer::Reason;
use job_plans::Command;
use machine::{BitSlice, Panel, Refusal};

const NEWLINE: u8 = 10;

// ---- a part of a line, behind the bytes that are used

fn put_codes(out: &mut [u8], at: usize, panel: Panel) -> usize
    ensures { Puts (texts.search_text panel) at out.old out.new result }
{
    let sc1 = output::put_named16(out, at, b" sc1 ", panel.sc1);
    let sc2 = output::put_named16(out, sc1, b" sc2 ", panel.sc2);
    output::put_named16(out, sc2, b" sc3 ", panel.sc3)
}

fn put_registers(out: &mut [u8], at: usize, panel: Panel) -> usize
    ensures { Puts (texts.registers_text panel) at out.old out.new result }
{
    let comp = output::put_named16(out, at, b"comp ", panel.comp);
    let sdr = output::put_named16(out, comp, b" sdr ", panel.sdr);
    let codes = put_codes(out, sdr, panel);
    output::put_named16(out, codes, b" mor ", panel.mor)
}

// The panel but for its address.
fn put_panel(out: &mut [u8], at: usize, panel: Panel) -> usize
    ensures { Puts (texts.panel_text panel) at out.old out.new result }
{
    let registers = put_registers(out, at, panel);
    let key = listing::put_response(out, registers, b" key ", panel.key);
    let care = listing::put_response(out, key, b" care ", panel.care);
    listing::put_response(out, care, b" target ", panel.target)
}

// ---- why a word is picked, or is not

fn put_against(out: &mut [u8], syllable: BitSlice, bit: BitSlice) -> usize
    ensures { Puts (texts.why_text (Ok (Reason.Against syllable bit))) 0 out.old out.new result }
{
    let n = output::put_named(out, 0, b"syllable ", u64::from(syllable.0));
    output::put_named(out, n, b" against at ", u64::from(bit.0))
}

fn put_equal(out: &mut [u8], syllable: BitSlice) -> usize
    ensures { Puts (texts.why_text (Ok (Reason.EqualToTheBottom syllable))) 0 out.old out.new result }
{
    let n = output::put_named(out, 0, b"syllable ", u64::from(syllable.0));
    output::put(out, n, b" equal to the bottom")
}

fn put_why(out: &mut [u8], given: Result<Reason, Refusal>) -> usize
    ensures { Puts (texts.why_text given) 0 out.old out.new result }
{
    match given {
        Ok(Reason::Matched) => output::put(out, 0, b"matched"),
        Ok(Reason::NotSelected(bit)) => output::put_named(
            out,
            0,
            b"not selected bit ",
            u64::from(bit.0),
        ),
        Ok(Reason::Against { syllable, bit }) => put_against(out, syllable, bit),
        Ok(Reason::EqualToTheBottom(syllable)) => put_equal(out, syllable),
        Err(why) => listing::put_refusal(out, why),
    }
}

// ---- the other lines

fn put_pulsed(out: &mut [u8], count: usize, read: u64) -> usize
    ensures { Puts (texts.printed (Outcome.Pulsed count read) []) 0 out.old out.new result }
{
    let n = output::put_named(out, 0, b"count ", count as u64);
    output::put_named16(out, n, b" read ", read)
}

fn put_address(out: &mut [u8], panel: Panel) -> usize
    ensures { Puts (texts.printed (Outcome.Registers panel) []) 0 out.old out.new result }
{
    let n = put_panel(out, 0, panel);
    output::put_named(out, n, b" address ", panel.address.0 as u64)
}

fn put_line_name(out: &mut [u8], search: bool) -> usize
    ensures { Puts (pick search (ascii "search ") (ascii "multiadd ")) 0 out.old out.new result }
{
    if search {
        output::put(out, 0, b"search ")
    } else {
        output::put(out, 0, b"multiadd ")
    }
}

// "L comp HEX .. count C held", "`ended` in place of `held` after the last pulse"
fn put_step(out: &mut [u8], command: Command, count: usize, held: bool) -> usize
    ensures { Puts (texts.step_text command count held) 0 out.old out.new result }
{
    let name = put_line_name(out, command.lines.search);
    let registers = put_panel(out, name, command.panel);
    let n = output::put_named(out, registers, b" count ", count as u64);
    if held {
        output::put(out, n, b" held")
    } else {
        output::put(out, n, b" ended")
    }
}

fn put_bytes(out: &mut [u8], bytes: &[u8]) -> usize
    ensures { Puts (ascii "image " ++ texts.pairs_text bytes.now) 0 out.old out.new result }
{
    let mut n = output::put(out, 0, b"image ");
    for byte in bytes {
        n = output::put_pair(out, n, *byte);
    }
    n
}

// The first `n` bytes of what was lent for an image, or a list of what they say.
fn put_image(out: &mut [u8], bytes: &[u8], n: usize, listed: bool) -> usize
    ensures { Puts (texts.of_image bytes.now n (λ image. pick listed (list_text image) (ascii "image " ++ texts.pairs_text image))) 0 out.old out.new result }
{
    let Some(image) = bytes.get(..n) else {
        return 0;
    };
    if listed {
        listing::put(out, image)
    } else {
        put_bytes(out, image)
    }
}

fn put_outcome(out: &mut [u8], outcome: Outcome, bytes: &[u8]) -> usize
    ensures { Puts (texts.printed outcome bytes.now) 0 out.old out.new result }
{
    match outcome {
        Outcome::BadLine => output::put(out, 0, b"bad line"),
        Outcome::Fine => output::put(out, 0, b"ok"),
        Outcome::Refused(why) => listing::put_refusal(out, why),
        Outcome::Pulsed { count, read } => put_pulsed(out, count, read),
        Outcome::Word(word) => output::put_named(out, 0, b"word ", word.0 as u64),
        Outcome::NoWord => output::put(out, 0, b"none"),
        Outcome::Registers(panel) => put_address(out, panel),
        Outcome::Gave {
            command,
            count,
            held,
        } => put_step(out, command, count, held),
        Outcome::Pulses(k) => output::put_named(out, 0, b"pulses ", k),
        Outcome::Image(n) => put_image(out, bytes, n, false),
        Outcome::Listing(n) => put_image(out, bytes, n, true),
        Outcome::Length(n) => output::put_named(out, 0, b"image ", n as u64),
        Outcome::Why(given) => put_why(out, given),
    }
}

// The answer to an outcome with its newline, from the start of `out`; `bytes` holds the image where it speaks of one.
pub fn put(out: &mut [u8], outcome: Outcome, bytes: &[u8]) -> usize
    ensures { Puts (texts.printed outcome bytes.now ++ (10 ∷ [])) 0 out.old out.new result }
{
    let n = put_outcome(out, outcome, bytes);
    output::put_byte(out, n, NEWLINE)
}

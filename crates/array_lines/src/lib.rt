// An operation on the array as a line of the console writes it: a word for each choice. docs/BOARD.md has the language.
#![tactic(auto)]

ghost use Rattle.std.specs.Prelude.{◌≡◌, [], ◌≤◌, ltb, length, get_or, drop, is_ok, is_some, IfSome};
ghost use Rattle.text.specs.Words.{words_of, place_of};
ghost use Rattle.array_lines.specs.Choices as choices;

use array::{Combine, Form, Kind, Latches, Mask, Operation, Selector, Sink, Source, Wanted};
use text::words;

// A word of a line as one of the names of a choice: which of them it is, and where it ends.
#[derive(Clone, Copy, PartialEq, Eq)]
pub struct Choice {
    pub place: usize,
    pub to: usize,
}

// The next word at or after `at` among `most` names: which of them it is, or that it is none of these, and where it ends all the same.
pub fn choose(line: &[u8], at: usize, names: &[u8], most: usize) -> Result<Choice, Choice>
    requires { at ≤ length line.now }
    ensures place_value { ((choices.either result).place ≡ place_of (get_or (words_of (drop at line.now)) 0 []) (words_of names.now)) × (is_ok result ≡ ltb (choices.either result).place most) }
    ensures to_in_bounds { ((choices.either result).to ≤ length line.now) × (words_of (drop (choices.either result).to line.now) ≡ drop 1 (words_of (drop at line.now))) }
{
    let word = words::next(line, at);
    let place = words::which(names, &line[word.from..word.to]);
    let choice = Choice { place, to: word.to };
    if most <= place {
        return Err(choice);
    }
    Ok(choice)
}

// The next word at or after `at`, if it is one of the first `most` names.
fn chosen(line: &[u8], at: usize, names: &[u8], most: usize) -> Option<Choice>
    requires { at ≤ length line.now }
    ensures right_value { is_some result ≡ ltb (place_of (get_or (words_of (drop at line.now)) 0 []) (words_of names.now)) most }
    ensures place_value { IfSome result (λ choice. choice.place ≡ place_of (get_or (words_of (drop at line.now)) 0 []) (words_of names.now)) }
    ensures to_in_bounds { IfSome result (λ choice. (choice.to ≤ length line.now) × (words_of (drop choice.to line.now) ≡ drop 1 (words_of (drop at line.now)))) }
{
    choose(line, at, names, most).ok()
}

// ---- each choice, by the place of its name

pub fn source_at(place: usize) -> Source
    ensures { result ≡ choices.source_at place }
{
    match place {
        0 => Source::R1,
        _ => Source::R2,
    }
}

pub fn mask_at(place: usize) -> Mask
    ensures { result ≡ choices.mask_at place }
{
    match place {
        0 => Mask::M,
        1 => Mask::Ones,
        _ => Mask::Zeros,
    }
}

pub fn wanted_at(place: usize) -> Wanted
    ensures { result ≡ choices.wanted_at place }
{
    match place {
        0 => Wanted::Agree,
        _ => Wanted::Disagree,
    }
}

pub fn latches_at(place: usize) -> Latches
    ensures { result ≡ choices.latches_at place }
{
    match place {
        0 => Latches::P,
        _ => Latches::S,
    }
}

pub fn combine_at(place: usize) -> Combine
    ensures { result ≡ choices.combine_at place }
{
    match place {
        0 => Combine::Replace,
        1 => Combine::And,
        _ => Combine::Or,
    }
}

pub fn selector_at(place: usize) -> Selector
    ensures { result ≡ choices.selector_at place }
{
    match place {
        0 => Selector::P,
        1 => Selector::S,
        _ => Selector::Zeros,
    }
}

pub fn form_at(place: usize) -> Form
    ensures { result ≡ choices.form_at place }
{
    match place {
        0 => Form::True,
        _ => Form::Complement,
    }
}

pub fn sink_at(place: usize) -> Sink
    ensures { result ≡ choices.sink_at place }
{
    match place {
        0 => Sink::R1,
        1 => Sink::R2,
        _ => Sink::M,
    }
}

pub fn kind_at(place: usize) -> Kind
    ensures { result ≡ choices.kind_at place }
{
    match place {
        0 => Kind::Normal,
        _ => Kind::Special,
    }
}

// ---- the three operations, from the words behind the command's name

pub fn search_of(line: &[u8]) -> Option<Operation>
    ensures { result ≡ choices.search_line (words_of line.now) }
{
    let source = chosen(line, 0, b"r1 r2", 2)?;
    let mask = chosen(line, source.to, b"m ones zeros", 3)?;
    let wanted = chosen(line, mask.to, b"agree disagree", 2)?;
    let destination = chosen(line, wanted.to, b"p s", 2)?;
    let combine = chosen(line, destination.to, b"replace and or", 3)?;
    if !words::none_left(line, combine.to) {
        return None;
    }
    Some(Operation::Search {
        source: source_at(source.place),
        mask: mask_at(mask.place),
        wanted: wanted_at(wanted.place),
        destination: latches_at(destination.place),
        combine: combine_at(combine.place),
    })
}

pub fn read_of(line: &[u8]) -> Option<Operation>
    ensures { result ≡ choices.read_line (words_of line.now) }
{
    let selector = chosen(line, 0, b"p s none", 3)?;
    let form = chosen(line, selector.to, b"true complement", 2)?;
    let sink = chosen(line, form.to, b"r1 r2 m", 3)?;
    let mask = chosen(line, sink.to, b"m ones zeros", 3)?;
    if !words::none_left(line, mask.to) {
        return None;
    }
    Some(Operation::Read {
        selector: selector_at(selector.place),
        form: form_at(form.place),
        sink: sink_at(sink.place),
        mask: mask_at(mask.place),
    })
}

pub fn write_of(line: &[u8]) -> Option<Operation>
    ensures { result ≡ choices.write_line (words_of line.now) }
{
    let kind = chosen(line, 0, b"normal special", 2)?;
    let source = chosen(line, kind.to, b"r1 r2", 2)?;
    let mask = chosen(line, source.to, b"m ones zeros", 3)?;
    let selector = chosen(line, mask.to, b"p s none", 3)?;
    let form = chosen(line, selector.to, b"true complement", 2)?;
    if !words::none_left(line, form.to) {
        return None;
    }
    Some(Operation::Write {
        kind: kind_at(kind.place),
        source: source_at(source.place),
        mask: mask_at(mask.place),
        selector: selector_at(selector.place),
        form: form_at(form.place),
    })
}

// What a job is: its types, the definitions of its fields, places and commands, and the checks of its fields.
// Document 01: 'Jobs', 'The image' (phase, i and j); document 02, request d: 20 to 25.
#![tactic(auto)]

pub mod fields;

ghost use Rattle.std.specs.Prelude.{◌≡◌};
ghost use Rattle.job_plans.specs.Fields.{IsKindOf};
ghost use Rattle.job_plans.specs.Places.{none};

use machine::{BitSlice, Lines, Panel, Refusal, Response, ResponseBit};

// "A syllable here is a lowest bit and a width."
#[derive(Clone, Copy, PartialEq, Eq)]
pub struct Span {
    pub low: BitSlice,
    pub width: u8,
}

impl Span {
    // What an unused syllable is set to.
    pub fn none() -> Span
        ensures { result ≡ none }
    {
        Span {
            low: BitSlice(0),
            width: 0,
        }
    }
}

// "kind (1 to 4 as in the table)"
#[derive(Clone, Copy, PartialEq, Eq)]
pub enum Kind {
    Greatest,
    Smallest,
    ScaledAdd,
    Product,
}

// A job's field holds any number; 25: "unknown kind".
impl TryFrom<u8> for Kind {
    type Error = Refusal;

    ghost try_from_gives = { IsKindOf };

    #[tactic(auto, unfolding(crate::specs::Fields::kind_of))]
    fn try_from(number: u8) -> Result<Kind, Refusal> {
        match number {
            1 => Ok(Kind::Greatest),
            2 => Ok(Kind::Smallest),
            3 => Ok(Kind::ScaledAdd),
            4 => Ok(Kind::Product),
            _ => Err(Refusal::WrongJob),
        }
    }
}

// The fields of the image's record, in its order: "kind (1 to 4 as in the table), key, care, X, Y, lowest bit and width
// of A, B, P, phase, i, j, then c".
#[derive(Clone, Copy, PartialEq, Eq)]
pub struct Job {
    pub kind: u8,
    pub key: Response,
    pub care: Response,
    pub x: ResponseBit,
    pub y: ResponseBit,
    pub a: Span,
    pub b: Span,
    pub p: Span,
    pub phase: u8,
    pub i: u8,
    pub j: u8,
    pub c: u64,
}

// What a step gives: a panel and one line.
#[derive(Clone, Copy)]
pub struct Command {
    pub panel: Panel,
    pub lines: Lines,
}

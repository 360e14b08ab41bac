// What the console's commands have in common: the board they work on, how a command ends, and a job as a line writes it.
// The commands stand in `console_setting`, `console_pulsing`, `console_working` and `console_storing`: each takes the rest of its line apart, gives it to the
// library and hands back the library's answer, to be printed. docs/BOARD.md has the language. "The console checks nothing that
// document 01 gives a refusal for": what a command turns down itself is a line that is none of its own.
#![tactic(auto)]

ghost use Rattle.std.specs.Prelude.{◌≡◌, ◌%◌};
ghost use Rattle.console_commands.specs.Boards.{fresh_board, holding};
ghost use Rattle.console_commands.specs.Ends as ends;
ghost use Rattle.console_commands.specs.Jobs.{job_of};

use explainer::Reason;
use job_plans::{Command, Job, Span};
use machine::{BitSlice, Panel, Refusal, ResponseBit, WordSlice};
use text::numbers;

// The machine but for its two lent buffers, of which it says how many entries are its own.
#[derive(Clone, Copy)]
pub struct Board {
    pub width: u32,
    pub words: usize,
    pub responses: usize,
    pub panel: Panel,
    pub held: Option<Job>,
}

// What is to be printed of a line.
#[derive(Clone, Copy)]
pub enum Outcome {
    BadLine,
    Fine,
    Refused(Refusal),
    Pulsed {
        count: usize,
        read: u64,
    },
    Word(WordSlice),
    NoWord,
    Why(Result<Reason, Refusal>),
    Registers(Panel),
    Gave {
        command: Command,
        count: usize,
        held: bool,
    },
    Pulses(u64),
    // An image of so many bytes: all of it, its length alone, and what the program list prints of it.
    Image(usize),
    Length(usize),
    Listing(usize),
}

// The board after a line, and what is to be printed.
#[derive(Clone, Copy)]
pub struct Turn {
    pub board: Board,
    pub outcome: Outcome,
}

// "machine N n", but for the buffers.
pub fn fresh(width: u32, words: usize) -> Board
    ensures { result ≡ fresh_board width words }
{
    Board {
        width,
        words,
        responses: words,
        panel: Panel::blank(),
        held: None,
    }
}

// ---- how a command ends

pub fn bad_line(board: Board) -> Turn
    ensures { result ≡ ends.bad_line board }
{
    Turn {
        board,
        outcome: Outcome::BadLine,
    }
}

pub fn fine(board: Board) -> Turn
    ensures { result ≡ ends.fine board }
{
    Turn {
        board,
        outcome: Outcome::Fine,
    }
}

pub fn refused(board: Board, why: Refusal) -> Turn
    ensures { result ≡ ends.refused board why }
{
    Turn {
        board,
        outcome: Outcome::Refused(why),
    }
}

// The board with another held job, or none.
pub fn with_held(board: Board, held: Option<Job>) -> Board
    ensures { result ≡ holding board held }
{
    Board { held, ..board }
}

// ---- a job as a line writes it

fn span(low: u64, width: u64) -> Span
    ensures { result ≡ record { low = record { 0 = low % 256 }; width = width % 256 } }
{
    Span {
        low: BitSlice(numbers::byte(low)),
        width: numbers::byte(width),
    }
}

// The fields that `start` and `job` begin with: KIND KEY CARE X Y AL AW BL BW PL PW. The place is 0 and so is c.
pub fn job_of(row: [u64; 16]) -> Job
    ensures { result ≡ job_of row }
{
    Job {
        kind: numbers::byte(row[0]),
        key: machine::response_of(row[1]),
        care: machine::response_of(row[2]),
        x: ResponseBit(numbers::byte(row[3])),
        y: ResponseBit(numbers::byte(row[4])),
        a: span(row[5], row[6]),
        b: span(row[7], row[8]),
        p: span(row[9], row[10]),
        phase: 0,
        i: 0,
        j: 0,
        c: 0,
    }
}

// The text of the board's console: a line's words and numbers, taken apart. `output` puts an answer's bytes together.
// It knows nothing of the machine. docs/BOARD.md has the language.
#![tactic(auto)]

pub mod arguments;
pub mod numbers;
pub mod words;

// Where a word stands in a line: from its first byte to the place after its last.
#[derive(Clone, Copy, PartialEq, Eq)]
pub struct Place {
    pub from: usize,
    pub to: usize,
}

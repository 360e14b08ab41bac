// The cells of one word, each passing on to the next: statuses from the top bit down, carries from the bottom up.
// Document 01: 'The cells', and what search, write and add do to one word.
#![tactic(auto)]

pub mod add;
pub mod bits;
pub mod search;
pub mod syllables;

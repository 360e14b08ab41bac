// The program `board`: the console at a terminal. It reads commands from standard input, one to a line, gives each to the library
// and prints the answer before it reads the next. docs/BOARD.md teaches it. Bad lines never stop it; the end of the input does.
#![tactic(auto)]

ghost use Rattle.board.specs.Taking.{stands_after, prints};

use console_commands::{Board, Outcome};
use machine::Response;
use serving::Console;
use std::io;

// What stands between two lines: the board, its two buffers of 2,048 entries, and the console's room for an image.
#[derive(Drop)]
struct Standing {
    board: Board,
    words: [u64; 2048],
    responses: [Response; 2048],
    bytes: [u8; 20000],
}

impl Console for Standing {
    ghost obeyed = { stands_after };

    ghost answered = { prints };

    fn obey(&mut self, line: &[u8], out: &mut [u8]) -> usize {
        let turn = console::obey(
            self.board,
            line,
            &mut self.words,
            &mut self.responses,
            &mut self.bytes,
        );
        self.board = turn.board;
        console_replies::put(out, turn.outcome, &self.bytes)
    }

    fn bad_line(&self, out: &mut [u8]) -> usize {
        console_replies::put(out, Outcome::BadLine, &self.bytes)
    }
}

// "It starts as after `machine 8 3`." Every answer has room in 65,536 bytes, as `console_replies` proves.
fn main(rt: HostRuntime) -> io::Result<()> {
    let mut standing = Standing {
        board: console_commands::fresh(8, 3),
        words: [0; 2048],
        responses: [0; 2048],
        bytes: [0; 20000],
    };
    let mut out = [0u8; 65536];
    serving::serve(&mut standing, &mut rt.stdin(), &mut rt.stdout(), &mut out)
}

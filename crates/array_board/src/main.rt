// The program `array_board`: the console of the array of three-state cells. It reads commands from standard input, one to a line,
// gives each to the library and prints the answer before it reads the next. docs/BOARD.md teaches it. Bad lines never stop it; the
// end of the input does.
#![tactic(auto)]

ghost use Rattle.array_board.specs.Taking.{stands_after, prints};

use array_console::{Outcome, Rack};
use serving::Console;
use std::io;

// What stands between two lines: the rack, and the array's three buffers of 2,048 entries.
#[derive(Drop)]
struct Standing {
    rack: Rack,
    ones: [u64; 2048],
    xs: [u64; 2048],
    selectors: [u8; 2048],
}

impl Console for Standing {
    ghost obeyed = { stands_after };

    ghost answered = { prints };

    fn obey(&mut self, line: &[u8], out: &mut [u8]) -> usize {
        let turn = array_console::obey(
            self.rack,
            line,
            &mut self.ones,
            &mut self.xs,
            &mut self.selectors,
        );
        self.rack = turn.rack;
        array_replies::put(
            out,
            turn.outcome,
            self.rack,
            &self.ones,
            &self.xs,
            &self.selectors,
        )
    }

    fn bad_line(&self, out: &mut [u8]) -> usize {
        array_replies::put(
            out,
            Outcome::BadLine,
            self.rack,
            &self.ones,
            &self.xs,
            &self.selectors,
        )
    }
}

// "It starts as after `cells3 8 3`." Every answer has room in 131,072 bytes, as `array_replies` proves.
fn main(rt: HostRuntime) -> io::Result<()> {
    let mut standing = Standing {
        rack: array_console::fresh(8, 3),
        ones: [0; 2048],
        xs: [0; 2048],
        selectors: [0; 2048],
    };
    let mut out = [0u8; 131072];
    serving::serve(&mut standing, &mut rt.stdin(), &mut rt.stdout(), &mut out)
}

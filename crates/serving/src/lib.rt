// A console at a terminal, line by line: it reads commands from an input, one to a line, and prints the answer to each before it reads
// the next. docs/BOARD.md teaches the consoles that are served so. Bad lines never stop it; the end of the input does.
#![tactic(auto)]

ghost use Rattle.std.specs.Prelude.{◌≡◌, ℕ, ◌≤◌, List, length};
ghost use Rattle.text.specs.Words.{words_of};
ghost use Rattle.output.specs.Puts.{Puts};
ghost use Rattle.serving.specs.Taking.{taken, bad_line};

use lines::Line;
use std::io;
use std::io::{Read, Write};

// A console obeys lines, one after the other. It puts an answer from the start of a lent buffer, and says how many bytes it has.
pub trait Console {
    // what stands after a line of these words, and what is printed of it
    ghost obeyed: { Self → List (List ℕ) → Self };

    ghost answered: { Self → List (List ℕ) → List ℕ };

    fn obey(&mut self, line: &[u8], out: &mut [u8]) -> usize
        ensures stands { self.new ≡ obeyed self.old (words_of line.now) }
        ensures prints { Puts (answered self.old (words_of line.now)) 0 out.old out.new result };

    // The answer to a line that it does not look at, since it is too long.
    fn bad_line(&self, out: &mut [u8]) -> usize
        ensures { Puts bad_line 0 out.old out.new result };
}

// "A line with no word, and one whose first byte is `#`, prints nothing, however long"; any other that is too long is a bad one.
#[tactic(auto, unfolding(crate::specs::Taking::taken))]
fn take<C: Console, W: Write>(
    console: &mut C,
    to: &mut W,
    found: Line,
    line: &[u8],
    out: &mut [u8],
) -> io::Result<()>
    ensures { console.new ≡ taken C.obeyed console.old found line.now }
{
    if lines::is_silent(found, line) {
        return Ok(());
    }
    if found.longer {
        let n = console.bad_line(out);
        return output::write(to, out, n);
    }
    let n = console.obey(line, out);
    output::write(to, out, n)
}

// "It ends at the end of the input." A proved loop has to end, and nothing says that the input does, so it counts its turns up to a
// number that no run reaches. A command has at most 20,000 bytes.
pub fn serve<C: Console, R: Read, W: Write>(
    console: &mut C,
    source: &mut R,
    to: &mut W,
    out: &mut [u8],
) -> io::Result<()> {
    let mut chunk = [0u8; 65536];
    let mut line = [0u8; 20000];
    let mut reader = lines::start();
    for _ in 0..u64::MAX {
        if !reader.open {
            return Ok(());
        }
        let found = lines::next(source, &mut reader, &mut chunk, &mut line);
        take(console, to, found, &line[..found.kept], out)?;
    }
    Ok(())
}

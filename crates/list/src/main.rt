// The program `list`: reads an image from standard input and prints the head and a line for each word, or why the bytes are
// no image. Document 01, figure 13. `listing` has what is printed.
#![tactic(auto)]

ghost use Rattle.std.specs.Prelude.{◌≤◌, length};

use std::io;
use std::io::{Read, Write};

const NEWLINE: u8 = 10;

fn list<W: Write>(to: &mut W, image: &[u8], out: &mut [u8]) -> io::Result<()> {
    let n = listing::put(out, image);
    let end = output::put_byte(out, n, NEWLINE);
    output::write(to, out, end)
}

// Reads until `bytes` is full or the input ends, and answers how many bytes were read. An error counts as the end of the input.
fn read_full<R: Read>(source: &mut R, bytes: &mut [u8]) -> usize
    ensures { result ≤ length bytes.new }
{
    let mut got: usize = 0;
    // a turn goes on behind what was read, and not by one, so no range counts the turns
    while got < bytes.len() {
        let more = source.read(&mut bytes[got..]).unwrap_or(0);
        if more == 0 {
            return got;
        }
        got += more;
    }
    got
}

// With one byte more than the longest image has, what is wrong with a longer input is found already.
const ROOM: usize = image_layout::LONGEST + 1;

// The longest list has less than 65,536 bytes, as `listing` proves.
fn main(rt: HostRuntime) -> io::Result<()> {
    let mut bytes = [0u8; ROOM];
    let got = read_full(&mut rt.stdin(), &mut bytes);
    let mut out = [0u8; 65536];
    list(&mut rt.stdout(), &bytes[..got], &mut out)
}

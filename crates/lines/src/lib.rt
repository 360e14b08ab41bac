// An input, line by line: "bytes, split at newlines; a last line with no newline counts". Input is read only once every line
// that has come is taken, so a caller that answers each line before it asks for the next answers at once.
#![tactic(auto)]

ghost use Rattle.std.specs.Prelude.{true, ◌≡◌, ℕ, ◌≤◌, ◌<◌, List, [], ◌∷◌, ◌++◌, length, MatchOption};
ghost use Rattle.lines.specs.Input as input;
ghost use Rattle.lines.specs.Pieces as pieces;
ghost use Rattle.lines.specs.Silence as silence;

use std::io::Read;

const NEWLINE: u8 = 10;

const SPACE: u8 = 32;

const COMMENT: u8 = 35;

// The bytes of the lent chunk that are read and not yet taken, and whether the input may have more.
#[derive(Clone, Copy)]
pub struct Reader {
    pub from: usize,
    pub to: usize,
    pub open: bool,
}

// A line: how many of its bytes are kept, whether it has more than fit, and whether it has a word, which may stand past those kept.
#[derive(Clone, Copy)]
pub struct Line {
    pub kept: usize,
    pub longer: bool,
    pub has_word: bool,
}

// Nothing is read yet, or all that was read is taken.
pub fn start() -> Reader
    ensures { (result.from ≡ 0) × (result.to ≡ 0) × (result.open ≡ true) }
{
    Reader {
        from: 0,
        to: 0,
        open: true,
    }
}

// The line of no bytes.
fn empty() -> Line
    ensures { (lent : List ℕ) → pieces.Holds lent [] result lent }
{
    Line {
        kept: 0,
        longer: false,
        has_word: false,
    }
}

// The first newline's place, if there is one.
fn newline(s: &[u8]) -> Option<usize>
    ensures { MatchOption result (input.before_newline s.now ≡ length s.now) (λ end. (end ≡ input.before_newline s.now) × (end < length s.now)) }
{
    s.iter().position(|byte| *byte == NEWLINE)
}

// Puts this byte behind the line, which keeps it if there is room.
fn put(line: &mut Line, byte: u8, kept: &mut [u8])
    ensures { (lent t : List ℕ) → pieces.Holds lent t line.old kept.old → pieces.Holds lent (t ++ (byte ∷ [])) line.new kept.new }
{
    line.has_word |= byte != SPACE;
    if line.kept < kept.len() {
        kept[line.kept] = byte;
        line.kept += 1;
    } else {
        line.longer = true;
    }
}

// Puts these bytes behind the line.
fn extend(line: &mut Line, s: &[u8], kept: &mut [u8])
    ensures { (lent t : List ℕ) → pieces.Holds lent t line.old kept.old → pieces.Holds lent (t ++ s.now) line.new kept.new }
{
    for byte in s {
        put(line, *byte, kept);
    }
}

// One read. An error counts as the end of the input.
fn fill<R: Read>(source: &mut R, chunk: &mut [u8]) -> Reader {
    let to = source.read(chunk).unwrap_or(0);
    Reader {
        from: 0,
        to,
        open: to > 0,
    }
}

// Takes the bytes that are left of the last read up to a newline, which is passed over, or all of them; whether the line is whole.
fn take(reader: &mut Reader, line: &mut Line, chunk: &[u8], kept: &mut [u8]) -> bool
    requires from_le_to { reader.old.from ≤ reader.old.to }
    requires to_in_bounds { reader.old.to ≤ length chunk.now }
    ensures by_index { (lent t : List ℕ) → pieces.Holds lent t line.old kept.old → pieces.Holds lent (t ++ pieces.up_to_newline (pieces.between reader.old.from reader.old.to chunk.now)) line.new kept.new }
    ensures reader_value { input.before_newline (pieces.between reader.old.from reader.old.to chunk.now) < length (pieces.between reader.old.from reader.old.to chunk.now) → (reader.new ≡ pieces.behind reader.old.from reader.old.to (pieces.between reader.old.from reader.old.to chunk.now)) × (result ≡ true) }
{
    let part = &chunk[reader.from..reader.to];
    match newline(part) {
        Some(end) => {
            extend(line, &part[..end], kept);
            *reader = Reader {
                from: reader.from + end + 1,
                to: reader.to,
                open: true,
            };
            true
        }
        None => {
            extend(line, part, kept);
            *reader = start();
            false
        }
    }
}

// Takes what is left of the last read; where nothing is, reads once more. The end of the input ends the line. Whether it is whole.
fn more<R: Read>(
    source: &mut R,
    reader: &mut Reader,
    line: &mut Line,
    chunk: &mut [u8],
    kept: &mut [u8],
) -> bool
    ensures by_index { (lent t : List ℕ) → pieces.Holds lent t line.old kept.old → pieces.Holds lent (t ++ input.first_line reader.old chunk.old) line.new kept.new }
    ensures reader_value { input.Whole reader.old chunk.old → (reader.new ≡ input.behind_newline reader.old chunk.old) × ((result ≡ true) × (chunk.new ≡ chunk.old)) }
{
    if (reader.from < reader.to) & (reader.to <= chunk.len()) {
        return take(reader, line, chunk, kept);
    }
    *reader = fill(source, chunk);
    !reader.open
}

// The next line, its bytes from the start of `kept`. A line that is read to its newline already is taken without another read; of
// any other the input decides. The first turn stands before the loop, for it alone takes what was read before. A proved loop has to
// end, and nothing says that the input does, so it counts its turns up to a number that no run reaches.
pub fn next<R: Read>(source: &mut R, reader: &mut Reader, chunk: &mut [u8], kept: &mut [u8]) -> Line
    ensures reader_value { input.Whole reader.old chunk.old → (reader.new ≡ input.behind_newline reader.old chunk.old) × ((result ≡ input.line_of (length kept.old) (input.first_line reader.old chunk.old)) × ((kept.new ≡ input.kept_of (input.first_line reader.old chunk.old) kept.old) × (chunk.new ≡ chunk.old))) }
    ensures by_index { (s : List ℕ) × (input.Taken (length kept.old) (input.first_line reader.old chunk.old) s result × (kept.new ≡ input.kept_of s kept.old)) }
{
    let mut line = empty();
    if more(source, reader, &mut line, chunk, kept) {
        return line;
    }
    for _ in 0..u64::MAX {
        if more(source, reader, &mut line, chunk, kept) {
            return line;
        }
    }
    line
}

// ---- which lines are answered

fn is_comment(kept: &[u8]) -> bool
    ensures { result ≡ silence.is_comment kept.now }
{
    matches!(kept, [COMMENT, ..])
}

// "A line with no word, and one whose first byte is `#`, prints nothing, however long."
pub fn is_silent(line: Line, kept: &[u8]) -> bool
    ensures { result ≡ silence.is_silent line kept.now }
{
    !line.has_word | is_comment(kept)
}

// The machine's types, its panel's loads, and the checks that calls share.
// Document 01: 'The machine', 'One pulse', 'Numbers given when a call is turned down'.
#![tactic(auto)]

ghost use Rattle.std.specs.Prelude.{◌≡◌, [], ◌-◌, ◌%◌, ◌^◌, ◌≤◌, ◌<◌, get_or};
ghost use Rattle.laws.specs.Bits.{pick};
ghost use Rattle.machine.specs.Panel.{registers, panel_of, load};
ghost use Rattle.machine.specs.Machine.{machine, response_bits, selected};
ghost use Rattle.machine.specs.Resolution.{lowest};
ghost use Rattle.machine.specs.Words.{union};
ghost use Rattle.machine.specs.Refusals.{bad_size, bad_width, too_wide, bad_panel, bad_lines, bad_address, in_care, refuse, refuse_word, machine_check, command_check, bit_check, apart_check, care_check, value_of, number_of, also_answers, turn};

// A word's response bits, and how many they are: named once.
pub type Response = u8;

pub const RESPONSE_BITS: u32 = 8;

// "Bit-slices and word-slices are numbered apart, and neither number stands for the other."
#[derive(Clone, Copy, PartialEq, Eq)]
pub struct WordSlice(pub usize);

#[derive(Clone, Copy, PartialEq, Eq)]
pub struct BitSlice(pub u8);

// The number of a response bit; it is no bit-slice's and no word-slice's.
#[derive(Clone, Copy, PartialEq, Eq)]
pub struct ResponseBit(pub u8);

// "The panel holds five N-bit registers .., three 8-bit ones .. and an address."
#[derive(Clone, Copy)]
pub struct Panel {
    pub comp: u64,
    pub sdr: u64,
    pub sc1: u64,
    pub sc2: u64,
    pub mor: u64,
    pub key: Response,
    pub care: Response,
    pub target: Response,
    pub address: WordSlice,
    // 02 c: "a third search register SC3"
    pub sc3: u64,
}

impl Panel {
    // All registers 0. Every other panel is one of these with registers set, so that one more register changes no other place.
    pub fn blank() -> Panel
        ensures { result ≡ panel_of [] }
    {
        Panel {
            comp: 0,
            sdr: 0,
            sc1: 0,
            sc2: 0,
            mor: 0,
            key: 0,
            care: 0,
            target: 0,
            address: WordSlice(0),
            sc3: 0,
        }
    }

    // "Loading one register of the panel changes that register and no other."
    pub fn load_comp(mut self, value: u64) -> Panel
        ensures { registers result ≡ load 0 value self }
    {
        self.comp = value;
        self
    }

    pub fn load_sdr(mut self, value: u64) -> Panel
        ensures { registers result ≡ load 1 value self }
    {
        self.sdr = value;
        self
    }

    pub fn load_sc1(mut self, value: u64) -> Panel
        ensures { registers result ≡ load 2 value self }
    {
        self.sc1 = value;
        self
    }

    pub fn load_sc2(mut self, value: u64) -> Panel
        ensures { registers result ≡ load 3 value self }
    {
        self.sc2 = value;
        self
    }

    pub fn load_mor(mut self, value: u64) -> Panel
        ensures { registers result ≡ load 4 value self }
    {
        self.mor = value;
        self
    }

    pub fn load_key(mut self, value: Response) -> Panel
        ensures { registers result ≡ load 5 value self }
    {
        self.key = value;
        self
    }

    pub fn load_care(mut self, value: Response) -> Panel
        ensures { registers result ≡ load 6 value self }
    {
        self.care = value;
        self
    }

    pub fn load_target(mut self, value: Response) -> Panel
        ensures { registers result ≡ load 7 value self }
    {
        self.target = value;
        self
    }

    pub fn load_address(mut self, value: WordSlice) -> Panel
        ensures { registers result ≡ load 8 value.0 self }
    {
        self.address = value;
        self
    }

    pub fn load_sc3(mut self, value: u64) -> Panel
        ensures { registers result ≡ load 9 value self }
    {
        self.sc3 = value;
        self
    }
}

// "Seven lines: search, read, write, add (the last three at the address), multiwrite, multiadd, complement."
#[derive(Clone, Copy)]
pub struct Lines {
    pub search: bool,
    pub read: bool,
    pub write: bool,
    pub add: bool,
    pub multiwrite: bool,
    pub multiadd: bool,
    pub complement: bool,
}

// The code of a bit in a search.
#[derive(Clone, Copy, PartialEq, Eq)]
pub enum Code {
    DontCare,
    Exact,
    Larger,
    Smaller,
}

// What a syllable's cells pass on from top bit to bottom.
#[derive(Clone, Copy, PartialEq, Eq)]
pub enum Status {
    Equal,
    For,
    Against,
}

// The syllable of a job that a refusal names. 02 d: "A before B before P".
#[derive(Clone, Copy)]
pub enum Syllable {
    A,
    B,
    P,
}

// Why a call is turned down, in the order in which it is checked.
#[derive(Clone, Copy)]
pub enum Refusal {
    Size,
    Width,
    WordTooWide(WordSlice),
    PanelTooWide,
    TwoCodes,
    WrongLines,
    NoSuchWord,
    EmptySyllable(Syllable),
    BeyondWord(Syllable),
    Overlap(Syllable),
    NoSuchBit,
    BitsClash,
    WrongJob,
    Malformed(usize),
    NoRoom,
    NotShown,
}

// Document 01's number of each; 20 to 25 are 02 d's.
pub fn number_of(why: Refusal) -> u64
    ensures { (result ≡ number_of why) × (result < 256) }
{
    match why {
        Refusal::Size => 1,
        Refusal::Width => 2,
        Refusal::WordTooWide(_) => 3,
        Refusal::PanelTooWide => 4,
        Refusal::TwoCodes => 5,
        Refusal::WrongLines => 6,
        Refusal::NoSuchWord => 7,
        Refusal::EmptySyllable(_) => 20,
        Refusal::BeyondWord(_) => 21,
        Refusal::Overlap(_) => 22,
        Refusal::NoSuchBit => 23,
        Refusal::BitsClash => 24,
        Refusal::WrongJob => 25,
        Refusal::Malformed(_) => 9,
        Refusal::NoRoom => 10,
        Refusal::NotShown => 11,
    }
}

// The value that names it.
impl From<Syllable> for u64 {
    ghost from_gives = { λ syllable value. value ≡ value_of syllable };

    fn from(syllable: Syllable) -> u64 {
        match syllable {
            Syllable::A => 1,
            Syllable::B => 2,
            Syllable::P => 3,
        }
    }
}

// What it also answers, 0 for nothing.
pub fn also_of(why: Refusal) -> u64
    ensures { result ≡ also_answers why }
{
    match why {
        Refusal::WordTooWide(word) => word.0 as u64,
        Refusal::EmptySyllable(syllable) => u64::from(syllable),
        Refusal::BeyondWord(syllable) => u64::from(syllable),
        Refusal::Overlap(syllable) => u64::from(syllable),
        Refusal::Malformed(place) => place as u64,
        Refusal::Size
        | Refusal::Width
        | Refusal::PanelTooWide
        | Refusal::TwoCodes
        | Refusal::WrongLines
        | Refusal::NoSuchWord
        | Refusal::NoSuchBit
        | Refusal::BitsClash
        | Refusal::WrongJob
        | Refusal::NoRoom
        | Refusal::NotShown => 0,
    }
}

// When its number's turn is: "20 to 25 stand in its place in the order".
pub fn turn_of(why: Refusal) -> u64
    ensures { result ≡ turn (number_of why) }
{
    match why {
        Refusal::Size => 0,
        Refusal::Width => 1,
        Refusal::WordTooWide(_) => 2,
        Refusal::PanelTooWide => 3,
        Refusal::TwoCodes => 4,
        Refusal::WrongLines => 5,
        Refusal::NoSuchWord => 6,
        Refusal::EmptySyllable(_) => 7,
        Refusal::BeyondWord(_) => 8,
        Refusal::Overlap(_) => 9,
        Refusal::NoSuchBit => 10,
        Refusal::BitsClash => 11,
        Refusal::WrongJob => 12,
        Refusal::Malformed(_) => 13,
        Refusal::NoRoom => 14,
        Refusal::NotShown => 15,
    }
}

// What a pulse that is not turned down answers.
#[derive(Clone, Copy)]
pub struct Answer {
    pub count: usize,
    pub read: u64,
}

// ---- words and responses

// The k lowest bits.
pub fn low_bits(k: u32) -> u64
    requires { (0 < k) × (k ≤ 64) }
    ensures { result ≡ 2 ^ k - 1 }
{
    u64::MAX >> (64 - k)
}

// The definition asks bit by bit; the code asks all bits at once.
pub fn is_selected(key: Response, care: Response, response: Response) -> bool
    ensures { result ≡ selected key care response }
{
    (response & care) == (key & care)
}

// A number's low bits as a response.
pub fn response_of(x: u64) -> Response
    ensures { result ≡ x % 2 ^ response_bits }
{
    (x % (1u64 << RESPONSE_BITS)) as Response
}

// ---- a chain of checks: "Checked in number order"

pub fn refuse<R: Drop>(why: R, when: bool) -> Result<(), R>
    ensures { result ≡ refuse why when }
{
    if when { Err(why) } else { Ok(()) }
}

// ---- the checks that calls share, in the table's order

pub fn bad_size(words: usize, responses: usize) -> bool
    ensures { result ≡ bad_size words responses }
{
    (words == 0) | ((1024 < words) | !(responses == words))
}

pub fn bad_width(width: u32) -> bool
    ensures { result ≡ bad_width width }
{
    (width == 0) | (64 < width)
}

// Any width: a number of 64 bits has no one at or above bit 64.
pub fn too_wide(width: u32, x: u64) -> bool
    ensures { result ≡ too_wide width x }
{
    if width < 64 {
        let above = x >> width;
        0 < above
    } else {
        false
    }
}

fn first_too_wide(width: u32, words: &[u64]) -> Option<WordSlice>
    ensures { result ≡ lowest (too_wide width) 0 words.now }
{
    for (i, word) in words.iter().enumerate() {
        if too_wide(width, *word) {
            return Some(WordSlice(i));
        }
    }
    None
}

fn refuse_word(found: Option<WordSlice>) -> Result<(), Refusal>
    ensures { result ≡ refuse_word found }
{
    match found {
        Some(k) => Err(Refusal::WordTooWide(k)),
        None => Ok(()),
    }
}

// The bits of all words together.
fn union_of(words: &[u64]) -> u64
    ensures { result ≡ union 0 words.now }
{
    words.iter().fold(0, |all, word| all | *word)
}

// 3: the OR of all words first, and the scan for the lowest only if that is too wide.
fn check_words(width: u32, words: &[u64]) -> Result<(), Refusal>
    ensures { result ≡ refuse_word (lowest (too_wide width) 0 words.now) }
{
    if width < 64 {
        if too_wide(width, union_of(words)) {
            refuse_word(first_too_wide(width, words))
        } else {
            Ok(())
        }
    } else {
        Ok(())
    }
}

// 1 to 3: what every call that is lent a machine is checked for first.
#[tactic(auto, using(crate::proofs::Refusals::handed), unfolding(crate::specs::Refusals::machine_check))]
pub fn check_machine(words: &[u64], responses: &[Response], width: u32) -> Result<(), Refusal>
    ensures { result ≡ machine_check (machine width words.now responses.now) }
{
    refuse(Refusal::Size, bad_size(words.len(), responses.len()))?;
    refuse(Refusal::Width, bad_width(width))?;
    check_words(width, words)
}

pub fn bad_panel(width: u32, panel: Panel) -> bool
    ensures { result ≡ bad_panel width panel }
{
    too_wide(width, panel.comp)
        | too_wide(width, panel.sdr)
        | too_wide(width, panel.sc1)
        | too_wide(width, panel.sc2)
        | too_wide(width, panel.mor)
        | too_wide(width, panel.sc3)
}

fn bad_lines(lines: Lines) -> bool
    ensures { result ≡ bad_lines lines }
{
    let raised = u32::from(lines.search)
        + u32::from(lines.read)
        + u32::from(lines.write)
        + u32::from(lines.add)
        + u32::from(lines.multiwrite)
        + u32::from(lines.multiadd)
        + u32::from(lines.complement);
    (raised == 0) | (2 < raised) | (lines.complement & !(raised == 1))
}

fn bad_address(words: usize, panel: Panel, lines: Lines) -> bool
    ensures { result ≡ bad_address words panel lines }
{
    (lines.read | lines.write | lines.add) & (words <= panel.address.0)
}

// 6 and 7.
pub fn check_command(words: usize, panel: Panel, lines: Lines) -> Result<(), Refusal>
    ensures { result ≡ command_check words panel lines }
{
    refuse(Refusal::WrongLines, bad_lines(lines))?;
    refuse(Refusal::NoSuchWord, bad_address(words, panel, lines))
}

// ---- what both machines read

// "Read gives the word before the pulse." "Read's word is 0 if read isn't raised."
pub fn read_word(panel: Panel, lines: Lines, words: &[u64]) -> u64
    ensures { result ≡ pick lines.read (get_or words.now panel.address.0 0) 0 }
{
    if lines.read {
        words.get(panel.address.0).copied().unwrap_or(0)
    } else {
        0
    }
}

// ---- 02 d, of response bits: what jobs and rounds share

// 23: "response bit above 7"
pub fn check_bit(x: ResponseBit) -> Result<(), Refusal>
    ensures { result ≡ bit_check x }
{
    refuse(Refusal::NoSuchBit, RESPONSE_BITS <= x.0 as u32)
}

// 24: "working bits clash"
pub fn check_apart(x: ResponseBit, y: ResponseBit) -> Result<(), Refusal>
    ensures { result ≡ apart_check x y }
{
    refuse(Refusal::BitsClash, x == y)
}

// No response has a bit above its last, so care has none there either.
fn in_care(care: Response, x: ResponseBit) -> bool
    ensures { result ≡ in_care care x }
{
    let i = x.0;
    if (i as u32) < RESPONSE_BITS {
        (care >> i) % 2 == 1
    } else {
        false
    }
}

// 24: "or stand in care"
pub fn check_care(care: Response, x: ResponseBit) -> Result<(), Refusal>
    ensures { result ≡ care_check care x }
{
    refuse(Refusal::BitsClash, in_care(care, x))
}

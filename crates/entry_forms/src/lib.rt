// What a caller in another language hands over, taken apart, and what it is told: numbers and lent buffers only. The entry points
// stand on this (docs/DECISIONS.md, 'The library for C'; include/dushvaneth.h tells callers).
#![tactic(auto)]

pub mod records;

ghost use Rattle.std.specs.Prelude.{◌≡◌, ◌*◌, ◌<◌, ◌≤◌, length, get_or};
ghost use Rattle.laws.specs.Bits.{digit};
ghost use Rattle.machine.specs.Refusals.{number_of};
ghost use Rattle.resolver.specs.Answers.{told};
ghost use Rattle.entry_forms.specs.Numbers as forms;

use machine::{
    Lines, Panel, RESPONSE_BITS, Refusal, WordSlice, also_of, refuse, response_of, too_wide,
    turn_of,
};

// ---- several things wrong at once

pub fn lower_of(own: Refusal, other: Result<(), Refusal>) -> Refusal
    ensures { result ≡ forms.lower_of own other }
{
    match other {
        Err(why) if turn_of(why) < turn_of(own) => why,
        _ => own,
    }
}

pub fn lower(first: Result<(), Refusal>, second: Result<(), Refusal>) -> Result<(), Refusal>
    ensures { result ≡ forms.lower first second }
{
    match first {
        Ok(()) => second,
        Err(why) => Err(lower_of(why, second)),
    }
}

// ---- a panel

pub const PANEL_SIZE: usize = 10;

fn register(registers: &[u64], k: usize) -> u64
    ensures { result ≡ get_or registers.now k 0 }
{
    registers.get(k).copied().unwrap_or(0)
}

fn too_narrow(registers: &[u64], k: usize) -> bool
    ensures { result ≡ forms.overflows registers.now k }
{
    too_wide(RESPONSE_BITS, register(registers, k))
}

pub fn check_panel(registers: &[u64]) -> Result<(), Refusal>
    ensures { result ≡ forms.panel_check registers.now }
{
    refuse(Refusal::Size, registers.len() != PANEL_SIZE)?;
    // Named one by one: these three are the registers of 8 bits.
    let narrow = too_narrow(registers, 5) | (too_narrow(registers, 6) | too_narrow(registers, 7));
    refuse(Refusal::PanelTooWide, narrow)
}

// What a register of 8 bits can't hold of its number is left out; a panel that has such a number is refused.
pub fn panel_of(registers: &[u64]) -> Panel
    ensures { result ≡ forms.panel_in registers.now }
{
    Panel {
        comp: register(registers, 0),
        sdr: register(registers, 1),
        sc1: register(registers, 2),
        sc2: register(registers, 3),
        mor: register(registers, 4),
        key: response_of(register(registers, 5)),
        care: response_of(register(registers, 6)),
        target: response_of(register(registers, 7)),
        address: WordSlice(register(registers, 8) as usize),
        sc3: register(registers, 9),
        ..Panel::blank()
    }
}

// ---- the line byte

fn is_raised(lines: u8, i: u32) -> bool
    requires { i < 8 }
    ensures { result ≡ forms.raised lines i }
{
    (lines >> i) % 2 == 1
}

pub fn lines_of(lines: u8) -> Lines
    ensures { result ≡ forms.lines_of lines }
{
    Lines {
        search: is_raised(lines, 0),
        read: is_raised(lines, 1),
        write: is_raised(lines, 2),
        add: is_raised(lines, 3),
        multiwrite: is_raised(lines, 4),
        multiadd: is_raised(lines, 5),
        complement: is_raised(lines, 6),
    }
}

pub fn check_lines(lines: u8) -> Result<(), Refusal>
    ensures { result ≡ forms.lines_check lines }
{
    refuse(Refusal::WrongLines, is_raised(lines, 7))
}

// The byte of the lines that a command raises.
pub fn line_byte(lines: Lines) -> u64
    ensures { result ≡ forms.line_byte lines }
{
    u64::from(lines.search)
        + 2 * u64::from(lines.read)
        + 4 * u64::from(lines.write)
        + 8 * u64::from(lines.add)
        + 16 * u64::from(lines.multiwrite)
        + 32 * u64::from(lines.multiadd)
        + 64 * u64::from(lines.complement)
}

// ---- the answer

pub fn check_room(numbers: usize, room: usize) -> Result<(), Refusal>
    ensures { result ≡ forms.room_check numbers room }
{
    refuse(Refusal::NoRoom, room < numbers)
}

// All of the numbers, or none where they have no room.
pub fn tell(answer: &mut [u64], numbers: &[u64])
    ensures { answer.new ≡ forms.tell_in numbers.now answer.old }
{
    if numbers.len() <= answer.len() {
        answer[..numbers.len()].copy_from_slice(numbers);
    }
}

// What a function returns.
pub fn number_of(why: Refusal) -> u32
    ensures { result ≡ number_of why }
{
    machine::number_of(why) as u32
}

// What resolution and show answer. Each kind of answer has a function like this one: the numbers told of each are of its own definition.
pub const RESOLVED_SIZE: usize = 4;

pub fn tell_resolved(answer: &mut [u64], found: Result<Option<WordSlice>, Refusal>) -> u32
    ensures value { result ≡ (told found).refusal }
    ensures answer_after { answer.new ≡ forms.tell_in (forms.resolved_numbers (told found)) answer.old }
{
    match found {
        Ok(Some(word)) => {
            tell(answer, &[0, 0, 1, word.0 as u64]);
            0
        }
        Ok(None) => {
            tell(answer, &[0, 0, 0, 0]);
            0
        }
        Err(why) => {
            tell(answer, &[machine::number_of(why), also_of(why), 0, 0]);
            number_of(why)
        }
    }
}

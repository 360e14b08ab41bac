// Entry points for programs in other languages: both machines' operations on the array of three-state cells, by numbers and lent buffers;
// include/dushvaneth.h tells callers. Document 02, request a.
#![tactic(auto)]

ghost use Rattle.std.specs.Prelude.{◌≡◌, [], ◌∷◌, ◌+◌, ◌<◌, Ok, Err, length};
ghost use Rattle.array.specs.Operations.{array};
ghost use Rattle.array.specs.Refusals.{call_check, answer_of, after, also_answers, told};
ghost use Rattle.entry_forms.specs.Numbers.{tell_in};
ghost use Rattle.array_entries.specs.Numbers as numbers;

use array::{Answer, Operation, Refusal, Registers};
use entry_forms::tell;

// Digit k of a code, to the base 4: the place of a choice's name.
fn digit_of(code: u32, k: usize) -> usize
    requires { k < 16 }
    ensures { result ≡ numbers.digit_of code k }
{
    ((code >> (2 * k)) % 4) as usize
}

// Whether the digits from digit 1 up are each the place of one of so many names, and there is none above the last of them.
fn is_named(code: u32, names: &[usize]) -> bool
    requires { length names.now < 15 }
    ensures { result ≡ numbers.named code 1 names.now }
{
    for (i, most) in names.iter().enumerate() {
        if *most <= digit_of(code, i + 1) {
            return false;
        }
    }
    code >> (2 * (names.len() + 1)) == 0
}

fn search_of(code: u32) -> Option<Operation>
    ensures { result ≡ numbers.search_of code }
{
    if !is_named(code, &[2, 3, 2, 2, 3]) {
        return None;
    }
    Some(Operation::Search {
        source: array_lines::source_at(digit_of(code, 1)),
        mask: array_lines::mask_at(digit_of(code, 2)),
        wanted: array_lines::wanted_at(digit_of(code, 3)),
        destination: array_lines::latches_at(digit_of(code, 4)),
        combine: array_lines::combine_at(digit_of(code, 5)),
    })
}

fn read_of(code: u32) -> Option<Operation>
    ensures { result ≡ numbers.read_of code }
{
    if !is_named(code, &[3, 2, 3, 3]) {
        return None;
    }
    Some(Operation::Read {
        selector: array_lines::selector_at(digit_of(code, 1)),
        form: array_lines::form_at(digit_of(code, 2)),
        sink: array_lines::sink_at(digit_of(code, 3)),
        mask: array_lines::mask_at(digit_of(code, 4)),
    })
}

fn write_of(code: u32) -> Option<Operation>
    ensures { result ≡ numbers.write_of code }
{
    if !is_named(code, &[2, 2, 3, 3, 2]) {
        return None;
    }
    Some(Operation::Write {
        kind: array_lines::kind_at(digit_of(code, 1)),
        source: array_lines::source_at(digit_of(code, 2)),
        mask: array_lines::mask_at(digit_of(code, 3)),
        selector: array_lines::selector_at(digit_of(code, 4)),
        form: array_lines::form_at(digit_of(code, 5)),
    })
}

fn operation_of(code: u32) -> Option<Operation>
    ensures { result ≡ numbers.operation_of code }
{
    match digit_of(code, 0) {
        0 => search_of(code),
        1 => read_of(code),
        2 => write_of(code),
        _ => None,
    }
}

const ANSWER_SIZE: usize = 6;

// What an entry is asked for by its code and the room for its answer: an operation, or the number that it is turned down with.
fn order_of(code: u32, room: usize) -> Result<Operation, u32>
    ensures { result ≡ numbers.order_of (numbers.operation_of code) room }
{
    let operation = operation_of(code).ok_or(6u32)?;
    if room < ANSWER_SIZE {
        return Err(10);
    }
    Ok(operation)
}

fn registers_of(registers: &[u64]) -> Registers
    requires { length registers.now ≡ 3 }
    ensures { result ≡ numbers.registers_of registers.now }
{
    Registers {
        r1: registers[0],
        r2: registers[1],
        m: registers[2],
    }
}

// ---- what a caller is told

fn also_of(why: Refusal) -> u64
    ensures { result ≡ also_answers why }
{
    match why {
        Refusal::WordTooWide(word) => word.0 as u64,
        Refusal::Size | Refusal::Width | Refusal::NoCell | Refusal::RegisterTooWide => 0,
    }
}

fn tell_refused(answer: &mut [u64], number: u32, also: u64) -> u32
    ensures value { result ≡ number }
    ensures answer_after { answer.new ≡ tell_in (number ∷ also ∷ 0 ∷ 0 ∷ 0 ∷ 0 ∷ []) answer.old }
{
    tell(answer, &[u64::from(number), also, 0, 0, 0, 0]);
    number
}

fn refuse(answer: &mut [u64], why: Refusal) -> u32
    ensures value { result ≡ (told (Err why)).refusal }
    ensures answer_after { answer.new ≡ tell_in (numbers.numbers_of (told (Err why))) answer.old }
{
    let number = array::number_of(why) as u32;
    tell_refused(answer, number, also_of(why))
}

// The registers after an accepted operation are stored.
fn settle(answer: &mut [u64], registers: &mut [u64], given: Result<Answer, Refusal>) -> u32
    requires { length registers.old ≡ 3 }
    ensures value { result ≡ (told given).refusal }
    ensures answer_after { answer.new ≡ tell_in (numbers.numbers_of (told given)) answer.old }
    ensures registers_after { registers.new ≡ numbers.loaded given registers.old }
{
    match given {
        Ok(done) => {
            let Registers { r1, r2, m } = done.registers;
            registers.copy_from_slice(&[r1, r2, m]);
            tell(answer, &[0, 0, r1, r2, m, done.count as u64]);
            0
        }
        Err(why) => refuse(answer, why),
    }
}

// What an entry is turned down with by itself counts only where nothing is wrong with the array and its registers.
fn turn_down(
    answer: &mut [u64],
    ones: &[u64],
    xs: &[u64],
    selectors: &[u8],
    width: u32,
    held: Registers,
    number: u32,
) -> u32
    ensures value { result ≡ (numbers.turned (call_check (array width ones.now xs.now selectors.now) held) number).refusal }
    ensures answer_after { answer.new ≡ tell_in (numbers.numbers_of (numbers.turned (call_check (array width ones.now xs.now selectors.now) held) number)) answer.old }
{
    match array::check_call(ones, xs, selectors, width, held) {
        Ok(()) => tell_refused(answer, number, 0),
        Err(why) => refuse(answer, why),
    }
}

// ---- the entries

// What both machines do: they answer alike.
trait Operates {
    fn operate(
        ones: &mut [u64],
        xs: &mut [u64],
        selectors: &mut [u8],
        width: u32,
        registers: Registers,
        operation: Operation,
    ) -> Result<Answer, Refusal>
        ensures value { result ≡ answer_of (array width ones.old xs.old selectors.old) registers operation }
        ensures ones_after { ones.new ≡ (after (array width ones.old xs.old selectors.old) registers operation).ones }
        ensures xs_after { xs.new ≡ (after (array width ones.old xs.old selectors.old) registers operation).xs }
        ensures selectors_after { selectors.new ≡ (after (array width ones.old xs.old selectors.old) registers operation).selectors };
}

struct WordWide;

impl Operates for WordWide {
    fn operate(
        ones: &mut [u64],
        xs: &mut [u64],
        selectors: &mut [u8],
        width: u32,
        registers: Registers,
        operation: Operation,
    ) -> Result<Answer, Refusal> {
        array_wide::operate(ones, xs, selectors, width, registers, operation)
    }
}

struct Plain;

impl Operates for Plain {
    fn operate(
        ones: &mut [u64],
        xs: &mut [u64],
        selectors: &mut [u8],
        width: u32,
        registers: Registers,
        operation: Operation,
    ) -> Result<Answer, Refusal> {
        array_cells::operate(ones, xs, selectors, width, registers, operation)
    }
}

#[tactic(auto, unfolding(crate::specs::Numbers::entry_told, crate::specs::Numbers::left, crate::specs::Numbers::registers_left))]
fn operate<M: Operates>(
    ones: &mut [u64],
    xs: &mut [u64],
    selectors: &mut [u8],
    registers: &mut [u64],
    width: u32,
    code: u32,
    answer: &mut [u64],
) -> u32
    ensures value { result ≡ (numbers.entry_told (array width ones.old xs.old selectors.old) registers.old code (length answer.old)).refusal }
    ensures answer_after { answer.new ≡ tell_in (numbers.numbers_of (numbers.entry_told (array width ones.old xs.old selectors.old) registers.old code (length answer.old))) answer.old }
    ensures ones_after { ones.new ≡ (numbers.left (array width ones.old xs.old selectors.old) registers.old code (length answer.old)).ones }
    ensures xs_after { xs.new ≡ (numbers.left (array width ones.old xs.old selectors.old) registers.old code (length answer.old)).xs }
    ensures selectors_after { selectors.new ≡ (numbers.left (array width ones.old xs.old selectors.old) registers.old code (length answer.old)).selectors }
    ensures registers_after { registers.new ≡ numbers.registers_left (array width ones.old xs.old selectors.old) registers.old code (length answer.old) }
{
    if registers.len() != 3 {
        return tell_refused(answer, 1, 0);
    }
    let held = registers_of(registers);
    match order_of(code, answer.len()) {
        Ok(operation) => {
            let given = M::operate(ones, xs, selectors, width, held, operation);
            settle(answer, registers, given)
        }
        Err(number) => turn_down(answer, ones, xs, selectors, width, held, number),
    }
}

#[unsafe(no_mangle)]
pub extern "C" fn dushvaneth_array_wide(
    ones: &mut [u64],
    xs: &mut [u64],
    selectors: &mut [u8],
    registers: &mut [u64],
    width: u32,
    code: u32,
    answer: &mut [u64],
) -> u32
    ensures value { result ≡ (numbers.entry_told (array width ones.old xs.old selectors.old) registers.old code (length answer.old)).refusal }
    ensures answer_after { answer.new ≡ tell_in (numbers.numbers_of (numbers.entry_told (array width ones.old xs.old selectors.old) registers.old code (length answer.old))) answer.old }
    ensures ones_after { ones.new ≡ (numbers.left (array width ones.old xs.old selectors.old) registers.old code (length answer.old)).ones }
    ensures xs_after { xs.new ≡ (numbers.left (array width ones.old xs.old selectors.old) registers.old code (length answer.old)).xs }
    ensures selectors_after { selectors.new ≡ (numbers.left (array width ones.old xs.old selectors.old) registers.old code (length answer.old)).selectors }
    ensures registers_after { registers.new ≡ numbers.registers_left (array width ones.old xs.old selectors.old) registers.old code (length answer.old) }
{
    operate::<WordWide>(ones, xs, selectors, registers, width, code, answer)
}

#[unsafe(no_mangle)]
pub extern "C" fn dushvaneth_array_cells(
    ones: &mut [u64],
    xs: &mut [u64],
    selectors: &mut [u8],
    registers: &mut [u64],
    width: u32,
    code: u32,
    answer: &mut [u64],
) -> u32
    ensures value { result ≡ (numbers.entry_told (array width ones.old xs.old selectors.old) registers.old code (length answer.old)).refusal }
    ensures answer_after { answer.new ≡ tell_in (numbers.numbers_of (numbers.entry_told (array width ones.old xs.old selectors.old) registers.old code (length answer.old))) answer.old }
    ensures ones_after { ones.new ≡ (numbers.left (array width ones.old xs.old selectors.old) registers.old code (length answer.old)).ones }
    ensures xs_after { xs.new ≡ (numbers.left (array width ones.old xs.old selectors.old) registers.old code (length answer.old)).xs }
    ensures selectors_after { selectors.new ≡ (numbers.left (array width ones.old xs.old selectors.old) registers.old code (length answer.old)).selectors }
    ensures registers_after { registers.new ≡ numbers.registers_left (array width ones.old xs.old selectors.old) registers.old code (length answer.old) }
{
    operate::<Plain>(ones, xs, selectors, registers, width, code, answer)
}

// Both machines' operations on the array of three-state cells: the entry points of `array_entries`.
ghost use Rattle.std.specs.Prelude.{◌≡◌, length};
ghost use Rattle.array.specs.Operations.{array};
ghost use Rattle.entry_forms.specs.Numbers.{tell_in};
ghost use Rattle.array_entries.specs.Numbers as numbers;

#[unsafe(no_mangle)]
pub extern "C" fn dushvaneth_array_wide(
    ones: &mut [u64],
    xs: &mut [u64],
    selectors: &mut [u8],
    registers: &mut [u64],
    width: u32,
    code: u32,
    answer: &mut [u64],
) -> u32
    ensures value { result ≡ (numbers.entry_told (array width ones.old xs.old selectors.old) registers.old code (length answer.old)).refusal }
    ensures answer_after { answer.new ≡ tell_in (numbers.numbers_of (numbers.entry_told (array width ones.old xs.old selectors.old) registers.old code (length answer.old))) answer.old }
    ensures ones_after { ones.new ≡ (numbers.left (array width ones.old xs.old selectors.old) registers.old code (length answer.old)).ones }
    ensures xs_after { xs.new ≡ (numbers.left (array width ones.old xs.old selectors.old) registers.old code (length answer.old)).xs }
    ensures selectors_after { selectors.new ≡ (numbers.left (array width ones.old xs.old selectors.old) registers.old code (length answer.old)).selectors }
    ensures registers_after { registers.new ≡ numbers.registers_left (array width ones.old xs.old selectors.old) registers.old code (length answer.old) }
{
    array_entries::dushvaneth_array_wide(ones, xs, selectors, registers, width, code, answer)
}

#[unsafe(no_mangle)]
pub extern "C" fn dushvaneth_array_cells(
    ones: &mut [u64],
    xs: &mut [u64],
    selectors: &mut [u8],
    registers: &mut [u64],
    width: u32,
    code: u32,
    answer: &mut [u64],
) -> u32
    ensures value { result ≡ (numbers.entry_told (array width ones.old xs.old selectors.old) registers.old code (length answer.old)).refusal }
    ensures answer_after { answer.new ≡ tell_in (numbers.numbers_of (numbers.entry_told (array width ones.old xs.old selectors.old) registers.old code (length answer.old))) answer.old }
    ensures ones_after { ones.new ≡ (numbers.left (array width ones.old xs.old selectors.old) registers.old code (length answer.old)).ones }
    ensures xs_after { xs.new ≡ (numbers.left (array width ones.old xs.old selectors.old) registers.old code (length answer.old)).xs }
    ensures selectors_after { selectors.new ≡ (numbers.left (array width ones.old xs.old selectors.old) registers.old code (length answer.old)).selectors }
    ensures registers_after { registers.new ≡ numbers.registers_left (array width ones.old xs.old selectors.old) registers.old code (length answer.old) }
{
    array_entries::dushvaneth_array_cells(ones, xs, selectors, registers, width, code, answer)
}

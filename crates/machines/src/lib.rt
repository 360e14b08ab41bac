// What stands twice in this house, each time with one contract: the two machines' pulse, and the two ways to resolve. Whoever lets its caller choose takes
// the choice as a type. Document 01: 'One pulse', 'The cells', Resolution.
#![tactic(auto)]

ghost use Rattle.std.specs.Prelude.{◌≡◌};
ghost use Rattle.machine.specs.Machine.{machine};
ghost use Rattle.machine.specs.Refusals.{pulse_check, answer_of, after};
ghost use Rattle.resolver.specs.Answers.{resolution};

use machine::{Answer, Lines, Panel, Refusal, Response, WordSlice};

// ---- the machines: "the word-wide one agrees with it"

pub trait Pulses {
    fn check(
        words: &[u64],
        responses: &[Response],
        width: u32,
        panel: Panel,
        lines: Lines,
    ) -> Result<(), Refusal>
        ensures { result ≡ pulse_check (machine width words.now responses.now) panel lines };

    fn pulse(
        words: &mut [u64],
        responses: &mut [Response],
        width: u32,
        panel: Panel,
        lines: Lines,
    ) -> Result<Answer, Refusal>
        ensures value { result ≡ answer_of (machine width words.old responses.old) panel lines }
        ensures words_after { words.new ≡ (after (machine width words.old responses.old) panel lines).words }
        ensures responses_after { responses.new ≡ (after (machine width words.old responses.old) panel lines).responses };
}

// The word-wide machine.
pub struct WordWide;

impl Pulses for WordWide {
    fn check(
        words: &[u64],
        responses: &[Response],
        width: u32,
        panel: Panel,
        lines: Lines,
    ) -> Result<(), Refusal> {
        wide::check(words, responses, width, panel, lines)
    }

    fn pulse(
        words: &mut [u64],
        responses: &mut [Response],
        width: u32,
        panel: Panel,
        lines: Lines,
    ) -> Result<Answer, Refusal> {
        wide::pulse(words, responses, width, panel, lines)
    }
}

// The plain machine, cell by cell.
pub struct Plain;

impl Pulses for Plain {
    fn check(
        words: &[u64],
        responses: &[Response],
        width: u32,
        panel: Panel,
        lines: Lines,
    ) -> Result<(), Refusal> {
        cells::check(words, responses, width, panel, lines)
    }

    fn pulse(
        words: &mut [u64],
        responses: &mut [Response],
        width: u32,
        panel: Panel,
        lines: Lines,
    ) -> Result<Answer, Refusal> {
        cells::pulse(words, responses, width, panel, lines)
    }
}

// ---- the ways to resolve

pub trait Resolves {
    fn resolve(
        words: &[u64],
        responses: &[Response],
        width: u32,
        key: Response,
        care: Response,
    ) -> Result<Option<WordSlice>, Refusal>
        ensures { result ≡ resolution key care (machine width words.now responses.now) };
}

// From word 0 up.
pub struct Scan;

impl Resolves for Scan {
    fn resolve(
        words: &[u64],
        responses: &[Response],
        width: u32,
        key: Response,
        care: Response,
    ) -> Result<Option<WordSlice>, Refusal> {
        resolver::scan(words, responses, width, key, care)
    }
}

// By the tree.
pub struct Network;

impl Resolves for Network {
    fn resolve(
        words: &[u64],
        responses: &[Response],
        width: u32,
        key: Response,
        care: Response,
    ) -> Result<Option<WordSlice>, Refusal> {
        resolver::network(words, responses, width, key, care)
    }
}

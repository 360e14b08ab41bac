// Document 01, 'One pulse', Resolution: "The lowest-numbered selected word, or none exactly if no word is selected."
// Two calls with one contract: `scan` goes from word 0 up; `network` is a tree that halves the words until one is left.
// Neither changes anything that is lent to it: "Resolving is no pulse."
#![tactic(auto)]

ghost use Rattle.std.specs.Prelude.{◌≡◌, ◌+◌, ◌≤◌, length};
ghost use Rattle.machine.specs.Machine.{machine, selected};
ghost use Rattle.machine.specs.Resolution.{lowest};
ghost use Rattle.resolver.specs.Answers.{resolution};

use machine::{Refusal, Response, WordSlice, check_machine, is_selected};

// From word 0 up.
pub fn lowest_selected(responses: &[Response], key: Response, care: Response) -> Option<WordSlice>
    ensures { result ≡ lowest (selected key care) 0 responses.now }
{
    for (i, response) in responses.iter().enumerate() {
        if is_selected(key, care, *response) {
            return Some(WordSlice(i));
        }
    }
    None
}

// "the tree halves the words until one is left": base is the number of the first word of this part.
// Of two halves the lower one's answer counts, and the upper one's where the lower has none.
fn tree(responses: &[Response], key: Response, care: Response, base: WordSlice) -> Option<WordSlice>
    requires { base.0 + length responses.now ≤ 1024 }
    ensures { result ≡ lowest (selected key care) base.0 responses.now }
{
    match responses {
        [] => None,
        [response] => is_selected(key, care, *response).then_some(base),
        _ => {
            let (lower, upper) = responses.split_at(responses.len() / 2);
            let above = WordSlice(base.0 + lower.len());
            tree(lower, key, care, base).or(tree(upper, key, care, above))
        }
    }
}

// Resolution by the scan from word 0.
#[tactic(auto, using(machine::proofs::Refusals::handed), unfolding(crate::specs::Answers::resolution, machine::specs::Resolution::resolved))]
pub fn scan(
    words: &[u64],
    responses: &[Response],
    width: u32,
    key: Response,
    care: Response,
) -> Result<Option<WordSlice>, Refusal>
    ensures { result ≡ resolution key care (machine width words.now responses.now) }
{
    check_machine(words, responses, width)?;
    Ok(lowest_selected(responses, key, care))
}

// Resolution by the network: the same answers.
#[tactic(auto, using(machine::proofs::Refusals::handed), unfolding(crate::specs::Answers::resolution, machine::specs::Resolution::resolved))]
pub fn network(
    words: &[u64],
    responses: &[Response],
    width: u32,
    key: Response,
    care: Response,
) -> Result<Option<WordSlice>, Refusal>
    ensures { result ≡ resolution key care (machine width words.now responses.now) }
{
    check_machine(words, responses, width)?;
    Ok(tree(responses, key, care, WordSlice(0)))
}

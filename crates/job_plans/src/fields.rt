// Document 02, request d: 20 to 25 of the fields that a job uses, and of those that it does not.
ghost use Rattle.std.specs.Prelude.{◌≡◌, ◌+◌};
ghost use Rattle.job_plans.specs.Fields.{empty_check, beyond_check, overlaps, overlap_check, if_used, fields_check, used_check, unused_zero_for, unused_zero, unused_check, greatest, scaledAdd, product};

use crate::{Job, Kind, Span};
use machine::{Refusal, Syllable, check_apart, check_bit, check_care, refuse};

// ---- used fields

// The bit above a syllable's highest.
fn end_of(s: Span) -> u32
    ensures { result ≡ s.low.0 + s.width }
{
    u32::from(s.low.0) + u32::from(s.width)
}

// 20: "syllable empty"
fn check_empty(name: Syllable, s: Span) -> Result<(), Refusal>
    ensures { result ≡ empty_check name s }
{
    refuse(Refusal::EmptySyllable(name), s.width == 0)
}

// 21: "syllable beyond the word"
fn check_beyond(n: u32, name: Syllable, s: Span) -> Result<(), Refusal>
    ensures { result ≡ beyond_check n name s }
{
    refuse(Refusal::BeyondWord(name), n < end_of(s))
}

// 22: "result overlaps a source"
fn overlap(s: Span, t: Span) -> bool
    ensures { result ≡ overlaps s t }
{
    (u32::from(s.low.0) < end_of(t)) & (u32::from(t.low.0) < end_of(s))
}

fn check_overlap(p: Span, source: Syllable, s: Span) -> Result<(), Refusal>
    ensures { result ≡ overlap_check p source s }
{
    refuse(Refusal::Overlap(source), overlap(p, s))
}

// Asked only if the field is used.
fn if_used(used: bool, check: Result<(), Refusal>) -> Result<(), Refusal>
    ensures { result ≡ if_used used check }
{
    if used { check } else { Ok(()) }
}

// Each number once, "lowest first", and of one number "A before B before P"; x, b and p say whether the job uses X, B and P.
#[tactic(auto, using(machine::proofs::Refusals::handed))]
fn check_fields(x: bool, b: bool, p: bool, n: u32, o: Job) -> Result<(), Refusal>
    ensures { result ≡ fields_check x b p n o }
{
    check_empty(Syllable::A, o.a)?;
    if_used(b, check_empty(Syllable::B, o.b))?;
    if_used(p, check_empty(Syllable::P, o.p))?;
    check_beyond(n, Syllable::A, o.a)?;
    if_used(b, check_beyond(n, Syllable::B, o.b))?;
    if_used(p, check_beyond(n, Syllable::P, o.p))?;
    if_used(p, check_overlap(o.p, Syllable::A, o.a))?;
    if_used(b, check_overlap(o.p, Syllable::B, o.b))?;
    if_used(x, check_bit(o.x))?;
    check_bit(o.y)?;
    if_used(x, check_apart(o.x, o.y))?;
    if_used(x, check_care(o.care, o.x))?;
    check_care(o.care, o.y)
}

// Extremes use X, Y and A, a scaled add Y, A and P, a product Y, A, B and P; "an unknown kind gets only 25".
#[tactic(auto, using(machine::proofs::Refusals::handed), unfolding(crate::specs::Fields::used_check, crate::specs::Fields::extreme_check, crate::specs::Fields::scaled_add_check, crate::specs::Fields::product_check))]
pub fn check_used(n: u32, o: Job) -> Result<(), Refusal>
    ensures { result ≡ used_check n o }
{
    match Kind::try_from(o.kind)? {
        Kind::Greatest | Kind::Smallest => check_fields(true, false, false, n, o),
        Kind::ScaledAdd => check_fields(false, false, true, n, o),
        Kind::Product => check_fields(false, true, true, n, o),
    }
}

// ---- the others

// What each kind leaves unused stands in a function of its own, beside the document's words: each has other fields.

// Extremes use no B, P, j and c.
fn extreme_zero(o: Job) -> bool
    ensures { result ≡ unused_zero_for greatest o }
{
    (o.b == Span::none()) & (o.p == Span::none()) & (o.j == 0) & (o.c == 0)
}

// A scaled add uses no X, B and j.
fn scaled_add_zero(o: Job) -> bool
    ensures { result ≡ unused_zero_for scaledAdd o }
{
    (o.x.0 == 0) & (o.b == Span::none()) & (o.j == 0)
}

// A product uses no X and c.
fn product_zero(o: Job) -> bool
    ensures { result ≡ unused_zero_for product o }
{
    (o.x.0 == 0) & (o.c == 0)
}

#[tactic(auto, unfolding(crate::specs::Fields::unused_zero))]
fn unused_zero(o: Job) -> bool
    ensures { result ≡ unused_zero o }
{
    match Kind::try_from(o.kind) {
        Ok(Kind::Greatest | Kind::Smallest) => extreme_zero(o),
        Ok(Kind::ScaledAdd) => scaled_add_zero(o),
        Ok(Kind::Product) => product_zero(o),
        Err(_) => false,
    }
}

// 25: "unused field not 0"
pub fn check_unused(o: Job) -> Result<(), Refusal>
    ensures { result ≡ unused_check o }
{
    refuse(Refusal::WrongJob, !unused_zero(o))
}

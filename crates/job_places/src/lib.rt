// The places of a job: which are in the table, the first, and the one after a pulse; and 20 to 25 of a held job.
// Document 01: 'Jobs', 'The image' (phase, i and j); document 02, request d. The definitions are in `job_plans`.
#![tactic(auto)]

ghost use Rattle.std.specs.Prelude.{◌≡◌, ◌+◌, ◌-◌, ◌<◌, eqb};
ghost use Rattle.laws.specs.Bits.{pick};
ghost use Rattle.job_plans.specs.Fields.{kind_of, greatest, scaledAdd, product};
ghost use Rattle.machine.specs.Machine.{machine};
ghost use Rattle.job_plans.specs.Places as places;

use job_plans::{Job, Kind, Span, fields};
use machine::{Refusal, Response, ResponseBit, refuse};

// ---- "A place outside the job's table is malformed."

fn at_place(o: Job) -> bool
    ensures { result ≡ places.at_place o }
{
    matches!(o.phase, 1 | 2)
}

// "In phase 0, i is a-1; phase 0 is for extremes only"
fn extreme_place(o: Job) -> bool
    ensures { result ≡ places.extreme_place o }
{
    ((o.phase == 0) & (u32::from(o.i) + 1 == u32::from(o.a.width)))
        | (at_place(o) & (o.i < o.a.width))
}

// "for place i from 0 below the smaller of the widths a and p"
fn scaled_place(o: Job) -> bool
    ensures { result ≡ places.scaled_place o }
{
    at_place(o) & (o.i < o.a.width) & (o.i < o.p.width)
}

// "for i from 0 below a, and within it j from 0 below b, with i+j below p"
fn product_place(o: Job) -> bool
    ensures { result ≡ places.product_place o }
{
    let sum = u32::from(o.i) + u32::from(o.j);
    let p = u32::from(o.p.width);
    at_place(o) & (o.i < o.a.width) & (o.j < o.b.width) & (sum < p)
}

#[tactic(auto, unfolding(job_plans::specs::Places::in_table))]
fn in_table(o: Job) -> bool
    ensures { result ≡ places.in_table o }
{
    match Kind::try_from(o.kind) {
        Ok(Kind::Greatest | Kind::Smallest) => extreme_place(o),
        Ok(Kind::ScaledAdd) => scaled_place(o),
        Ok(Kind::Product) => product_place(o),
        Err(_) => false,
    }
}

// ---- "Starting a job sets its first place, and its unused fields to 0."

// "In phase 0, i is a-1".
fn first_extreme(o: Job) -> Job
    ensures { result ≡ places.first_for greatest o }
{
    Job {
        b: Span::none(),
        p: Span::none(),
        phase: 0,
        i: o.a.width.saturating_sub(1),
        j: 0,
        c: 0,
        ..o
    }
}

fn first_scaled_add(o: Job) -> Job
    ensures { result ≡ places.first_for scaledAdd o }
{
    Job {
        x: ResponseBit(0),
        b: Span::none(),
        phase: 1,
        i: 0,
        j: 0,
        ..o
    }
}

fn first_product(o: Job) -> Job
    ensures { result ≡ places.first_for product o }
{
    Job {
        x: ResponseBit(0),
        phase: 1,
        i: 0,
        j: 0,
        c: 0,
        ..o
    }
}

#[tactic(auto, unfolding(job_plans::specs::Places::first))]
pub fn first_of(o: Job) -> Job
    ensures { result ≡ places.first o }
{
    match Kind::try_from(o.kind) {
        Ok(Kind::Greatest | Kind::Smallest) => first_extreme(o),
        Ok(Kind::ScaledAdd) => first_scaled_add(o),
        Ok(Kind::Product) => first_product(o),
        Err(_) => o,
    }
}

// Where `total` is given.
pub fn is_at_first(o: Job) -> bool
    ensures { result ≡ places.at_first o }
{
    let f = first_of(o);
    (o.phase == f.phase) & (o.i == f.i) & (o.j == f.j)
}

// ---- the place after a pulse

// The same job at another place.
fn moved(o: Job, phase: u8, i: u8, j: u8) -> Job
    ensures { result ≡ places.moved o phase i j }
{
    Job { phase, i, j, ..o }
}

// Extremes: "for each place from the top".
fn next_below(o: Job) -> Option<Job>
    ensures { result ≡ places.next_below o o.i }
{
    let i = o.i.checked_sub(1)?;
    Some(moved(o, 1, i, 0))
}

// The others: "for place i from 0 below the smaller of the widths a and p". An `if` says it plainer than `then_some` or `filter` would.
fn next_above(o: Job) -> Option<Job>
    requires { o.i < 64 }
    ensures { result ≡ places.next_above o }
{
    let i = o.i + 1;
    if (i < o.a.width) & (i < o.p.width) {
        Some(moved(o, 1, i, 0))
    } else {
        None
    }
}

// "and within it j from 0 below b, with i+j below p"
fn next_within(o: Job) -> Option<Job>
    requires { (o.i < 64) × (o.j < 64) }
    ensures { result ≡ places.next_within o }
{
    let j = o.j + 1;
    let sum = o.i + j;
    if (j < o.b.width) & (sum < o.p.width) {
        Some(moved(o, 1, o.i, j))
    } else {
        next_above(o)
    }
}

// "and, if any matched, search all don't care under Y=1"
fn narrow_if(o: Job, matched: usize) -> Option<Job>
    ensures { result ≡ places.after_trial greatest o matched }
{
    if matched == 0 {
        next_below(o)
    } else {
        Some(moved(o, 2, o.i, 0))
    }
}

fn after_trial(o: Job, matched: usize) -> Option<Job>
    ensures { result ≡ places.after_trial (kind_of o.kind) o matched }
{
    match Kind::try_from(o.kind).ok()? {
        Kind::Greatest | Kind::Smallest => narrow_if(o, matched),
        Kind::ScaledAdd | Kind::Product => Some(moved(o, 2, o.i, o.j)),
    }
}

fn after_second(o: Job) -> Option<Job>
    requires { (o.i < 64) × (o.j < 64) }
    ensures { result ≡ places.after_second (kind_of o.kind) o }
{
    match Kind::try_from(o.kind).ok()? {
        Kind::Greatest | Kind::Smallest => next_below(o),
        Kind::ScaledAdd => next_above(o),
        Kind::Product => next_within(o),
    }
}

#[tactic(auto, unfolding(job_plans::specs::Places::next))]
pub fn next_of(o: Job, matched: usize) -> Option<Job>
    requires { (o.i < 64) × (o.j < 64) }
    ensures { result ≡ places.next o matched }
{
    match o.phase {
        0 => Some(moved(o, 1, o.i, 0)),
        1 => after_trial(o, matched),
        _ => after_second(o),
    }
}

// ---- 20 to 25 of a held job

// 25: "unknown .. place"
fn check_place(o: Job) -> Result<(), Refusal>
    ensures { result ≡ places.place_check o }
{
    refuse(Refusal::WrongJob, !in_table(o))
}

// "after the start": used fields as at the start, the others 0, a place of the table.
#[tactic(auto, using(machine::proofs::Refusals::handed), unfolding(job_plans::specs::Places::held_check))]
pub fn check_held(width: u32, o: Job) -> Result<(), Refusal>
    ensures { result ≡ places.held_check width o }
{
    fields::check_used(width, o)?;
    fields::check_unused(o)?;
    check_place(o)
}

// 25: "step while none is"
pub fn none_held() -> Refusal
    ensures { result ≡ places.none_held }
{
    Refusal::WrongJob
}

#[tactic(auto, using(machine::proofs::Refusals::handed), unfolding(job_plans::specs::Places::step_check))]
pub fn check_step(
    words: &[u64],
    responses: &[Response],
    width: u32,
    held: Option<Job>,
) -> Result<(), Refusal>
    ensures { result ≡ places.step_check (machine width words.now responses.now) held }
{
    machine::check_machine(words, responses, width)?;
    check_held(width, held.ok_or(none_held())?)
}

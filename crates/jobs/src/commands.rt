// Document 01, 'Jobs': the command at each place of a job. "Registers not mentioned are 0 in its commands."
ghost use Rattle.std.specs.Prelude.{◌≡◌, ◌+◌, ◌-◌, ◌*◌, ◌%◌, ◌^◌, ◌≤◌, ◌<◌};
ghost use Rattle.machine.specs.Machine.{response_bits};
ghost use Rattle.job_plans.specs.Fields.{kind_of};
ghost use Rattle.job_plans.specs.Places.{held_check};
ghost use Rattle.job_plans.specs.Commands as commands;

use job_plans::{Command, Job, Kind, Span};
use machine::{BitSlice, Lines, Panel, Response, ResponseBit, low_bits};

// ---- registers

// Response bit x alone.
fn response_bit(x: ResponseBit) -> Response
    requires { x.0 < response_bits }
    ensures { result ≡ 2 ^ x.0 }
{
    1 << x.0
}

// Bit i of a syllable, by its number in the word.
fn slice_of(s: Span, i: u8) -> BitSlice
    requires { s.low.0 + i < 64 }
    ensures { result.0 ≡ s.low.0 + i }
{
    BitSlice(s.low.0 + i)
}

// The bit of that number alone.
fn one_at(b: BitSlice) -> u64
    requires { b.0 < 64 }
    ensures { result ≡ 2 ^ b.0 }
{
    1u64 << b.0
}

// Bit i of a syllable, at its place in the word.
fn bit_of(s: Span, i: u8) -> u64
    requires { s.low.0 + i < 64 }
    ensures { result ≡ commands.bit_of s i }
{
    one_at(slice_of(s, i))
}

// "c·2^i mod 2^p"
fn scaled(c: u64, i: u8, p: u8) -> u64
    requires { (i < p) × (p ≤ 64) }
    ensures { result ≡ c * 2 ^ i % 2 ^ p }
{
    (c << i) & low_bits(u32::from(p))
}

// ---- the two forms of a command

// The lines of a command: search, multiadd, and no other.
fn raising(search: bool, multiadd: bool) -> Lines
    ensures { result ≡ commands.raising search multiadd }
{
    Lines {
        search,
        read: false,
        write: false,
        add: false,
        multiwrite: false,
        multiadd,
        complement: false,
    }
}

// Search the bits of the mask exact as in comp, under (key, care), target bit t.
fn look(key: Response, care: Response, t: ResponseBit, mask: u64, comp: u64) -> Command
    requires { t.0 < response_bits }
    ensures { result ≡ commands.look key care t mask comp }
{
    Command {
        panel: Panel {
            comp,
            sc2: mask,
            key,
            care,
            target: response_bit(t),
            ..Panel::blank()
        },
        lines: raising(true, false),
    }
}

// "Adds set MOR to P's bits and SDR to P's top bit."
fn plus(y: ResponseBit, s: Span, v: u64) -> Command
    requires y_lt_response_bits { y.0 < response_bits }
    requires width_nonzero { (0 < s.width) × (s.low.0 + s.width ≤ 64) × (v < 2 ^ s.width) }
    ensures { result ≡ commands.plus y s v }
{
    let low = s.low.0;
    let under = response_bit(y);
    Command {
        panel: Panel {
            comp: v << low,
            sdr: bit_of(s, s.width - 1),
            mor: low_bits(u32::from(s.width)) << low,
            key: under,
            care: under,
            ..Panel::blank()
        },
        lines: raising(false, true),
    }
}

// ---- the command at a place

// The trial search.
#[tactic(auto, using(job_plans::proofs::Fair::room))]
fn trial(n: u32, o: Job) -> Command
    requires n_bound { n ≤ 64 }
    requires o_value { held_check n o ≡ Ok tt }
    ensures { result ≡ commands.trial (kind_of o.kind) o }
{
    let x = response_bit(o.x);
    let a = bit_of(o.a, o.i);
    match Kind::try_from(o.kind) {
        Ok(Kind::Greatest) => look(x, x, o.y, a, a),
        Ok(Kind::Smallest) => look(x, x, o.y, a, 0),
        Ok(Kind::ScaledAdd) => look(o.key, o.care, o.y, a, a),
        Ok(Kind::Product) => {
            let both = a | bit_of(o.b, o.j);
            look(o.key, o.care, o.y, both, both)
        }
        Err(_) => look(0, 0, ResponseBit(0), 0, 0),
    }
}

// The pulse after it.
#[tactic(auto, using(job_plans::proofs::Fair::room))]
fn second(n: u32, o: Job) -> Command
    requires n_bound { n ≤ 64 }
    requires o_value { held_check n o ≡ Ok tt }
    ensures { result ≡ commands.second (kind_of o.kind) o }
{
    match Kind::try_from(o.kind) {
        Ok(Kind::Greatest | Kind::Smallest) => {
            let y = response_bit(o.y);
            look(y, y, o.x, 0, 0)
        }
        Ok(Kind::ScaledAdd) => plus(o.y, o.p, scaled(o.c, o.i, o.p.width)),
        Ok(Kind::Product) => plus(o.y, o.p, scaled(1, o.i + o.j, o.p.width)),
        Err(_) => look(0, 0, ResponseBit(0), 0, 0),
    }
}

#[tactic(auto, using(job_plans::proofs::Fair::room), unfolding(job_plans::specs::Commands::command))]
pub(crate) fn command_of(n: u32, o: Job) -> Command
    requires n_bound { n ≤ 64 }
    requires o_value { held_check n o ≡ Ok tt }
    ensures { result ≡ commands.command o }
{
    match o.phase {
        0 => look(o.key, o.care, o.x, 0, 0),
        1 => trial(n, o),
        _ => second(n, o),
    }
}

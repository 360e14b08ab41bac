// Search, cell by cell: the codes and SC3's settings, the statuses from top bit to bottom, what the bottom wants.
ghost use Rattle.std.specs.Prelude.{◌≡◌, ◌&&◌, ◌||◌, false, eqb, suc, ◌+◌, ◌≤◌, ◌<◌};
ghost use Rattle.laws.specs.Bits.{bit, every, pick};
ghost use Rattle.laws.specs.Lists.{all};
ghost use Rattle.machine.specs.Machine.{syllables};
ghost use Rattle.machine.specs.Search.{code_at, each_code, each_bit, or_equal, one_code, over_compared, one_setting, compared_only, unmixed};
ghost use Rattle.machine.specs.Cells.{cell, status_of, wants, accepted, cells_match};
ghost use Rattle.chains.specs.Walks.{syllable, here, or_code, or_setting};

use crate::bits::bit_of;
use crate::syllables::{Syllable, down_from, is_top};
use machine::{Code, Panel, Response, Status, is_selected};

// ---- codes and SC3

pub fn code_at(panel: Panel, i: u32) -> Code
    requires { i < 64 }
    ensures { result ≡ code_at panel i }
{
    match (bit_of(panel.sc1, i), bit_of(panel.sc2, i)) {
        (0, 0) => Code::DontCare,
        (0, _) => Code::Exact,
        (_, 0) => Code::Larger,
        _ => Code::Smaller,
    }
}

// Whether SC3 has a one at bit i.
fn or_equal_at(panel: Panel, i: u32) -> bool
    requires { i < 64 }
    ensures { result ≡ or_equal panel i }
{
    bit_of(panel.sc3, i) == 1
}

fn or_code(code: Code, wanted: Code) -> bool
    ensures { result ≡ or_code wanted code }
{
    (code == Code::DontCare) | (code == wanted)
}

// Whether the bits of a syllable that are cared for carry this code.
fn has_code(panel: Panel, y: Syllable, wanted: Code) -> bool
    ensures { result ≡ each_code panel (syllable y.low y.width) (or_code wanted) }
{
    (y.low..y.low + y.width).all(|i| or_code(code_at(panel, i), wanted))
}

// Whether the bits of a syllable that are cared for carry one code.
#[tactic(auto, unfolding(machine::specs::Search::one_code))]
fn has_one_code(panel: Panel, y: Syllable) -> bool
    ensures { result ≡ one_code panel (syllable y.low y.width) }
{
    has_code(panel, y, Code::Exact)
        || (has_code(panel, y, Code::Larger) || has_code(panel, y, Code::Smaller))
}

fn or_setting(code: Code, equal: bool, wanted: bool) -> bool
    ensures { result ≡ or_setting wanted code equal }
{
    (code == Code::DontCare) | (equal == wanted)
}

// Whether the bits of a syllable that are cared for have this setting of SC3.
fn has_setting(panel: Panel, y: Syllable, wanted: bool) -> bool
    ensures { result ≡ each_bit panel (syllable y.low y.width) (or_setting wanted) }
{
    (y.low..y.low + y.width).all(|i| or_setting(code_at(panel, i), or_equal_at(panel, i), wanted))
}

fn over_compared(code: Code, one: bool) -> bool
    ensures { result ≡ over_compared code one }
{
    match code {
        Code::DontCare | Code::Exact => !one,
        Code::Larger | Code::Smaller => true,
    }
}

// Whether SC3 has no one but over a larger or smaller bit of a syllable.
fn is_compared_only(panel: Panel, y: Syllable) -> bool
    ensures { result ≡ compared_only panel (syllable y.low y.width) }
{
    (y.low..y.low + y.width).all(|i| over_compared(code_at(panel, i), or_equal_at(panel, i)))
}

// Whether the bits of a syllable that are cared for have one setting of SC3, and no other bit has a one of it.
#[tactic(auto, unfolding(machine::specs::Search::one_setting))]
fn has_one_setting(panel: Panel, y: Syllable) -> bool
    ensures { result ≡ (one_setting panel (syllable y.low y.width) && compared_only panel (syllable y.low y.width)) }
{
    (has_setting(panel, y, false) || has_setting(panel, y, true)) && is_compared_only(panel, y)
}

fn is_unmixed(panel: Panel, y: Syllable) -> bool
    ensures { result ≡ unmixed panel (syllable y.low y.width) }
{
    has_one_code(panel, y) && has_one_setting(panel, y)
}

// At bit i: the syllable that it starts, or true where it starts none.
fn unmixed_at(n: u32, panel: Panel, i: u32) -> bool
    requires { i < 64 }
    ensures { result ≡ here (unmixed panel) n panel.sdr i }
{
    !is_top(n, panel.sdr, i) || is_unmixed(panel, down_from(panel.sdr, i))
}

pub fn all_unmixed(n: u32, panel: Panel) -> bool
    requires { n ≤ 64 }
    ensures { result ≡ all (unmixed panel) (syllables n panel.sdr) }
{
    (0..n).all(|i| unmixed_at(n, panel, i))
}

// ---- the cells

// Two bits where the status is still equal: what a one over a zero settles, and a zero over a one.
fn settle(w: u64, c: u64, more: Status, less: Status) -> Status
    ensures { result ≡ pick (eqb w 0) (pick (eqb c 0) Status.Equal less) (pick (eqb c 0) more Status.Equal) }
{
    match (w, c) {
        (0, 0) => Status::Equal,
        (0, _) => less,
        (_, 0) => more,
        _ => Status::Equal,
    }
}

fn settle_by(code: Code, w: u64, c: u64) -> Status
    ensures { result ≡ cell code w c Status.Equal }
{
    match code {
        Code::DontCare => Status::Equal,
        Code::Exact => settle(w, c, Status::Against, Status::Against),
        Code::Larger => settle(w, c, Status::For, Status::Against),
        Code::Smaller => settle(w, c, Status::Against, Status::For),
    }
}

// One cell: a settled status stays.
pub fn pass_on(code: Code, w: u64, c: u64, above: Status) -> Status
    ensures { result ≡ cell code w c above }
{
    match above {
        Status::Equal => settle_by(code, w, c),
        Status::For | Status::Against => above,
    }
}

// The status at the bottom of a syllable, passed on from its top bit.
fn status_of(panel: Panel, w: u64, y: Syllable) -> Status
    ensures { result ≡ status_of panel w (syllable y.low y.width) }
{
    let mut status = Status::Equal;
    for j in (0..y.width).rev() {
        let i = y.low + j;
        status = pass_on(
            code_at(panel, i),
            bit_of(w, i),
            bit_of(panel.comp, i),
            status,
        );
    }
    status
}

fn is_wanted(code: Code, equal: bool, status: Status) -> bool
    ensures { result ≡ wants code equal status }
{
    match code {
        Code::DontCare => true,
        Code::Exact => status == Status::Equal,
        Code::Larger | Code::Smaller => match status {
            Status::Equal => equal,
            Status::For => true,
            Status::Against => false,
        },
    }
}

// Whether every cell of a syllable is content with the status at its bottom.
fn is_accepted(panel: Panel, w: u64, y: Syllable) -> bool
    ensures { result ≡ accepted panel w (syllable y.low y.width) }
{
    let status = status_of(panel, w, y);
    (y.low..y.low + y.width).all(|i| is_wanted(code_at(panel, i), or_equal_at(panel, i), status))
}

// At bit i: the syllable that it starts, or true where it starts none.
pub fn accepted_at(n: u32, panel: Panel, w: u64, i: u32) -> bool
    requires { i < 64 }
    ensures { result ≡ here (accepted panel w) n panel.sdr i }
{
    !is_top(n, panel.sdr, i) || is_accepted(panel, w, down_from(panel.sdr, i))
}

fn all_accepted(n: u32, panel: Panel, w: u64) -> bool
    requires { n ≤ 64 }
    ensures { result ≡ all (accepted panel w) (syllables n panel.sdr) }
{
    (0..n).all(|i| accepted_at(n, panel, w, i))
}

pub fn is_match(n: u32, panel: Panel, w: u64, r: Response) -> bool
    requires { n ≤ 64 }
    ensures { result ≡ cells_match n panel w r }
{
    is_selected(panel.key, panel.care, r) & all_accepted(n, panel, w)
}

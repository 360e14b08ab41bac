// The panel lent: ten thin loads through `&mut`, one for each register, over the loads by value, and a load by number above them.
// Document 01, 'The machine': "Loading one register of the panel changes that register and no other." The tenth is SC3 of document 02, request c.
#![tactic(auto)]

ghost use Rattle.std.specs.Prelude.{◌≡◌};
ghost use Rattle.laws.specs.Bits.{pick};
ghost use Rattle.machine.specs.Panel.{registers, load};
ghost use Rattle.panel.specs.Numbered.{takes, chosen};

use machine::{Panel, RESPONSE_BITS, Response, WordSlice};

pub fn load_comp(panel: &mut Panel, value: u64)
    ensures { registers panel.new ≡ load 0 value panel.old }
{
    let p = *panel;
    *panel = p.load_comp(value);
}

pub fn load_sdr(panel: &mut Panel, value: u64)
    ensures { registers panel.new ≡ load 1 value panel.old }
{
    let p = *panel;
    *panel = p.load_sdr(value);
}

pub fn load_sc1(panel: &mut Panel, value: u64)
    ensures { registers panel.new ≡ load 2 value panel.old }
{
    let p = *panel;
    *panel = p.load_sc1(value);
}

pub fn load_sc2(panel: &mut Panel, value: u64)
    ensures { registers panel.new ≡ load 3 value panel.old }
{
    let p = *panel;
    *panel = p.load_sc2(value);
}

pub fn load_mor(panel: &mut Panel, value: u64)
    ensures { registers panel.new ≡ load 4 value panel.old }
{
    let p = *panel;
    *panel = p.load_mor(value);
}

pub fn load_key(panel: &mut Panel, value: Response)
    ensures { registers panel.new ≡ load 5 value panel.old }
{
    let p = *panel;
    *panel = p.load_key(value);
}

pub fn load_care(panel: &mut Panel, value: Response)
    ensures { registers panel.new ≡ load 6 value panel.old }
{
    let p = *panel;
    *panel = p.load_care(value);
}

pub fn load_target(panel: &mut Panel, value: Response)
    ensures { registers panel.new ≡ load 7 value panel.old }
{
    let p = *panel;
    *panel = p.load_target(value);
}

pub fn load_address(panel: &mut Panel, value: WordSlice)
    ensures { registers panel.new ≡ load 8 value.0 panel.old }
{
    let p = *panel;
    *panel = p.load_address(value);
}

pub fn load_sc3(panel: &mut Panel, value: u64)
    ensures { registers panel.new ≡ load 9 value panel.old }
{
    let p = *panel;
    *panel = p.load_sc3(value);
}

// ---- above them, with plain parameters: whoever calls `load` needs no proof by hand

// The register of this number, of a panel of its own, which it lends. The value comes in each type that a register has.
fn load_own(panel: Panel, register: u8, value: u64, narrow: Response, word: WordSlice) -> Panel
    ensures { registers result ≡ load register (chosen register value narrow word.0) panel }
{
    let mut own = panel;
    match register {
        0 => load_comp(&mut own, value),
        1 => load_sdr(&mut own, value),
        2 => load_sc1(&mut own, value),
        3 => load_sc2(&mut own, value),
        4 => load_mor(&mut own, value),
        5 => load_key(&mut own, narrow),
        6 => load_care(&mut own, narrow),
        7 => load_target(&mut own, narrow),
        8 => load_address(&mut own, word),
        9 => load_sc3(&mut own, value),
        _ => (),
    }
    own
}

// Whether there is a register of this number and the value fits it.
pub fn takes(register: u8, value: u64) -> bool
    ensures { result ≡ takes register value }
{
    if register < 5 {
        true
    } else if register < 8 {
        !machine::too_wide(RESPONSE_BITS, value)
    } else {
        register < 10
    }
}

// The panel with the register of this number loaded; as it was where the value is not taken.
pub fn load(panel: Panel, register: u8, value: u64) -> Panel
    ensures { registers result ≡ pick (takes register value) (load register value panel) (registers panel) }
{
    if takes(register, value) {
        let narrow = machine::response_of(value);
        load_own(panel, register, value, narrow, WordSlice(value as usize))
    } else {
        panel
    }
}

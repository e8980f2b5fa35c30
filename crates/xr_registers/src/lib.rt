// The stored registers of the XR space, as words of the state.
#![tactic(auto)]

ghost use Rattle.std.specs.Prelude.{◌≡◌, ◌<◌, IfSome};
ghost use Rattle.xosera.specs.State.{state_words, state_at};
ghost use Rattle.xosera.specs.XrSpace.{register_read, xr_read};
ghost use Rattle.xr_registers.specs.Places.{register_place, register_written};

use xosera::{
    AUD_CTRL, BEAM_LINE, BLIT_REGS, COPP_CTRL, PLAYFIELD_A, PLAYFIELD_B, StateWords, VID_CTRL,
    VID_LEFT, VID_RIGHT, XrAddr, XrWords,
};

// The word that stands for a stored register; none where nothing is stored.
#[tactic(auto, using(std::proofs::lemmas::Bool::Decides::nat_tests), unfolding(xosera::specs::XrSpace::within, crate::specs::Places::register_place))]
fn register_place(at: u16) -> Option<usize>
    ensures place { result ≡ register_place at }
    ensures within { IfSome result (λ i. i < state_words) }
{
    match at {
        0 => Some(VID_CTRL),
        1 => Some(COPP_CTRL),
        2 => Some(AUD_CTRL),
        4 => Some(VID_LEFT),
        5 => Some(VID_RIGHT),
        0x10..=0x16 => Some(PLAYFIELD_A + (at - 0x10) as usize),
        0x18..=0x1E => Some(PLAYFIELD_B + (at - 0x18) as usize),
        0x40..=0x49 => Some(BLIT_REGS + (at - 0x40) as usize),
        _ => None,
    }
}

// A register read. XR_SCANLINE reads the beam's line, the playfields' LINE_ADDR and the blitter's registers read 0.
#[tactic(auto, using(crate::proofs::Registers::places), unfolding(xosera::specs::State::state_at, xosera::specs::XrSpace::within, xosera::specs::XrSpace::register_read, xosera::specs::XrSpace::playfield_read))]
fn register_read(s: &StateWords, at: u16) -> u16
    ensures { result ≡ register_read (state_at s.now).video (state_at s.now).beam at }
{
    match at {
        3 => s[BEAM_LINE],
        0x15 | 0x1D | 0x20..=0xFFFF => 0,
        _ => match register_place(at) {
            Some(i) => s[i],
            None => 0,
        },
    }
}

// A register written; nothing where none is stored.
#[tactic(auto, using(crate::proofs::Registers::places))]
pub fn store_register(s: &mut StateWords, at: u16, w: u16)
    ensures { state_at s.new ≡ register_written (state_at s.old) at w }
{
    if let Some(i) = register_place(at) {
        s[i] = w;
    }
}

// A read anywhere in the XR space.
#[tactic(auto, using(std::proofs::lemmas::Bool::Decides::nat_tests), unfolding(xosera::specs::XrSpace::within, xosera::specs::XrSpace::xr_read))]
pub fn xr_read(s: &StateWords, xr: &XrWords, a: XrAddr) -> u16
    ensures { result ≡ xr_read (state_at s.now).video (state_at s.now).beam xr.now a.0 }
{
    if a.0 >= 0x4000 {
        xr_memory::load(xr, a)
    } else {
        register_read(s, a.0)
    }
}

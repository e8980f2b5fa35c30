// XR memory by parts: tile, colour and copper, and whether an address is the blitter's. The papers ask that an access to colour memory
// works on the colour part alone, lent on from the middle; the other parts are indexed in place.
#![tactic(auto)]

ghost use Rattle.std.specs.Prelude.{◌≡◌, ◌&&◌, ◌<◌, ◌≤◌, length, get_or, set};
ghost use Rattle.xosera.specs.State.{Video, Beam, is_set, state_at};
ghost use Rattle.xosera.specs.XrSpace.{within, is_blit_register, xr_read, xr_memory_write};

use xosera::{QUEUED, StateWords, XrAddr, XrWords};

// Whether an address is one of the n from base on.
#[tactic(auto, using(crate::proofs::Parts::part_tests), unfolding(xosera::specs::XrSpace::within))]
pub fn within(base: u16, n: u16, a: u16) -> bool
    requires base_bound { base < 50000 }
    requires n_bound { n < 10000 }
    ensures { result ≡ within base n a }
{
    (base..base + n).contains(&a)
}

// Whether a write to an address would reach a blitter register while a blit is queued.
#[tactic(auto, unfolding(xosera::specs::State::state_at, xosera::specs::XrSpace::is_blit_register))]
pub fn reaches_full(s: &StateWords, a: u16) -> bool
    ensures { result ≡ (is_blit_register a && is_set (state_at s.now).queued) }
{
    within(0x40, 10, a) && s[QUEUED] == 1
}

// One word of a part of XR memory that is lent by itself.
fn put_word(part: &mut [u16], i: usize, w: u16)
    requires { i < length part.old }
    ensures { part.new ≡ set part.old i w }
{
    part[i] = w;
}

fn get_word(part: &[u16], i: usize) -> u16
    requires { i < length part.now }
    ensures { result ≡ get_or part.now i 0 }
{
    part[i]
}

// A write to XR memory; one outside the three parts is dropped.
#[tactic(auto, using(crate::proofs::Parts::part_tests), unfolding(xosera::specs::XrSpace::within, xosera::specs::XrSpace::xr_memory_write))]
pub fn store(xr: &mut XrWords, a: XrAddr, w: u16)
    ensures { xr.new ≡ xr_memory_write xr.old a.0 w }
{
    match a.0 {
        at @ 0x4000..=0x53FF => xr[(at - 0x4000) as usize] = w,
        at @ 0x8000..=0x81FF => put_word(&mut xr[5120..5632], (at - 0x8000) as usize, w),
        at @ 0xC000..=0xC3FF => xr[5632 + (at - 0xC000) as usize] = w,
        _ => {}
    }
}

// A read of XR memory; outside the three parts it gives 0.
#[tactic(auto, using(crate::proofs::Parts::part_tests), unfolding(xosera::specs::XrSpace::within, xosera::specs::XrSpace::xr_read))]
pub fn load(xr: &XrWords, a: XrAddr) -> u16
    requires { 0x4000 ≤ a.0 }
    ensures { (v : Video) (b : Beam) → result ≡ xr_read v b xr.now a.0 }
{
    match a.0 {
        at @ 0x4000..=0x53FF => xr[(at - 0x4000) as usize],
        at @ 0x8000..=0x81FF => get_word(&xr[5120..5632], (at - 0x8000) as usize),
        at @ 0xC000..=0xC3FF => xr[5632 + (at - 0xC000) as usize],
        _ => 0,
    }
}

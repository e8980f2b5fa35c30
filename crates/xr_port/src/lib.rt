// The XR data port, XM_XDATA: reads through the read buffer, writes anywhere in the XR space. The copper's MOVER uses
// write_register too.
#![tactic(auto)]

ghost use Rattle.std.specs.Prelude.{◌≡◌, ℕ, ◌<◌, List};
ghost use Rattle.xosera.specs.State.{state_at};
ghost use Rattle.xosera.specs.Adapter.{Side};
ghost use Rattle.xosera.specs.Plan.{quiet, Performs};
ghost use Rattle.xosera.specs.XrSpace.{xr_write};
ghost use Rattle.xosera.specs.HostBytes.{xr_loaded, write_xdata, read_xdata};
ghost use Rattle.xr_port.specs.Stops.{controlled};

use xosera::{
    COPPER_RUNNING, COPPER_WORD, FRAME_ENDED, RD_XADDR, STATUS, StateWords, WR_XADDR, XR_BUFFER,
    XrAddr, XrWords,
};

// XR_COPP_CTRL written: with bit 15 clear the copper stops, back at 0.
fn control_copper(s: &mut StateWords, w: u16)
    ensures { state_at s.new ≡ controlled (state_at s.old) w }
{
    if !fields::copper_enabled(w) {
        s[COPPER_RUNNING] = 0;
        s[COPPER_WORD] = 0;
    }
}

// A write to a register: the word stored, and then 0x01 may stop the copper, 0x03 sets status bit 4, 0x49 starts or queues a blit.
#[tactic(auto, using(crate::proofs::XrWrites::writes))]
pub fn write_register(s: &mut StateWords, at: u16, w: u16)
    requires { at < 0x4000 }
    ensures { (v x : List ℕ) → Performs (λ (side : Side). xr_write side at w) s.old v x s.new v x }
{
    xr_registers::store_register(s, at, w);
    match at {
        1 => control_copper(s, w),
        3 => s[STATUS] |= FRAME_ENDED,
        0x49 => queue::start(s),
        _ => {}
    }
}

// A write anywhere in the XR space.
#[tactic(auto, using(crate::proofs::XrWrites::writes))]
fn write_xr(s: &mut StateWords, xr: &mut XrWords, a: XrAddr, w: u16)
    ensures { (v : List ℕ) → Performs (λ (side : Side). xr_write side a.0 w) s.old v xr.old s.new v
        xr.new }
{
    if a.0 >= 0x4000 {
        xr_memory::store(xr, a, w);
    } else {
        write_register(s, a.0, w);
    }
}

// An odd write: a store at XM_WR_XADDR, which goes up by 1.
pub fn write(s: &mut StateWords, xr: &mut XrWords, w: u16)
    ensures { (v : List ℕ) → Performs (λ (side : Side). write_xdata side w) s.old v xr.old s.new v xr.new }
{
    let a = XrAddr(s[WR_XADDR]);
    s[WR_XADDR] = a.0.wrapping_add(1);
    write_xr(s, xr, a, w);
}

// XM_RD_XADDR set, and the read buffer loaded from there.
pub fn load(s: &mut StateWords, xr: &XrWords, a: XrAddr)
    ensures { (v : List ℕ) → Performs (λ (side : Side). quiet (xr_loaded side a.0)) s.old v xr.now
        s.new v xr.now }
{
    let word = xr_registers::xr_read(s, xr, a);
    s[RD_XADDR] = a.0;
    s[XR_BUFFER] = word;
}

// An odd read: XM_RD_XADDR goes up by 1 and the buffer is loaded again.
#[tactic(auto, unfolding(xosera::specs::State::state_at, xosera::specs::Words::wrap))]
pub fn read(s: &mut StateWords, xr: &XrWords)
    ensures { (v : List ℕ) → Performs read_xdata s.old v xr.now s.new v xr.now }
{
    let a = XrAddr(s[RD_XADDR].wrapping_add(1));
    load(s, xr, a);
}
